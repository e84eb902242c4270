//! Law of attributes: a pen is what its attributes make of the unset one.
ghost use Rattle.std.specs.Prelude.{◌≡◌};
ghost use Rattle.cept_codes.specs.declared.attribute.Pen.{Pen};
ghost use Rattle.cept_codes.specs.Attribute.{unset_pen};
ghost use Rattle.cept_writer.specs.AttributeCommands.{attributes_of, pen_with_all};

/// The attributes of a pen, one after the other, make it of the unset pen.
pub fn attributes_make_the_pen()
    ensures { (p : Pen) → pen_with_all (attributes_of p) unset_pen ≡ p }
{}
