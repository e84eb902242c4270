//! Laws of `==`: on each value of this crate it answers whether the two are the same. The functions
//! do nothing.
ghost use Rattle.std.specs.Prelude.{◌≡◌, ◌↔◌, IsTrue};
ghost use Rattle.cept_codes.specs.Place.{Place};
ghost use Rattle.cept_codes.specs.Same.{same_no_memory, same_place, same_size, same_flash};
ghost use Rattle.cept_codes.specs.Same.{same_attr, same_pen, same_full, same_set, same_glyph};
ghost use Rattle.cept_codes.specs.Same.{same_marker, same_what, same_cell, same_row, same_rgb};
ghost use Rattle.cept_codes.specs.Same.{same_paint, same_pattern, same_inks, same_shape, same_part};
ghost use Rattle.cept_codes.specs.Same.{same_look, same_c1_set, same_way, same_form, same_command};
ghost use Rattle.cept_codes.specs.Same.{same_reason, same_said, same_item, same_stroke};
ghost use Rattle.cept_codes.specs.Same.{same_read, same_line_reason};
ghost use Rattle.cept_codes.specs.declared.attribute.Size.{Size};
ghost use Rattle.cept_codes.specs.declared.attribute.Flash.{Flash};
ghost use Rattle.cept_codes.specs.declared.attribute.Attr.{Attr};
ghost use Rattle.cept_codes.specs.declared.attribute.Pen.{Pen};
ghost use Rattle.cept_codes.specs.declared.attribute.Full.{Full};
ghost use Rattle.cept_codes.specs.declared.glyph.SetId.{SetId};
ghost use Rattle.cept_codes.specs.declared.glyph.Glyph.{Glyph};
ghost use Rattle.cept_codes.specs.declared.glyph.Read.{Read};
ghost use Rattle.cept_codes.specs.declared.cell.Marker.{Marker};
ghost use Rattle.cept_codes.specs.declared.cell.What.{What};
ghost use Rattle.cept_codes.specs.declared.cell.Cell.{Cell};
ghost use Rattle.cept_codes.specs.declared.cell.RowCells.{RowCells};
ghost use Rattle.cept_codes.specs.declared.look.Rgb.{Rgb};
ghost use Rattle.cept_codes.specs.declared.look.Paint.{Paint};
ghost use Rattle.cept_codes.specs.declared.look.Pattern.{Pattern};
ghost use Rattle.cept_codes.specs.declared.look.Inks.{Inks};
ghost use Rattle.cept_codes.specs.declared.look.Shape.{Shape};
ghost use Rattle.cept_codes.specs.declared.look.Part.{Part};
ghost use Rattle.cept_codes.specs.declared.look.Look.{Look};
ghost use Rattle.cept_codes.specs.declared.command.C1Set.{C1Set};
ghost use Rattle.cept_codes.specs.declared.command.Up.{Up};
ghost use Rattle.cept_codes.specs.declared.command.Form.{Form};
ghost use Rattle.cept_codes.specs.declared.command.Command.{Command};
ghost use Rattle.cept_codes.specs.declared.item.Reason.{Reason};
ghost use Rattle.cept_codes.specs.declared.item.Said.{Said};
ghost use Rattle.cept_codes.specs.declared.item.Item.{Item};
ghost use Rattle.cept_codes.specs.declared.line_reason.LineReason.{LineReason};
ghost use Rattle.cept_codes.specs.declared.stroke.Stroke.{Stroke};
ghost use Rattle.cept_codes.specs.declared.memory.NoMemory.{NoMemory};

/// Two positions compare as equal exactly where row and column are the same.
pub fn places_compare_by_row_and_column()
    ensures { (a b : Place) → IsTrue (same_place a b) ↔ (a ≡ b) }
{}

/// Two pens compare as equal exactly where they are the same, and so do attributes and what they
/// are made of.
pub fn pens_compare_by_their_fields()
    ensures size { (a b : Size) → IsTrue (same_size a b) ↔ (a ≡ b) }
    ensures flash { (a b : Flash) → IsTrue (same_flash a b) ↔ (a ≡ b) }
    ensures attr { (a b : Attr) → IsTrue (same_attr a b) ↔ (a ≡ b) }
    ensures pen { (a b : Pen) → IsTrue (same_pen a b) ↔ (a ≡ b) }
    ensures full { (a b : Full) → IsTrue (same_full a b) ↔ (a ≡ b) }
{}

/// Two cells compare as equal exactly where they are the same, and so do rows of cells, what cells
/// are made of, and what graphic bytes give.
pub fn cells_compare_by_their_fields()
    ensures set { (a b : SetId) → IsTrue (same_set a b) ↔ (a ≡ b) }
    ensures glyph { (a b : Glyph) → IsTrue (same_glyph a b) ↔ (a ≡ b) }
    ensures read { (a b : Read) → IsTrue (same_read a b) ↔ (a ≡ b) }
    ensures marker { (a b : Marker) → IsTrue (same_marker a b) ↔ (a ≡ b) }
    ensures what { (a b : What) → IsTrue (same_what a b) ↔ (a ≡ b) }
    ensures cell { (a b : Cell) → IsTrue (same_cell a b) ↔ (a ≡ b) }
    ensures row { (a b : RowCells) → IsTrue (same_row a b) ↔ (a ≡ b) }
{}

/// Two looks compare as equal exactly where they are the same, and so do what they are made of.
pub fn looks_compare_by_their_fields()
    ensures rgb { (a b : Rgb) → IsTrue (same_rgb a b) ↔ (a ≡ b) }
    ensures paint { (a b : Paint) → IsTrue (same_paint a b) ↔ (a ≡ b) }
    ensures pattern { (a b : Pattern) → IsTrue (same_pattern a b) ↔ (a ≡ b) }
    ensures inks { (a b : Inks) → IsTrue (same_inks a b) ↔ (a ≡ b) }
    ensures shape { (a b : Shape) → IsTrue (same_shape a b) ↔ (a ≡ b) }
    ensures part { (a b : Part) → IsTrue (same_part a b) ↔ (a ≡ b) }
    ensures look { (a b : Look) → IsTrue (same_look a b) ↔ (a ≡ b) }
{}

/// Two commands compare as equal exactly where they are the same, and so do items, what they are made
/// of, and reasons of lines.
pub fn commands_compare_by_their_fields()
    ensures c1_set { (a b : C1Set) → IsTrue (same_c1_set a b) ↔ (a ≡ b) }
    ensures way { (a b : Up) → IsTrue (same_way a b) ↔ (a ≡ b) }
    ensures form { (a b : Form) → IsTrue (same_form a b) ↔ (a ≡ b) }
    ensures command { (a b : Command) → IsTrue (same_command a b) ↔ (a ≡ b) }
    ensures reason { (a b : Reason) → IsTrue (same_reason a b) ↔ (a ≡ b) }
    ensures said { (a b : Said) → IsTrue (same_said a b) ↔ (a ≡ b) }
    ensures item { (a b : Item) → IsTrue (same_item a b) ↔ (a ≡ b) }
    ensures line_reason { (a b : LineReason) → IsTrue (same_line_reason a b) ↔ (a ≡ b) }
{}

/// Two strokes compare as equal exactly where they are the same.
pub fn strokes_compare_by_their_fields()
    ensures { (a b : Stroke) → IsTrue (same_stroke a b) ↔ (a ≡ b) }
{}

/// Out of memory is one value, and it compares as equal to itself.
pub fn out_of_memory_is_one()
    ensures { (a b : NoMemory) → IsTrue (same_no_memory a b) ↔ (a ≡ b) }
{}
