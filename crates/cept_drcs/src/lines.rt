ghost use Rattle.std.specs.Prelude.{◌≡◌, ◌≤◌, ◌<◌, ◌+◌, ◌*◌};
ghost use Rattle.cept_drcs.specs.Block.{has_pixels};
ghost use Rattle.cept_drcs.specs.Adding.{is_sign};
ghost use Rattle.cept_drcs.specs.Cut.{is_opener};
ghost use Rattle.cept_drcs.specs.Kept.{IsPlaneOf};

use cept_codes::Form;

/// A byte that carries six pixels.
pub fn has_pixels(byte: u8) -> bool
    ensures { result ≡ has_pixels byte }
{
    0x40 <= byte && byte <= 0x7F
}

/// A sign of whole lines.
pub fn is_sign(byte: u8) -> bool
    ensures { result ≡ is_sign byte }
{
    0x20 <= byte && byte <= 0x2F && byte != 0x2B
}

/// A byte that opens a plane.
pub fn is_opener(byte: u8) -> bool
    ensures { result ≡ is_opener byte }
{
    0x30 <= byte && byte <= 0x33
}

/// The first line of a plane, counted over all planes.
pub fn first_line(form: &Form, plane: u8) -> u8
    requires { IsPlaneOf form.now plane }
    ensures first { result ≡ plane * form.now.h }
    ensures room { result + form.now.h ≤ 48 }
{
    plane * form.h
}
