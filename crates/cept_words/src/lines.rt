ghost use Rattle.std.specs.Prelude.{◌<◌, length};
ghost use Rattle.cept_words.specs.Cut.{IsFirstLine};

use crate::cutting::cut;

/// The byte that ends a line: 0/10 (this profile's own).
pub const LINE_END: u8 = 0x0A;

/// The first line of bytes, without the byte that ends it, and the bytes after that. Where none ends
/// it all of them are the line.
pub fn first_line(bytes: &[u8]) -> (&[u8], &[u8])
    requires { 0 < length bytes.now }
    ensures { IsFirstLine bytes.now result.0.now result.1.now }
{
    let (line, rest) = cut(bytes, LINE_END);
    match rest {
        None => (line, &[]),
        Some(rest) => (line, rest),
    }
}
