ghost use Rattle.std.specs.Prelude.{◌≡◌, ◌+◌, ◌≤◌, ◌++◌, length};
ghost use Rattle.arrayvec.specs.ArrayVec.{array_vec_len};

use arrayvec::ArrayVec;

/// The room for the bytes of a list of commands: 101 for each, which a pattern needs.
pub const ROOM: usize = 7272;

/// Bytes while they are made.
pub type Text = ArrayVec<u8, ROOM>;

/// Adds bytes.
pub fn add_bytes(text: &mut Text, bytes: &[u8])
    requires { array_vec_len text.old + length bytes.now ≤ 7272 }
    ensures text { text.new.items ≡ text.old.items ++ bytes.now }
    ensures len { array_vec_len text.new ≡ array_vec_len text.old + length bytes.now }
{
    text.try_extend_from_slice(bytes).unwrap();
}
