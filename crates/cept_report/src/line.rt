ghost use Rattle.std.specs.Prelude.{◌≡◌, ◌+◌, ◌≤◌, ◌<◌, ◌∷◌, [], ◌++◌, length, decimal};
ghost use Rattle.arrayvec.specs.ArrayVec.{array_vec_len};
ghost use Rattle.cept_report.specs.Room.{Adds, HasRoomFor};
ghost use Rattle.cept_report.specs.Text.{hex_digit, hex_byte, hex_word};

use arrayvec::ArrayVec;
use itoa::Buffer;

/// The room of a line, or of several that are gathered. The longest line has 249 bytes, a change
/// line of twenty digits, a place of two and two, and a pattern with nine words and sixteen inks: one
/// with a pattern is put in two parts.
// So much is made ready without a call.
pub const ROOM: usize = 248;

/// A line while it is made, or several.
pub type Line = ArrayVec<u8, ROOM>;

/// The hexadecimal digits, in upper case.
const HEX_DIGITS: [u8; 16] = [
    b'0', b'1', b'2', b'3', b'4', b'5', b'6', b'7', b'8', b'9', b'A', b'B', b'C', b'D', b'E', b'F',
];

/// Adds one byte.
pub fn add_byte(line: &mut Line, byte: u8)
    requires { array_vec_len line.old < 248 }
    ensures text { line.new.items ≡ line.old.items ++ byte ∷ [] }
    ensures len { array_vec_len line.new ≡ array_vec_len line.old + 1 }
{
    line.push(byte);
}

/// Adds a text.
pub fn add_text(line: &mut Line, text: &[u8])
    requires { array_vec_len line.old + length text.now ≤ 248 }
    ensures text { line.new.items ≡ line.old.items ++ text.now }
    ensures len { array_vec_len line.new ≡ array_vec_len line.old + length text.now }
{
    line.try_extend_from_slice(text).unwrap();
}

/// Adds a number in decimal digits.
pub fn add_number(line: &mut Line, number: u64)
    requires { HasRoomFor 20 line.old }
    ensures { Adds line.old 20 (decimal number) line.new }
{
    let mut buffer = Buffer::new();
    add_text(line, buffer.format(number).as_bytes());
}

/// Adds a number below 100 in decimal digits.
#[tactic(auto, using(crate::proofs::Digits::decimal_digits))]
pub fn add_small(line: &mut Line, number: u8)
    requires small { number < 100 }
    requires room { HasRoomFor 2 line.old }
    ensures text { line.new.items ≡ line.old.items ++ decimal number }
    ensures len { array_vec_len line.new ≤ array_vec_len line.old + 2 }
    ensures digit { number < 10 → array_vec_len line.new ≤ array_vec_len line.old + 1 }
{
    if number < 10 {
        add_byte(line, b'0' + number);
    } else {
        add_byte(line, b'0' + number / 10);
        add_byte(line, b'0' + number % 10);
    }
}

/// The hexadecimal digit of a number below 16, in upper case.
pub fn hex_digit(number: u8) -> u8
    requires { number < 16 }
    ensures { result ≡ hex_digit number }
{
    HEX_DIGITS[usize::from(number)]
}

/// Adds a byte as two hexadecimal digits.
pub fn add_hex_byte(line: &mut Line, byte: u8)
    requires { HasRoomFor 2 line.old }
    ensures text { line.new.items ≡ line.old.items ++ hex_byte byte }
    ensures len { array_vec_len line.new ≡ array_vec_len line.old + 2 }
{
    add_byte(line, hex_digit(byte / 16));
    add_byte(line, hex_digit(byte % 16));
}

/// Adds a word as sixteen hexadecimal digits.
pub fn add_hex_word(line: &mut Line, word: u64)
    requires { HasRoomFor 16 line.old }
    ensures text { line.new.items ≡ line.old.items ++ hex_word word }
    ensures len { array_vec_len line.new ≡ array_vec_len line.old + 16 }
{
    for byte in &word.to_be_bytes() {
        add_hex_byte(line, *byte);
    }
}
