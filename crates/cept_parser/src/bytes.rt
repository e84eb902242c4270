ghost use Rattle.std.specs.Prelude.{◌≡◌, ◌≤◌, true};
ghost use Rattle.cept_parser.specs.Bytes.{is_plain, is_digit, digit, two_digits, is_row};

/// A plain byte: 2/0 to 7/15.
pub fn is_plain(byte: u8) -> bool
    ensures { result ≡ is_plain byte }
{
    0x20 <= byte && byte <= 0x7F
}

/// A digit: 3/0 to 3/9.
pub fn is_digit(byte: u8) -> bool
    ensures { result ≡ is_digit byte }
{
    0x30 <= byte && byte <= 0x39
}

/// The number of a digit.
pub fn digit(byte: u8) -> u8
    requires { 0x30 ≤ byte }
    ensures { result ≡ digit byte }
{
    byte - 0x30
}

/// The number of two digits.
pub fn two_digits(tens: u8, ones: u8) -> u8
    requires tens_digit { is_digit tens ≡ true }
    requires ones_digit { is_digit ones ≡ true }
    ensures { result ≡ two_digits tens ones }
{
    10 * digit(tens) + digit(ones)
}

/// A row: 4/1 to 5/8 for 1 to 24.
pub fn is_row(byte: u8) -> bool
    ensures { result ≡ is_row byte }
{
    0x41 <= byte && byte <= 0x58
}
