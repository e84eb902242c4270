ghost use Rattle.std.specs.Prelude.{◌≡◌, ◌<◌, Some, None, IfSome, if◌then◌else◌};
ghost use Rattle.cept_parser.specs.Bytes.{is_digit, digit};
ghost use Rattle.cept_words.specs.Lines.{number};

/// The value of a digit.
fn digit(byte: u8) -> Option<u8>
    ensures value { result ≡ (if is_digit byte then Some (digit byte) else None) }
    ensures few { IfSome result (λ n. n < 10) }
{
    if b'0' <= byte && byte <= b'9' {
        Some(byte - b'0')
    } else {
        None
    }
}

/// The number of a word of one or two digits, tens first: 0 to 99 (this profile's own).
pub fn number(word: &[u8]) -> Option<u8>
    ensures { result ≡ number word.now }
{
    match *word {
        [units] => digit(units),
        [tens, units] => match (digit(tens), digit(units)) {
            (Some(tens), Some(units)) => Some(10 * tens + units),
            _ => None,
        },
        _ => None,
    }
}
