ghost use Rattle.std.specs.Prelude.{◌≡◌, ◌||◌, ◌<◌, ◌^◌, length, true, is_some, IsSome};
ghost use Rattle.std.specs.List.{list_any};
ghost use Rattle.cept_parser.specs.Items.{closed_items, is_refusal};
ghost use Rattle.hex.specs.Hex.{hex_digit_value};
ghost use Rattle.cept_editor.specs.Meaning.{byte_of, hex_bytes};
ghost use Rattle.cept_editor.specs.Order.{raw_bytes, AreSoundDigits};

use cept_codes::{Item, Said};
use cept_parser::Parser;

/// The byte of two hexadecimal digits of either case.
pub(crate) fn byte_of(high: u8, low: u8) -> Option<u8>
    ensures { result ≡ byte_of (hex_digit_value high) (hex_digit_value low) }
{
    let mut byte = [0u8; 1];
    match hex::decode_to_slice([high, low], &mut byte) {
        Ok(()) => Some(byte[0]),
        Err(_) => None,
    }
}

/// Whether these are pairs of hexadecimal digits.
pub(crate) fn are_digits(digits: &[u8]) -> bool
    ensures { result ≡ is_some (hex_bytes digits.now) }
{
    let mut left = digits;
    while let [high, low, more @ ..] = left {
        let Some(_) = byte_of(*high, *low) else {
            return false;
        };
        left = more;
    }
    left.is_empty()
}

/// Whether an item is refused.
fn is_refused(item: &Item) -> bool
    ensures { result ≡ is_refusal item.now.what }
{
    match item.what {
        Said::Command(_) => false,
        Said::Refused(_) => true,
    }
}

/// Whether one of the items is refused.
fn any_refused(items: &[Item]) -> bool
    ensures { result ≡ list_any (λ i. is_refusal i.what) items.now }
{
    let mut left = items;
    while let [item, more @ ..] = left {
        if is_refused(item) {
            return true;
        }
        left = more;
    }
    false
}

/// Whether an item was refused, or one of these is.
fn or_refused(refused: bool, items: &[Item]) -> bool
    ensures { result ≡ (refused || list_any (λ i. is_refusal i.what) items.now) }
{
    if refused { true } else { any_refused(items) }
}

/// Whether an item of the bytes of these digits is refused.
pub(crate) fn has_refusal(digits: &[u8]) -> bool
    requires few { length digits.now < 2 ^ 31 }
    requires readable { IsSome (hex_bytes digits.now) }
    ensures refused { result
        ≡ list_any (λ i. is_refusal i.what) (closed_items (raw_bytes digits.now)) }
    ensures sound { AreSoundDigits digits.now }
{
    let mut parser = Parser::new();
    let mut refused = false;
    let mut left = digits;
    while let [high, low, more @ ..] = left {
        let Some(byte) = byte_of(*high, *low) else {
            unreachable!()
        };
        let items = parser.push(byte);
        refused = or_refused(refused, items.as_slice());
        left = more;
    }
    let items = parser.finish();
    or_refused(refused, items.as_slice())
}
