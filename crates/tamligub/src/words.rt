//! The words of a call, and what they ask for. It takes no memory.
ghost use Rattle.std.specs.Prelude.{◌≡◌, ◌∷◌, ℕ, IfSome, decimal};
ghost use Rattle.std.specs.Option.{option_map};
ghost use Rattle.cept_run.specs.Words.{HasTwoNames, request_by, request_of};
ghost use Rattle.tamligub.specs.Words.{words_for, words_after};

use cept_run::run::{Request, request_with};
use itoa::Buffer;

/// The name that the page has on the shelf.
pub const PAGE: &str = "page";

/// The name that the script has.
pub const SCRIPT: &str = "script";

/// What a first word asks for with what is given after it, where these are a request. The number
/// stands here as its digits.
fn request_after<'a>(first: &str, given: u32, digits: &'a str) -> Option<Request<'a>>
    ensures request { (number : ℕ) → digits.now ≡ decimal number
        → option_map request_by result ≡ request_of (first.now ∷ words_after given number) }
    ensures differ { IfSome result (λ request. HasTwoNames (request_by request)) }
{
    let names = [PAGE, SCRIPT];
    let numbered = [PAGE, digits];
    match given {
        1 => request_with(first, &names[..1]),
        2 => request_with(first, &names),
        3 => request_with(first, &numbered[1..]),
        4 => request_with(first, &numbered),
        _ => request_with(first, &names[..0]),
    }
}

/// What the words of a call ask for, where they are a request: none is where the first isn't UTF-8.
pub fn request_for<'a>(
    word: &[u8],
    given: u32,
    number: u32,
    buffer: &'a mut Buffer,
) -> Option<Request<'a>>
    ensures request { option_map request_by result
        ≡ request_of (words_for word.now given number) }
    ensures differ { IfSome result (λ request. HasTwoNames (request_by request)) }
{
    let Ok(first) = str::from_utf8(word) else {
        return None;
    };
    request_after(first, given, buffer.format(number))
}
