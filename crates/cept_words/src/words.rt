ghost use Rattle.std.specs.Prelude.{◌≡◌, ◌∷◌, None, IfSome};
ghost use Rattle.cept_words.specs.Cut.{IsCut};
ghost use Rattle.cept_words.specs.Lines.{words};
ghost use Rattle.cept_words.specs.Words.{words_after, bytes_after, first_words};
ghost use Rattle.cept_words.specs.Words.{IsOneWord, AreTwoWords, AreFourWords};

use crate::cutting::cut;

/// The byte between words: 2/0 (this profile's own).
const SPACE: u8 = 0x20;

/// The first word of a line, and what stands after it and one space, if a space does. Two spaces
/// have an empty word between them.
pub fn first_word(line: &[u8]) -> (&[u8], Option<&[u8]>)
    ensures words { words line.now ≡ result.0.now ∷ words_after result.1 }
    ensures places { IsCut line.now result.0.now result.1 }
{
    cut(line, SPACE)
}

/// The first word of what stands after a word, and what stands after that.
pub fn next_word(rest: Option<&[u8]>) -> Option<(&[u8], Option<&[u8]>)>
    ensures words { words_after rest.entry ≡ first_words result }
    ensures alone { IfSome result (λ parts. parts.1 ≡ None
        → parts.0.now ≡ bytes_after rest.entry) }
{
    Some(first_word(rest?))
}

/// The one word that stands after a word.
pub fn one_word(rest: Option<&[u8]>) -> Option<&[u8]>
    ensures words { IsOneWord (words_after rest.entry) result }
    ensures whole { IfSome result (λ word. word.now ≡ bytes_after rest.entry) }
{
    let (word, more) = next_word(rest)?;
    match more {
        None => Some(word),
        Some(_) => None,
    }
}

/// The two words that stand after a word.
pub fn two_words(rest: Option<&[u8]>) -> Option<(&[u8], &[u8])>
    ensures { AreTwoWords (words_after rest.entry) result }
{
    let (first, rest) = next_word(rest)?;
    let second = one_word(rest)?;
    Some((first, second))
}

/// The four words that stand after a word.
pub fn four_words(rest: Option<&[u8]>) -> Option<(&[u8], &[u8], &[u8], &[u8])>
    ensures { AreFourWords (words_after rest.entry) result }
{
    let (first, rest) = next_word(rest)?;
    let (second, rest) = next_word(rest)?;
    let (third, fourth) = two_words(rest)?;
    Some((first, second, third, fourth))
}
