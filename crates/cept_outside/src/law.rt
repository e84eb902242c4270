//! Laws of texts in parts: what is put part by part is put as a whole, and so is what is taken.
ghost use Rattle.std.specs.Prelude.{◌≡◌, ℕ, ◌+◌, List, [], ◌++◌, take, drop, length, Option, Some};
ghost use Rattle.std.specs.Io.KnownBytes.{append_known, prepend_known};
ghost use Rattle.cept_outside.specs.SinkState.{SinkState, Gains, HasPut, GainsPart, count_after};

/// Two texts put one after the other are their joined text put, and no text changes nothing. The
/// same holds of some text put, whichever, and of the bytes and their count alone, told or not.
pub fn texts_are_put_in_parts()
    ensures nothing { (s : SinkState) → Gains s [] s }
    ensures parts { (a b c : SinkState) (xs ys : List ℕ) → Gains a xs b → Gains b ys c
        → Gains a (xs ++ ys) c }
    ensures put_nothing { (s : SinkState) → HasPut s s }
    ensures put_more { (a b c : SinkState) → HasPut a b → HasPut b c → HasPut a c }
    ensures put_part { (a b : SinkState) (text : List ℕ) → GainsPart a text b → HasPut a b }
    ensures no_bytes { (known : Option (List ℕ)) → known ≡ append_known known [] }
    ensures bytes { (known : Option (List ℕ)) (xs ys : List ℕ)
        → append_known (append_known known xs) ys ≡ append_known known (xs ++ ys) }
    ensures no_count { (count : Option ℕ) → count ≡ count_after count 0 }
    ensures count { (count : Option ℕ) (a b : ℕ)
        → count_after (count_after count a) b ≡ count_after count (a + b) }
{}

/// A take of n bytes from a told file at a place moves the n bytes there, and the rest of the file
/// is left. Where nothing is left, the whole file was taken.
pub fn files_are_taken_in_parts()
    ensures left { (whole front : List ℕ) (place n : ℕ) (old new : Option (List ℕ))
        → length front ≡ n
        → old ≡ prepend_known front new → old ≡ Some (drop place whole)
        → (new ≡ Some (drop (place + n) whole)) × (front ≡ take n (drop place whole)) }
    ensures all { (whole : List ℕ) (place : ℕ) → drop place whole ≡ [] → take place whole ≡ whole }
{}
