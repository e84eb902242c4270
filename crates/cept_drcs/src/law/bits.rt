//! Laws of numbers in words.
ghost use Rattle.std.specs.Prelude.{◌≡◌, ◌<◌, ◌≤◌, ◌*◌, ◌/◌, ◌%◌, ◌^◌, ℕ};
ghost use Rattle.cept_codes.specs.Look.{bit_of};
ghost use Rattle.cept_drcs.specs.Strips.{words};

/// The bits of k words are those of their number below 64 k, and there are no others.
pub fn numbers_in_words()
    ensures bits { (k n j : ℕ) → j < 64 * k → bit_of (words k n) j ≡ n / 2 ^ j % 2 }
    ensures clear { (k n m j : ℕ) → n < 2 ^ m → m ≤ j → bit_of (words k n) j ≡ 0 }
{}
