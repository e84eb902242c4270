//! Laws of the seven-bit form. The functions do nothing: their contracts are the laws.

ghost use Rattle.std.specs.Prelude.{◌≡◌, ◌≤◌, ◌*◌, ◌++◌, ℕ, List, length};
ghost use Rattle.std.specs.List.{AllByRecursion};
ghost use Rattle.cept_parser.specs.Valid.{AreBytes};
ghost use Rattle.cept_seven.specs.Seven.{seven, unclosed};
ghost use Rattle.cept_seven.specs.Eight.{eight, accepted, AreAccepted};
ghost use Rattle.cept_seven.specs.Wide.{wide, says};

/// The seven-bit form of bytes has seven bits and comes back in eight, as bytes that say the same:
/// the same commands, and the same reasons of refusal.
pub fn seven_bits_say_the_same()
    ensures back { (b : List ℕ) → AreBytes b → eight (seven b) ≡ wide b }
    ensures same { (b : List ℕ) → says (wide b) ≡ says b }
    ensures says { (b : List ℕ) → AreBytes b → says (eight (seven b)) ≡ says b }
    ensures accepted { (b : List ℕ) → AreBytes b → AreAccepted (seven b) }
    ensures seven_bits { (b : List ℕ) → AreBytes b → AllByRecursion (λ a. a ≤ 0x7F) (seven b) }
    ensures length { (b : List ℕ) → length (seven b) ≤ 3 * length b }
{}

/// More bytes change nothing of what was made of those before them, but for the SI at the end.
pub fn forms_go_on()
    ensures seven { (b rest : List ℕ)
        → (others : List ℕ) × (seven (b ++ rest) ≡ unclosed b ++ others) }
    ensures eight { (s rest : List ℕ)
        → (others : List ℕ) × (eight (accepted (s ++ rest)) ≡ eight (accepted s) ++ others) }
    ensures accepted { (s rest : List ℕ) → AreAccepted (s ++ rest) → AreAccepted s }
{}
