//! Laws of the grammar and of reading. The functions do nothing: their contracts are the laws.

ghost use Rattle.std.specs.Prelude.{◌≡◌, ◌≤◌, ◌+◌, ◌↔◌, ℕ, Some, None, List, [], ◌∷◌, ◌++◌};
ghost use Rattle.std.specs.Prelude.{length, true};
ghost use Rattle.std.specs.Prelude.{false};
ghost use Rattle.cept_codes.specs.Command.{IsValidSaid};
ghost use Rattle.cept_parser.specs.declared.context.Context.{Context};
ghost use Rattle.cept_parser.specs.declared.context.Outcome.{Outcome};
ghost use Rattle.cept_parser.specs.declared.context.Mode.TheVariants as mode;
ghost use Rattle.cept_parser.specs.Bytes.{is_plain};
ghost use Rattle.cept_parser.specs.Context.{start_context};
ghost use Rattle.cept_parser.specs.Grammar.{unit, fits, grows};
ghost use Rattle.cept_parser.specs.Items.{is_refusal, reading_at, items, reading};
ghost use Rattle.cept_parser.specs.Items.{reading_with_items};
ghost use Rattle.cept_parser.specs.Beginning.{IsBeginning, IsContinued, IsCommandUnit};
ghost use Rattle.cept_parser.specs.Valid.{IsValidContext, AreBytes};

/// What fits is exactly the beginning of a whole unit or refused shape, and a whole unit grows
/// exactly where a byte fits after it.
pub fn beginnings()
    ensures fits { (x : Context) (u : List ℕ) → (fits x u ≡ true) ↔ IsBeginning x u }
    ensures grows { (x : Context) (u : List ℕ) (o : Outcome) → unit x u ≡ Some o
        → (grows x u ≡ true) ↔ IsContinued x u }
{}

/// What a byte does after bytes.
pub fn further_bytes()
    // Every single byte fits.
    ensures single { (x : Context) (c : ℕ) → fits x (c ∷ []) ≡ true }

    // What fits with a byte more fits.
    ensures shorter { (x : Context) (u : List ℕ) (c : ℕ) → fits x (u ++ c ∷ []) ≡ true
        → fits x u ≡ true }

    // A byte that fits after a unit makes a unit again.
    ensures again { (x : Context) (u : List ℕ) (o : Outcome) (c : ℕ) → unit x u ≡ Some o
        → fits x (u ++ c ∷ []) ≡ true → IsCommandUnit x (u ++ c ∷ []) }

    // Every plain byte fits after bytes that fit and are no whole unit or refused shape.
    ensures plain { (x : Context) (u : List ℕ) (c : ℕ) → is_plain c ≡ true → fits x u ≡ true
        → unit x u ≡ None → fits x (u ++ c ∷ []) ≡ true }

    // No byte fits after a refused shape.
    ensures refused { (x : Context) (u : List ℕ) (o : Outcome) (c : ℕ) → unit x u ≡ Some o
        → is_refusal o.said ≡ true → fits x (u ++ c ∷ []) ≡ false }
{}

/// What fits has few bytes.
pub fn lengths()
    ensures fits { (x : Context) (u : List ℕ) → IsValidContext x → fits x u ≡ true
        → length u ≤ 100 }
    ensures incomplete { (x : Context) (u : List ℕ) → fits x u ≡ true → unit x u ≡ None
        → length u ≤ 10 }
    ensures refused { (x : Context) (u : List ℕ) (o : Outcome) → unit x u ≡ Some o
        → is_refusal o.said ≡ true → length u ≤ 10 }
{}

/// Every unit says a valid command, and no unit, refused shape or interruption leads out of the
/// valid contexts.
pub fn contexts()
    ensures start { IsValidContext start_context }
    ensures said { (x : Context) (u : List ℕ) (o : Outcome) → IsValidContext x → AreBytes u
        → unit x u ≡ Some o → IsValidSaid o.said }
    ensures next { (x : Context) (u : List ℕ) (o : Outcome) → IsValidContext x → AreBytes u
        → unit x u ≡ Some o → IsValidContext o.next }
    ensures reading { (x : Context) (at : ℕ) (b : List ℕ) → IsValidContext x → AreBytes b
        → IsValidContext (reading_at x at b).context }

    // In numbers: a run of colours is at 0 to 32 of the table or 0 to 4 of the DCLUT, one of
    // patterns at 2/1 to 7/15.
    ensures table_run { (x : Context) (i : ℕ) → IsValidContext x → x.mode ≡ mode.TableRun i
        → i ≤ 32 }
    ensures dclut_run { (x : Context) (i : ℕ) → IsValidContext x → x.mode ≡ mode.DclutRun i
        → i ≤ 4 }
    ensures drcs_run { (x : Context) (c : ℕ) → IsValidContext x → x.mode ≡ mode.DrcsRun c
        → (0x21 ≤ c) × (c ≤ 0x7F) }
{}

/// Reading goes on from what is pending: bytes in two parts read as the first part, and then as
/// what it left pending with the second part.
pub fn reading_goes_on()
    ensures parts { (x : Context) (at : ℕ) (b s : List ℕ) → let r = reading_at x at b in
        reading_at x at (b ++ s)
        ≡ reading_with_items r.items (reading_at r.context r.at (r.pending ++ s)) }
    ensures bytes { (b s : List ℕ) → let r = reading b in
        items (b ++ s) ≡ r.items ++ (reading_at r.context r.at (r.pending ++ s)).items }
{}

/// A whole unit that nothing continues, followed by anything, reads as that unit and then the rest.
pub fn unit_then_rest()
    ensures { (x : Context) (at : ℕ) (u s : List ℕ) (o : Outcome) → unit x u ≡ Some o
        → grows x u ≡ false → reading_at x at (u ++ s)
        ≡ reading_with_items (record {
          at = at;
          len = length u;
          what = o.said;
        } ∷ []) (reading_at o.next (at + length u) s) }
{}
