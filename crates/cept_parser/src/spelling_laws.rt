//! Laws of the spelling of commands, and of reading in parts. The functions do nothing: their
//! contracts are the laws.

ghost use Rattle.std.specs.Prelude.{◌≡◌, ◌⊎◌, ◌+◌, ◌<◌, ◌≤◌, ℕ, Some, List, [], ◌∷◌, ◌++◌, length, map, true};
ghost use Rattle.std.specs.Prelude.{false};
ghost use Rattle.std.specs.List.{AllByRecursion, flat_map, range_with_len};
ghost use Rattle.cept_codes.specs.declared.command.Command.{Command};
ghost use Rattle.cept_codes.specs.declared.item.Said.TheVariants as said;
ghost use Rattle.cept_parser.specs.declared.context.Context.{Context};
ghost use Rattle.cept_parser.specs.declared.context.Outcome.{Outcome};
ghost use Rattle.cept_parser.specs.declared.context.Mode.TheVariants as mode;
ghost use Rattle.cept_parser.specs.Bytes.{is_plain};
ghost use Rattle.cept_parser.specs.Context.{start_context, with_mode};
ghost use Rattle.cept_parser.specs.Grammar.{unit, fits, grows};
ghost use Rattle.cept_parser.specs.Items.{is_refusal, reading_at, reading_with_items, closed_items};
ghost use Rattle.cept_parser.specs.Items.{commands};
ghost use Rattle.cept_parser.specs.ReadsAs.{said_from, begins_anew, all_said, Reads};
ghost use Rattle.cept_parser.specs.Valid.{AreBytes};
ghost use Rattle.cept_parser.specs.Spelling.{spelling, context_after, IsSpelled, may_grow, spellings};
ghost use Rattle.cept_parser.specs.Spelling.{context_after_all, AreSpelled, AreTextual};

/// A whole unit before a byte that doesn't fit after it reads as that unit, and the rest is read
/// after it. So does a whole unit at the end of the input.
pub fn unit_before_misfit()
    ensures unit { (x : Context) (at c : ℕ) (u s : List ℕ) (o : Outcome) → unit x u ≡ Some o
        → fits x (u ++ c ∷ []) ≡ false → reading_at x at (u ++ c ∷ s)
        ≡ reading_with_items (record {
          at = at;
          len = length u;
          what = o.said;
        } ∷ []) (reading_at o.next (at + length u) (c ∷ s)) }

    // No breaker fits after a byte.
    ensures breaker { (x : Context) (a c : ℕ) (u : List ℕ) → is_plain c ≡ false
        → fits x (a ∷ u ++ c ∷ []) ≡ false }

    // To the end of the input.
    ensures said { (x : Context) (at c : ℕ) (u s : List ℕ) (o : Outcome) → unit x u ≡ Some o
        → fits x (u ++ c ∷ []) ≡ false → said_from x at (u ++ c ∷ s)
        ≡ o.said ∷ said_from o.next (at + length u) (c ∷ s) }
    ensures last { (x : Context) (at : ℕ) (u : List ℕ) (o : Outcome) → unit x u ≡ Some o
        → said_from x at u ≡ o.said ∷ [] }
{}

/// Each spelling is a whole unit that says its command, and grows only where it is a header of
/// colours.
pub fn spellings_are_units()
    ensures is { (x : Context) (command : Command) → IsSpelled x command
        → unit x (spelling command) ≡ Some (record {
          said = said.Command command;
          next = context_after x command;
        }) }
    ensures grows { (x : Context) (command : Command) → IsSpelled x command
        → grows x (spelling command) ≡ may_grow command }

    // It has a byte, and all that it has are bytes.
    ensures some { (x : Context) (command : Command) → IsSpelled x command
        → 1 ≤ length (spelling command) }
    ensures bytes { (x : Context) (cs : List Command) → AreSpelled x cs
        → AreBytes (spellings cs) }
{}

/// Reading in parts: what bytes read as doesn't depend on what follows them.
pub fn reading_in_parts()
    ensures nothing { (x : Context) → Reads x [] [] x }
    ensures joined { (x y z : Context) (a b : List ℕ) (cs ds : List Command) → Reads x a cs y
        → Reads y b ds z → Reads x (a ++ b) (cs ++ ds) z }

    // One command before others.
    ensures before { (x z : Context) (c : Command) (b : List ℕ) (ds : List Command)
        → IsSpelled x c → (may_grow c ≡ false) ⊎ (begins_anew b ≡ true)
        → Reads (context_after x c) b ds z → Reads x (spelling c ++ b) (c ∷ ds) z }
    ensures list { (x : Context) (cs : List Command) → AreSpelled x cs
        → Reads x (spellings cs) cs (context_after_all x cs) }
{}

/// Bytes that read from the start as commands say these and nothing else: none of them is
/// refused.
pub fn no_refusal()
    ensures said { (a : List ℕ) (cs : List Command) (y : Context) → Reads start_context a cs y
        → map (λ i. i.what) (closed_items a) ≡ all_said cs }
    ensures none { (a : List ℕ) (cs : List Command) (y : Context) → Reads start_context a cs y
        → AllByRecursion (λ i. is_refusal i.what ≡ false) (closed_items a) }
    ensures commands { (a : List ℕ) (cs : List Command) (y : Context) → Reads start_context a cs y
        → commands a ≡ cs }
{}

/// Lists of commands in two parts.
pub fn spellings_join()
    ensures bytes { (a b : List Command) → spellings (a ++ b) ≡ spellings a ++ spellings b }
    ensures contexts { (x : Context) (a b : List Command) → context_after_all x (a ++ b)
        ≡ context_after_all (context_after_all x a) b }
    ensures spelled { (x : Context) (a b : List Command) → AreSpelled x a
        → AreSpelled (context_after_all x a) b → AreSpelled x (a ++ b) }
{}

/// Commands of cells, rows and the screen stand in mode Text, or in any where they begin with a
/// breaker, and leave mode Text.
pub fn textual_commands_are_spelled()
    ensures spelled { (x : Context) (cs : List Command) → AreTextual cs
        → (x.mode ≡ mode.Text) ⊎ (begins_anew (spellings cs) ≡ true) → AreSpelled x cs }
    ensures context { (x : Context) (cs : List Command) → AreTextual cs
        → (x.mode ≡ mode.Text) ⊎ (begins_anew (spellings cs) ≡ true)
        → context_after_all x cs ≡ with_mode x mode.Text }

    // Lists in two parts, and made of a list for each number.
    ensures joined { (a b : List Command) → AreTextual a → AreTextual b → AreTextual (a ++ b) }
    ensures each { (f : ℕ → List Command) (from n : ℕ)
        → ((i : ℕ) → from ≤ i → i < from + n → AreTextual (f i))
        → AreTextual (flat_map f (range_with_len from n)) }
{}
