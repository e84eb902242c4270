//! Laws of reading a pattern one byte at a time.
ghost use Rattle.std.specs.Prelude.{◌≡◌, ◌↔◌, ℕ, true, false, not, List, [], ◌∷◌, ◌++◌, nat_lt};
ghost use Rattle.cept_codes.specs.Command.{IsValidForm};
ghost use Rattle.cept_codes.specs.Look.{IsValidPattern};
ghost use Rattle.cept_codes.specs.declared.command.Form.{Form};
ghost use Rattle.cept_drcs.specs.Loading.{Loading, Leads, fresh, takes, loading_after, loads, is_full};
ghost use Rattle.cept_drcs.specs.Loading.{all_lines};
ghost use Rattle.cept_drcs.specs.Unit.{is_pattern, pattern, pattern_grows, lines_from};
ghost use Rattle.cept_drcs.specs.Loading.{pattern_of};

/// Bytes that are taken one by one are exactly those of a pattern, and its lines are those that
/// they add.
pub fn bytes_one_by_one_give_the_pattern()
    // Of a form with a plane, bytes are a pattern's exactly where each of them is taken in turn.
    ensures unit { (f : Form) (a : ℕ) (u : List ℕ) → nat_lt 0 f.planes ≡ true
        → is_pattern f (a ∷ u) ≡ loads (fresh f) (a ∷ u) }
    ensures one { (l : Loading) (a : ℕ) → loads l (a ∷ []) ≡ takes l a }

    // A byte is taken exactly where those that led here and it are a pattern's. Then these lead on.
    ensures takes { (f : Form) (u : List ℕ) (l : Loading) (a : ℕ) → Leads f u l
        → takes l a ≡ is_pattern f (u ++ a ∷ []) }
    ensures leads { (f : Form) (u : List ℕ) (l : Loading) (a : ℕ) → Leads f u l
        → takes l a ≡ true → Leads f (u ++ a ∷ []) (loading_after l a) }
    ensures none { (f : Form) → IsValidForm f → Leads f [] (fresh f) }

    // The lines of all planes one after the other are the pattern of the bytes, which is valid.
    ensures pattern { (f : Form) (u : List ℕ) (l : Loading) → Leads f u l
        → pattern_of l.form (lines_from l.form.w 0 (all_lines l)) ≡ pattern f u }
    ensures valid { (f : Form) (u : List ℕ) (l : Loading) → Leads f u l
        → IsValidPattern (pattern f u) }
{}

/// A state is full exactly where no byte continues the bytes that led to it.
pub fn full_states_take_no_byte()
    ensures units { (f : Form) (u : List ℕ) (l : Loading) → Leads f u l
        → (is_full l ≡ true) ↔ ((a : ℕ) → is_pattern f (u ++ a ∷ []) ≡ false) }
    ensures grows { (f : Form) (a : ℕ) (u : List ℕ) (l : Loading) → Leads f (a ∷ u) l
        → is_full l ≡ not (pattern_grows f (a ∷ u)) }
{}
