//! Laws of the sets: functions that do nothing, and whose clauses say what holds of the words that
//! clauses use.
ghost use Rattle.std.specs.Prelude.{◌≡◌, ℕ, ◌≤◌, ◌<◌, ◌==◌, Bool, true, false, Some, None, if◌then◌else◌};
ghost use Rattle.cept_codes.specs.declared.glyph.SetId.{SetId};
ghost use Rattle.cept_codes.specs.Command.{IsGraphic};
ghost use Rattle.cept_profile.specs.Sets.{IsValidRead, Sets, code_of, sets_with};
ghost use Rattle.cept_profile.specs.Sets.{initial_sets, read_as, set_in, set_of, sign};
ghost use Rattle.cept_profile.specs.Valid.{AreValidSets};

use cept_codes::{Read, SetId};

/// While a single shift waits, a byte is of the set that the shift names, in a mosaic run too. Once
/// it is spent, bytes are read as though no shift had come.
#[tactic(auto, unfolding(cept_profile::specs::Sets::set_of))]
pub fn single_shifts_are_spent()
    ensures named { (s : Sets) (g byte : ℕ) (run : Bool)
        → set_of (record s { single = Some g }) byte run ≡ set_in s g }
    ensures after { (s : Sets) (g byte : ℕ) (run : Bool) → s.single ≡ None
        → set_of (record (record s { single = Some g }) { single = None }) byte run ≡ set_of s byte run }
{}

/// Designating a set leaves the others, and the shifts.
pub fn designating_leaves_the_other_sets()
    ensures sets { (s : Sets) (g h : ℕ) (set : SetId) → g ≤ 3 → h ≤ 3
        → set_in (sets_with s g set) h ≡ (if h == g then set else set_in s h) }
    ensures left { (s : Sets) (g : ℕ) (set : SetId) → (sets_with s g set).left ≡ s.left }
    ensures right { (s : Sets) (g : ℕ) (set : SetId) → (sets_with s g set).right ≡ s.right }
    ensures single { (s : Sets) (g : ℕ) (set : SetId) → (sets_with s g set).single ≡ s.single }
{}

/// A mosaic run takes the left bytes alone.
#[tactic(auto, unfolding(cept_profile::specs::Sets::set_of))]
pub fn runs_take_left_bytes()
    ensures left { (s : Sets) (byte : ℕ) → s.single ≡ None → byte < 0x80
        → set_of s byte true ≡ SetId.M }
    ensures right { (s : Sets) (byte : ℕ) (run : Bool) → 0x80 ≤ byte
        → set_of s byte run ≡ set_of s byte false }
{}

/// Each word of the sets keeps them valid, and a graphic byte gives a valid sign or an accent. Code
/// 2/0 of each set is the space of P.
#[tactic(auto, using(cept_profile::proofs::Laws::readings), unfolding(cept_profile::specs::Sets::read_as))]
pub fn sets_stay_valid()
    ensures initial { AreValidSets initial_sets }
    ensures designated { (s : Sets) (g : ℕ) (set : SetId) → AreValidSets s
        → AreValidSets (sets_with s g set) }
    ensures locked_left { (s : Sets) (g : ℕ) → g ≤ 3 → AreValidSets s
        → AreValidSets (record s { left = g }) }
    ensures locked_right { (s : Sets) (g : ℕ) → 1 ≤ g → g ≤ 3 → AreValidSets s
        → AreValidSets (record s { right = g }) }
    ensures shifted { (s : Sets) (g : ℕ) → 2 ≤ g → g ≤ 3 → AreValidSets s
        → AreValidSets (record s { single = Some g }) }
    ensures spent { (s : Sets) → AreValidSets s → AreValidSets (record s { single = None }) }
    ensures read { (s : Sets) (byte : ℕ) (run : Bool) → IsGraphic byte
        → IsValidRead (read_as (set_of s byte run) (code_of byte)) }
    ensures space { (set : SetId) → read_as set 0x20 ≡ Read.Glyph (sign SetId.P 0x20) }
{}
