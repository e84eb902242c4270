//! Laws of lists that are made of a function of an index and read by that index, which starts at
//! any number.
ghost use Rattle.std.specs.Prelude.{◌≡◌, ℕ, ◌+◌, ◌-◌, ◌<◌, ◌≤◌, ◌==◌, if◌then◌else◌};
ghost use Rattle.std.specs.Prelude.{List, [], ◌∷◌, ◌++◌, length, slice_index_or, slice_set};
ghost use Rattle.cept_codes.specs.Table.{list_by_index, entry, HasMadeEntries};

/// A list is what it shows at each index: it has as many entries as it is made with, reading the
/// list of a function gives the function, and below the first index and past the end the default.
/// Lists that agree at each index are the same, each is the list of what is read in it, and writing an entry changes that
/// one alone.
pub fn lists_are_by_index<X>()
    ensures count { (from count : ℕ) (f : ℕ → X) → length (list_by_index from count f) ≡ count }
    ensures read { (d : X) (from count : ℕ) (f : ℕ → X) (k : ℕ) → from ≤ k → k < from + count
        → entry d from (list_by_index from count f) k ≡ f k }
    ensures at { (d : X) (from : ℕ) (list : List X) (k : ℕ) → from ≤ k
        → entry d from list k ≡ slice_index_or list (k - from) d }
    ensures below { (d : X) (from : ℕ) (list : List X) (k : ℕ) → k < from
        → entry d from list k ≡ d }
    ensures past { (d : X) (from : ℕ) (list : List X) (k : ℕ) → from + length list ≤ k
        → entry d from list k ≡ d }
    ensures same { (d : X) (from : ℕ) (list other : List X) → length list ≡ length other
        → ((k : ℕ) → from ≤ k → k < from + length list
        → entry d from list k ≡ entry d from other k) → list ≡ other }
    ensures back { (d : X) (from count : ℕ) (list : List X) → length list ≡ count
        → list_by_index from count (entry d from list) ≡ list }
    ensures alike { (from count : ℕ) (f g : ℕ → X)
        → ((k : ℕ) → from ≤ k → k < from + count → f k ≡ g k)
        → list_by_index from count f ≡ list_by_index from count g }
    ensures written { (d x : X) (from count i k : ℕ) (list : List X) → length list ≡ count
        → i < count → from + i ≡ k
        → slice_set list i x ≡ list_by_index from count (λ j. if k == j then x
        else entry d from list j) }
{}

/// A list that a loop makes: by adding one entry after the other, or by replacing one after the
/// other in a list that stands.
pub fn lists_are_made_in_turn<X>()
    ensures empty { (from : ℕ) (f : ℕ → X) → list_by_index from 0 f ≡ [] }
    ensures added { (from n k : ℕ) (f : ℕ → X) → from + n ≡ k
        → list_by_index from n f ++ f k ∷ [] ≡ list_by_index from (n + 1) f }
    ensures none { (d : X) (from count : ℕ) (f : ℕ → X) (list : List X) → length list ≡ count
        → HasMadeEntries d from count f (entry d from list) list 0 }
    ensures more { (d x : X) (from count : ℕ) (f g : ℕ → X) (list : List X) (n i k : ℕ)
        → HasMadeEntries d from count f g list n → n < count → i ≡ n → from + n ≡ k → x ≡ f k
        → HasMadeEntries d from count f g (slice_set list i x) (n + 1) }
    ensures all { (d : X) (from count : ℕ) (f g : ℕ → X) (list : List X) (n : ℕ)
        → HasMadeEntries d from count f g list n → count ≤ n → list ≡ list_by_index from count f }
{}
