//! Laws of tables of the screen: 24 rows of 40.
ghost use Rattle.std.specs.Prelude.{◌≡◌, ℕ, ◌+◌, ◌-◌, ◌<◌, ◌≤◌, ◌&&◌, ◌==◌, if◌then◌else◌};
ghost use Rattle.std.specs.Prelude.{List, [], length, slice_index_or, slice_set};
ghost use Rattle.cept_codes.specs.Place.{OnScreen};
ghost use Rattle.cept_codes.specs.Table.{list_by_index, entry, row_of, table, value_at, IsTable};
ghost use Rattle.cept_codes.specs.Table.{HasMadeRows};

/// A table is what it shows at each place: reading the table of a function gives the function,
/// functions that agree at each place make one table, tables that agree at each place are the same,
/// each is the table of what is read in it, and writing into a row changes one place alone.
pub fn tables_are_by_place<X>()
    ensures read { (f : ℕ → ℕ → X) (d : X) (r c : ℕ) → OnScreen r c
        → value_at d (table f) r c ≡ f r c }
    ensures whole { (f : ℕ → ℕ → X) → IsTable (table f) }
    ensures alike { (f g : ℕ → ℕ → X) → ((r c : ℕ) → OnScreen r c → f r c ≡ g r c)
        → table f ≡ table g }
    ensures same { (t u : List (List X)) (d : X) → IsTable t → IsTable u
        → ((r c : ℕ) → OnScreen r c → value_at d t r c ≡ value_at d u r c) → t ≡ u }
    ensures back { (t : List (List X)) (d : X) → IsTable t → table (value_at d t) ≡ t }
    ensures written { (t : List (List X)) (d x : X) (r c : ℕ) → IsTable t → OnScreen r c
        → slice_set t (r - 1) (slice_set (slice_index_or t (r - 1) []) (c - 1) x)
        ≡ table (λ q k. if r == q && c == k then x else value_at d t q k) }
    ensures written_by_index { (t : List (List X)) (d x : X) (i j r c : ℕ) (row e : List X)
        → IsTable t → OnScreen r c
        → i + 1 ≡ r → j + 1 ≡ c → row ≡ slice_index_or t i e
        → slice_set t i (slice_set row j x)
        ≡ table (λ q k. if r == q && c == k then x else value_at d t q k) }
{}

/// A table is the list of its rows, by the number of each from 1: reading the table of a function
/// gives the rows of the function, 24 such rows are its table, and replacing one changes what is
/// read in that row alone.
pub fn tables_are_by_row<X>()
    ensures row { (f : ℕ → X) → row_of f ≡ list_by_index 1 40 f }
    ensures rows { (f : ℕ → ℕ → X) → table f ≡ list_by_index 1 24 (λ r. row_of (f r)) }
    ensures all { (f : ℕ → ℕ → X) (t : List (List X)) → length t ≡ 24
        → ((i : ℕ) → i < 24 → slice_index_or t i [] ≡ row_of (f (i + 1))) → t ≡ table f }
    ensures replaced { (t : List (List X)) (d : X) (i r : ℕ) (row : List X)
        → IsTable t → i < 24 → i + 1 ≡ r → length row ≡ 40
        → slice_set t i row ≡ table (λ q c. if r == q then entry d 1 row c else value_at d t q c) }
{}

/// A table whose rows a loop replaces one after the other, from the top: none at first, one more
/// each time or one that is already as wanted, and at the end all of them.
pub fn tables_are_made_in_turn<X>()
    ensures none { (d : X) (f : ℕ → ℕ → X) (t : List (List X)) → IsTable t
        → HasMadeRows d f (value_at d t) t 0 }
    ensures more { (d : X) (f g : ℕ → ℕ → X) (t : List (List X)) (n i r : ℕ) (row : List X)
        → HasMadeRows d f g t n → n < 24 → i ≡ n → n + 1 ≡ r → row ≡ row_of (f r)
        → HasMadeRows d f g (slice_set t i row) (n + 1) }
    ensures kept { (d : X) (f g : ℕ → ℕ → X) (t : List (List X)) (n r : ℕ)
        → HasMadeRows d f g t n → n < 24 → n + 1 ≡ r → ((c : ℕ) → OnScreen r c → g r c ≡ f r c)
        → HasMadeRows d f g t (n + 1) }
    ensures all { (d : X) (f g : ℕ → ℕ → X) (t : List (List X)) (n : ℕ) → HasMadeRows d f g t n
        → 24 ≤ n → t ≡ table f }
{}
