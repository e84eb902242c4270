//! Laws of changes: the list of changes between two grids tells just what differs, and painting it
//! turns the one into the other.
ghost use Rattle.std.specs.Prelude.{◌≡◌, ◌≢◌, ℕ, ◌+◌, ◌<◌, ◌≤◌, Bool, true, false, List, [], ◌∷◌};
ghost use Rattle.std.specs.Prelude.{◌++◌, slice_index_or};
ghost use Rattle.std.specs.List.{All};
ghost use Rattle.cept_codes.specs.declared.command.Command.{Command};
ghost use Rattle.cept_codes.specs.declared.look.Look.{Look};
ghost use Rattle.cept_codes.specs.Place.{Place, OnScreen, place_of};
ghost use Rattle.cept_codes.specs.Table.{IsTable};
ghost use Rattle.cept_profile.specs.Changes.{changes_between, changes, marked_looks};
ghost use Rattle.cept_profile.specs.Changes.{marked_looks_below, look_at, grid_with_paints};
ghost use Rattle.cept_profile.specs.Changes.{AreChanges};
ghost use Rattle.cept_profile.specs.Look.{grid};

/// The changes from one grid to another name each place that differs, once and in reading order,
/// and no other list does so. Painted over the first grid they give the second. A place that isn't
/// painted keeps its look, and lists may be painted in parts.
pub fn painting_the_changes()
    ensures are_changes { (g h : List (List Look)) → AreChanges g h (changes_between g h) }
    ensures no_others { (g h : List (List Look)) (xs : List (Place × Look))
        → AreChanges g h xs → xs ≡ changes_between g h }
    ensures no_changes { (g : List (List Look)) → changes_between g g ≡ [] }
    ensures gives { (g h : List (List Look)) → IsTable g → IsTable h
        → grid_with_paints g (changes_between g h) ≡ h }
    ensures others_stay { (g : List (List Look)) (xs : List (Place × Look)) (p : Place)
        → OnScreen p.row p.column
        → All (λ x. x.0 ≢ p) xs → look_at (grid_with_paints g xs) p ≡ look_at g p }
    ensures in_parts { (g : List (List Look)) (xs ys : List (Place × Look))
        → grid_with_paints g (xs ++ ys) ≡ grid_with_paints (grid_with_paints g xs) ys }
{}

/// What one more command changes, painted over the grid before it, gives the grid after it.
pub fn each_command_is_shown()
    ensures { (history : List Command) (command : Command)
        → grid_with_paints (grid history) (changes history command)
        ≡ grid (history ++ command ∷ []) }
{}

/// The list of marked places grows in reading order: it begins empty, a marked number with none
/// between adds its place, numbers that aren't marked add nothing, what stands below a number
/// begins the whole, and below 960 stands all of it.
pub fn marked_places_in_order()
    ensures none { (marks : List Bool) (g : List (List Look)) → marked_looks_below marks g 0 ≡ [] }
    ensures next { (marks : List Bool) (g : List (List Look)) (from n : ℕ) → from ≤ n
        → ((k : ℕ) → from ≤ k → k < n → slice_index_or marks k false ≡ false)
        → slice_index_or marks n false ≡ true
        → marked_looks_below marks g (n + 1)
        ≡ marked_looks_below marks g from ++ (place_of n, look_at g (place_of n)) ∷ [] }
    ensures unmarked { (marks : List Bool) (g : List (List Look)) (from n : ℕ) → from ≤ n
        → ((k : ℕ) → from ≤ k → k < n → slice_index_or marks k false ≡ false)
        → marked_looks_below marks g n ≡ marked_looks_below marks g from }
    ensures begins { (marks : List Bool) (g : List (List Look)) (n d : ℕ)
        → (rest : List (Place × Look))
        × (marked_looks_below marks g (n + d) ≡ marked_looks_below marks g n ++ rest) }
    ensures whole { (marks : List Bool) (g : List (List Look))
        → marked_looks_below marks g 960 ≡ marked_looks marks g }
{}
