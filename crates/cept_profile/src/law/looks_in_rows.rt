//! Laws of looks in their row: what a cell is by itself depends on it and on the cells to its left.
ghost use Rattle.std.specs.Prelude.{◌≡◌, ℕ, ◌≤◌, false};
ghost use Rattle.cept_codes.specs.declared.attribute.Pen.{Pen};
ghost use Rattle.cept_codes.specs.declared.attribute.Size.TheVariants as sizes;
ghost use Rattle.cept_codes.specs.declared.cell.What.{What};
ghost use Rattle.cept_profile.specs.Definitions.{Definitions};
ghost use Rattle.cept_profile.specs.Edges.{edges_of_core};
ghost use Rattle.cept_profile.specs.Look.{is_double_set, look_in_row, look_of, looks_of};
ghost use Rattle.cept_profile.specs.Look.{sets_double_size, size_in_row};
ghost use Rattle.cept_profile.specs.Serial.{is_marker};
ghost use Rattle.cept_profile.specs.State.{Core};

/// Rows that agree up to a column have the same look and the same size there. In a row without
/// markers up to a column the cell there looks as it does by itself, and where nothing up to it,
/// neither the row nor the screen, sets a double size, it is of single size.
pub fn looks_depend_on_cells_to_the_left()
    ensures alike { (defined : Definitions) (f g : ℕ → What) (pen screen : Pen) (c : ℕ) → 1 ≤ c
        → ((d : ℕ) → 1 ≤ d → d ≤ c → f d ≡ g d)
        → look_in_row defined f pen screen c ≡ look_in_row defined g pen screen c }
    ensures size { (f g : ℕ → What) (pen screen : Pen) (c : ℕ) → 1 ≤ c
        → ((d : ℕ) → 1 ≤ d → d ≤ c → f d ≡ g d)
        → size_in_row f pen screen c ≡ size_in_row g pen screen c }
    ensures alone { (defined : Definitions) (row : ℕ → What) (pen screen : Pen) (c : ℕ) → 1 ≤ c
        → ((d : ℕ) → 1 ≤ d → d ≤ c → is_marker (row d) ≡ false)
        → look_in_row defined row pen screen c ≡ look_of defined pen screen (row c) }
    ensures single { (row : ℕ → What) (pen screen : Pen) (c : ℕ) → 1 ≤ c
        → ((d : ℕ) → 1 ≤ d → d ≤ c → sets_double_size (row d) ≡ false)
        → is_double_set pen.size ≡ false → is_double_set screen.size ≡ false
        → size_in_row row pen screen c ≡ sizes.Normal }
{}

/// Of a core its page and its edges are seen, and nothing else.
pub fn the_page_and_the_edges_are_seen()
    ensures { (k m : Core) → k.page ≡ m.page → edges_of_core k ≡ edges_of_core m
        → looks_of k ≡ looks_of m }
{}
