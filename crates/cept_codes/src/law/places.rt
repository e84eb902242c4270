//! Laws of places and their numbers.
ghost use Rattle.std.specs.Prelude.{◌≡◌, ℕ, ◌<◌, ◌⊎◌, ◌↔◌};
ghost use Rattle.cept_codes.specs.Place.{Place, OnScreen, number, place_of};

/// Places and the numbers below 960 are each other's names, and a number is lower where its place
/// is read earlier: in a row above, or further left in the same row.
pub fn reading_order()
    ensures numbered { (n : ℕ) → number (place_of n).row (place_of n).column ≡ n }
    ensures on_screen { (n : ℕ) → n < 960 → OnScreen (place_of n).row (place_of n).column }
    ensures placed { (p : Place) → OnScreen p.row p.column → place_of (number p.row p.column) ≡ p }
    ensures below { (r c : ℕ) → OnScreen r c → number r c < 960 }
    ensures ordered { (r c q k : ℕ) → OnScreen r c → OnScreen q k
        → ((number r c < number q k) ↔ ((r < q) ⊎ ((r ≡ q) × (c < k)))) }
{}
