ghost use Rattle.std.specs.Prelude.{◌≡◌, ◌≢◌, true, false, Option};
ghost use Rattle.cept_profile.specs.Edges.{edges_of, is_at_edge, is_last};

use crate::control::Control;
use std::marker::Model;

/// Which rows are last: in these no sign is high. They are told by the number of rows of the
/// format, and by the area whose edges no sign crosses, if there is one.
#[derive(Clone, Copy, Debug)]
pub struct Edges {
    rows: u8,
    area: Option<(u8, u8)>,
}

impl Model for Edges {
    ghost use Rattle.cept_profile.specs.Edges.{Edges as EdgesOfControl};

    ghost Value = { EdgesOfControl };

    ghost view = { λ e. record { rows = e.rows; area = e.area } };

    ghost inverse = { λ e. record { rows = e.rows; area = e.area } };
}

impl Edges {
    /// Whether a row is last.
    pub fn is_last(&self, row: u8) -> bool
        ensures { result ≡ is_last self.now row }
    {
        self.rows <= row || is_at_edge(self.area, row)
    }

    /// Whether these are the same edges.
    pub fn is_same(&self, other: &Edges) -> bool
        ensures same { result ≡ true → self.now ≡ other.now }
        ensures others { result ≡ false → self.now ≢ other.now }
    {
        self.rows == other.rows && is_same_area(self.area, other.area)
    }
}

/// Whether the row is the one above the area, or its last.
fn is_at_edge(area: Option<(u8, u8)>, row: u8) -> bool
    ensures { result ≡ is_at_edge area row }
{
    match area {
        Some((first, last)) => (row < first && first - row == 1) || row == last,
        None => false,
    }
}

/// Whether these are the same areas, or none.
fn is_same_area(area: Option<(u8, u8)>, other: Option<(u8, u8)>) -> bool
    ensures same { result ≡ true → area ≡ other }
    ensures others { result ≡ false → area ≢ other }
{
    match (area, other) {
        (Some((first, last)), Some((top, bottom))) => first == top && last == bottom,
        (None, None) => true,
        _ => false,
    }
}

impl Control {
    /// Which rows are last: from the last of the format on all are, and under the second revision
    /// those above the two edges of the area in force.
    pub fn edges(&self) -> Edges
        ensures { result ≡ edges_of self.now }
    {
        Edges {
            rows: self.rows,
            area: if self.revision == 2 {
                self.area_in_force()
            } else {
                None
            },
        }
    }
}
