ghost use Rattle.std.specs.Prelude.{◌≡◌, ℕ, ◌<◌, ◌==◌, ◌&&◌, ◌++◌, ◌∷◌, [], Some, None, length};
ghost use Rattle.std.specs.Prelude.{if◌then◌else◌, option_and_then};
ghost use Rattle.cept_codes.specs.Command.{IsArea};
ghost use Rattle.cept_profile.specs.Control.{effect};
ghost use Rattle.cept_profile.specs.Motions.{area_in_force, is_first_of, is_last_of};
ghost use Rattle.cept_profile.specs.Motions.{scrolling_area, strokes_of_scroll};

use crate::control::Control;
use arrayvec::ArrayVec;
use cept_codes::{Command, Stroke, Up};

/// The scrolling area, and whether motions scroll it.
impl Control {
    pub(crate) fn implicit_scrolling(&mut self, on: bool)
        ensures { self.new ≡ (effect self.old (Command.Implicit on)).0 }
    {
        self.implicit = on;
    }

    /// Seldom sent, and so out of the way of the dispatch, which each sign takes.
    #[inline(never)]
    pub(crate) fn create_area(&mut self, first: u8, last: u8)
        requires { IsArea first last }
        ensures { self.new ≡ (effect self.old (Command.AreaCreate first last)).0 }
    {
        self.area = Some((first, last));
    }

    /// The area with these rows alone is deleted.
    #[inline(never)]
    pub(crate) fn delete_area(&mut self, first: u8, last: u8)
        ensures { self.new ≡ (effect self.old (Command.AreaDelete first last)).0 }
    {
        self.area = area_without(first, last, self.area);
    }

    /// The rows of the area, if there is one, go one row up or down.
    pub(crate) fn scroll_area(
        &self,
        way: Up,
        area: Option<(u8, u8)>,
        strokes: &mut ArrayVec<Stroke, 128>,
    )
        requires { length strokes.old.items < 128 }
        ensures { strokes.new.items ≡ strokes.old.items ++ strokes_of_scroll self.now way area }
    {
        if let Some((first, last)) = area {
            strokes.push(self.scroll_under(way, first, last));
        }
    }

    /// The rows go one row up or down, under the second revision with their attributes.
    fn scroll_under(&self, way: Up, first: u8, last: u8) -> Stroke
        ensures { result ∷ [] ≡ strokes_of_scroll self.now way (Some (first, last)) }
    {
        if self.revision == 2 {
            Stroke::Carry(first, last, way)
        } else {
            Stroke::Shift(first, last, way)
        }
    }

    /// The area in force: it is there, and within the format.
    pub(crate) fn area_in_force(&self) -> Option<(u8, u8)>
        ensures { result ≡ area_in_force self.now }
    {
        match self.area {
            Some((first, last)) if last <= self.rows => Some((first, last)),
            _ => None,
        }
    }

    /// The area that motions scroll: the one in force, where implicit scrolling is on.
    pub(crate) fn scrolling_area(&self) -> Option<(u8, u8)>
        ensures { result ≡ scrolling_area self.now }
    {
        if self.implicit {
            self.area_in_force()
        } else {
            None
        }
    }
}

/// The area, unless it has these rows.
fn area_without(first: u8, last: u8, area: Option<(u8, u8)>) -> Option<(u8, u8)>
    ensures { result ≡ option_and_then
        (λ (a : ℕ × ℕ). if a.0 == first && a.1 == last then None else Some a) area }
{
    let (top, bottom) = area?;
    if top == first && bottom == last {
        None
    } else {
        area
    }
}

/// Whether the row is the first of the area.
pub(crate) fn is_first_of(area: Option<(u8, u8)>, row: u8) -> bool
    ensures { result ≡ is_first_of area row }
{
    match area {
        Some((first, _)) => first == row,
        None => false,
    }
}

/// Whether the row is the last of the area.
pub(crate) fn is_last_of(area: Option<(u8, u8)>, row: u8) -> bool
    ensures { result ≡ is_last_of area row }
{
    match area {
        Some((_, last)) => last == row,
        None => false,
    }
}
