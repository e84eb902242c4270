//! Tells what a phase of flashing changes on a display that is kept as it is told.
ghost use Rattle.std.specs.Prelude.{◌≡◌, ◌+◌, ◌≤◌, length, not, is_some, IfSome};
ghost use Rattle.cept_codes.specs.Look.{IsValidLook};
ghost use Rattle.cept_codes.specs.Place.{number};
ghost use Rattle.cept_codes.specs.Same.{same_look};
ghost use Rattle.cept_flash.specs.Phases.{frame};
ghost use Rattle.cept_profile.specs.Changes.{changes_between, differences, look_at};
ghost use Rattle.cept_profile.specs.Look.{looks_of};
ghost use Rattle.cept_profile.specs.State.{core_of};
ghost use Rattle.cept_redraw.specs.Marks.{is_marked};
ghost use Rattle.cept_live.specs.Live.{Tells};
ghost use Rattle.cept_live.specs.Notices.{change_sayings};
ghost use Rattle.cept_live.specs.inside.Turning.{look_before, looks_before};

use crate::notice::Notice;
use cept_codes::{Look, Pos};
use cept_flash::look_at_phase;
use cept_repaint::{Marks, Screen};

/// What is shown before a phase begins.
#[derive(Clone, Copy)]
pub(crate) enum Before {
    /// Blank looks.
    Blank,
    /// The looks as they were fed, or at a phase that has begun.
    Shown(Option<u8>),
}

/// A display that turns to a phase of flashing.
#[derive(Clone, Copy)]
pub(crate) struct Turning<'a> {
    pub before: Before,
    /// The places that items changed since the phase before began.
    pub renewed: &'a Marks,
    pub screen: &'a Screen,
    /// The phase that begins.
    pub phase: u8,
}

/// Whether these are different looks.
fn differ(a: &Look, b: &Look) -> bool
    ensures { result ≡ not (same_look a.now b.now) }
{
    !(*a == *b)
}

impl<'a> Turning<'a> {
    /// The look that is shown before at a place where the screen has this one.
    fn shown(&self, place: Pos, look: &Look) -> Look
        requires { IsValidLook look.now }
        ensures { result ≡ look_before self.now.before (is_marked self.now.renewed.now (number place.row
            place.column)) look.now }
    {
        match self.before {
            Before::Blank => Look::BLANK,
            Before::Shown(None) => *look,
            Before::Shown(Some(phase)) => {
                if self.renewed.has(place) {
                    *look
                } else {
                    look_at_phase(look, phase)
                }
            }
        }
    }

    /// The look of a place at the phase that begins, where it is shown otherwise before.
    fn turned(&self, place: Pos) -> Option<Look>
        ensures turned { is_some result
            ≡ is_marked (differences
            (looks_before self.now.before (looks_of (core_of self.now.screen.now)) self.now.renewed.now)
            (frame (looks_of (core_of self.now.screen.now)) self.now.phase)) (number place.row place.column) }
        ensures look { IfSome result (λ look. look
            ≡ look_at (frame (looks_of (core_of self.now.screen.now)) self.now.phase) place) }
        ensures valid { IfSome result IsValidLook }
    {
        // That the place is on the screen is known to the prover by its row.
        let _row = place.row();
        let look = self.screen.look(place);
        let now = look_at_phase(&look, self.phase);
        if differ(&self.shown(place, &look), &now) {
            Some(now)
        } else {
            None
        }
    }

    /// Tells each place that is shown otherwise at the phase that begins, from the start of the list
    /// on. Answers where they end.
    pub(crate) fn tell(&self, at: u64, list: &mut [Notice]) -> usize
        requires { 960 ≤ length list.old }
        ensures { Tells list.old 0 (change_sayings at (changes_between
            (looks_before self.now.before (looks_of (core_of self.now.screen.now)) self.now.renewed.now)
            (frame (looks_of (core_of self.now.screen.now)) self.now.phase))) result list.new }
    {
        let mut to = 0usize;
        for n in 0..960u16 {
            let place = Pos::from_number(n).unwrap();
            if let Some(look) = self.turned(place) {
                list[to] = Notice::of_change(at, place, &look);
                to += 1;
            }
        }
        to
    }
}
