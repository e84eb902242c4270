//! Applies the commands of items to a screen, and tells what each item says.
ghost use Rattle.std.specs.Prelude.{◌≡◌, ◌+◌, ◌*◌, ◌<◌, ◌≤◌, ◌∷◌, [], length};
ghost use Rattle.std.specs.List.{AllByRecursion};
ghost use Rattle.cept_codes.specs.Command.{IsValidSaid};
ghost use Rattle.cept_profile.specs.Changes.{marked_looks};
ghost use Rattle.cept_profile.specs.Look.{looks_of};
ghost use Rattle.cept_profile.specs.State.{core_of};
ghost use Rattle.cept_live.specs.Live.{Tells};
ghost use Rattle.cept_live.specs.inside.Live.{TakesItems};
ghost use Rattle.cept_live.specs.Notices.{Refusal, change_sayings};
ghost use Rattle.cept_live.specs.Renewed.{marked_with};

use crate::notice::Notice;
use cept_codes::{Item, Reason, Said};
use cept_outside::Steps;
use cept_repaint::{Marks, Screen};
use std::sync::ledger::Ledger;

/// What commands are applied to: the screen, the places that the last command changed, and those that
/// items changed since the phase of flashing began.
#[derive(Drop)]
pub(crate) struct Display {
    pub screen: Screen,
    pub marks: Marks,
    pub renewed: Marks,
}

/// Tells each marked place with its look, from a place of the list on, and marks it as renewed.
/// Answers where they end.
pub(crate) fn tell_marked(
    at: u64,
    marks: &Marks,
    screen: &Screen,
    renewed: &mut Marks,
    list: &mut [Notice],
    from: usize,
) -> usize
    requires { from + 960 ≤ length list.old }
    ensures tells { Tells list.old from
        (change_sayings at (marked_looks marks.now (looks_of (core_of screen.now)))) result
        list.new }
    ensures renews { renewed.new ≡ marked_with renewed.old
        (change_sayings at (marked_looks marks.now (looks_of (core_of screen.now)))) }
    ensures most { result ≤ from + 960 }
{
    let mut to = from;
    let mut number = 0u16;
    while let Some(place) = marks.next_from(number) {
        list[to] = Notice::of_change(at, place, &screen.look(place));
        renewed.mark(place);
        to += 1;
        number = place.number() + 1;
    }
    to
}

/// Tells a refusal at a place of the list.
fn tell_refusal(at: u64, len: u8, reason: Reason, list: &mut [Notice], from: usize) -> usize
    requires { from < length list.old }
    ensures tells { Tells list.old from (Refusal at len reason ∷ []) result list.new }
    ensures most { result ≤ from + 960 }
{
    list[from] = Notice::of_refusal(at, len, reason);
    from + 1
}

/// Takes an item: applies its command and tells what changes, or tells its refusal.
fn take_item<L: Ledger>(
    item: &Item,
    display: &mut Display,
    list: &mut [Notice],
    from: usize,
    steps: &mut Steps<L>,
) -> usize
    requires valid { IsValidSaid item.now.what }
    requires room { from + 960 ≤ length list.old }
    ensures { TakesItems display.old.screen display.old.renewed (item.now ∷ []) list.old from
        display.new.screen display.new.renewed result list.new }
{
    let Display {
        screen,
        marks,
        renewed,
    } = display;
    match &item.what {
        Said::Command(command) => {
            screen.apply_unseen(command, marks, steps);
            tell_marked(item.at, marks, screen, renewed, list, from)
        }
        Said::Refused(reason) => tell_refusal(item.at, item.len, *reason, list, from),
    }
}

/// Takes items one after the other.
pub(crate) fn take_items<L: Ledger>(
    items: &[Item],
    display: &mut Display,
    list: &mut [Notice],
    from: usize,
    steps: &mut Steps<L>,
) -> usize
    requires valid { AllByRecursion (λ i. IsValidSaid i.what) items.now }
    requires room { from + 960 * length items.now ≤ length list.old }
    ensures { TakesItems display.old.screen display.old.renewed items.now list.old from
        display.new.screen display.new.renewed result list.new }
{
    let mut to = from;
    for item in items {
        to = take_item(item, display, list, to, steps);
    }
    to
}
