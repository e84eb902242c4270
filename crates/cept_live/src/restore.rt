//! Reads the bytes of a written page, and brings its screen back.
ghost use Rattle.std.specs.Prelude.{◌≡◌, ◌<◌, ◌^◌, ◌++◌, ◌∷◌, List, [], length, IfOk, true};
ghost use Rattle.std.specs.List.{AllByRecursion};
ghost use Rattle.cept_codes.specs.declared.command.Command.{Command};
ghost use Rattle.cept_codes.specs.declared.item.Item.{Item};
ghost use Rattle.cept_codes.specs.Command.{IsValidSaid};
ghost use Rattle.cept_outside.specs.Ledger.{IsBlankOf};
ghost use Rattle.cept_parser.specs.Items.{closed_items};
ghost use Rattle.cept_profile.specs.State.{core, state};
ghost use Rattle.cept_profile.specs.Valid.{AllValid};
ghost use Rattle.cept_writer.specs.CompactCommands.{page_text};
ghost use Rattle.cept_live.specs.Live.{Stands};

use cept_codes::{Item, NoMemory, Said};
use cept_control::Control;
use cept_outside::Steps;
use cept_parser::{Closed, Parser};
use cept_repaint::{Marks, Screen};
use cept_writer::compact_texts_bring_pages_back;
use std::alloc::Global;
use std::marker::Brand;
use std::sync::ledger::{Blank, Ledger};

/// Applies the command of an item, if it says one.
fn apply_item<L: Ledger>(item: &Item, screen: &mut Screen, marks: &mut Marks, steps: &mut Steps<L>)
    requires { IsValidSaid item.now.what }
    ensures { (seen : List Item) → Stands screen.old seen
        → Stands screen.new (seen ++ item.now ∷ []) }
{
    match &item.what {
        Said::Command(command) => screen.apply_unseen(command, marks, steps),
        Said::Refused(_) => {}
    }
}

/// Applies the commands of items one after the other.
fn apply_items<L: Ledger>(
    items: &[Item],
    screen: &mut Screen,
    marks: &mut Marks,
    steps: &mut Steps<L>,
)
    requires { AllByRecursion (λ i. IsValidSaid i.what) items.now }
    ensures { (seen : List Item) → Stands screen.old seen
        → Stands screen.new (seen ++ items.now) }
{
    for item in items {
        apply_item(item, screen, marks, steps);
    }
}

/// Reads the bytes of a page to their end, and applies its commands to a screen at the start.
fn read_into<L: Ledger>(page: &[u8], screen: &mut Screen, blank: Blank)
    requires few { length page.now < 2 ^ 32 }
    requires start { screen.old ≡ state [] }
    requires blank { IsBlankOf L.name L.parts blank.name blank.parts }
    ensures { Stands screen.new (closed_items page.now) }
{
    let mut steps = Steps::<L>::new(blank);
    let mut parser = Parser::new();
    let mut closed = Closed::new();
    let mut marks = Marks::new();
    for byte in page {
        parser.push_into(*byte, &mut closed);
        apply_items(closed.as_slice(), screen, &mut marks, &mut steps);
    }
    let last = parser.finish();
    apply_items(last.as_slice(), screen, &mut marks, &mut steps);
}

/// Brings the screen of a written page with this control back, on a screen at the start. Answers
/// whether it did: not where the page has other settings than control has. A page of 2^32 bytes or more
/// finds no memory.
// The stack of a call is that of one step at a time, and a screen stays in its place.
#[inline(never)]
pub fn bring_back(screen: &mut Screen, page: &[u8], control: &Control) -> Result<bool, NoMemory>
    requires start { screen.old ≡ state [] }
    ensures { (history : List Command) → AllValid history
        → page_text (core history) ≡ page.now → control.now ≡ (state history).control
        → IfOk result (λ is_back. (is_back ≡ true) × (screen.new ≡ state history)) }
{
    // A law: the bytes of a written page bring its core back.
    compact_texts_bring_pages_back();
    let Ok(_size) = u32::try_from(page.len()) else {
        return Err(NoMemory);
    };
    let blank = Blank::new(1);
    read_into::<Brand>(page, screen, blank);
    Ok(screen.take_control(control))
}
