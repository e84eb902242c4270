ghost use Rattle.std.specs.Prelude.{◌≡◌, ◌≢◌, ◌≤◌, ◌<◌, ◌∷◌, [], ◌++◌, length, true, false};
ghost use Rattle.cept_codes.specs.Command.{IsValidForm};
ghost use Rattle.cept_parser.specs.Grammar.{standing, unit, fits};
ghost use Rattle.cept_parser.specs.Items.{reading_at};
ghost use Rattle.cept_parser.specs.Fit.{answer};
ghost use Rattle.cept_parser.specs.inside.Fit.{word};
ghost use Rattle.cept_parser.specs.Waits.{in_pattern, AreToFit};
ghost use Rattle.cept_parser.specs.inside.Waits.{AreToCut, outcome_at_misfit, cut_item};

use crate::context::{Context, Mode};
use crate::fit::{Fit, fit_of};
use cept_codes::{Item, Reason, Said};
use std::marker::Model;

/// The items that one byte closes, in order. A caller keeps one of these from byte to byte: items
/// are large, and so they are made where they stay.
#[derive(Drop)]
pub struct Closed {
    items: [Item; 2],
    count: usize,
}

impl Model for Closed {
    ghost use Rattle.std.specs.Prelude.{◌≡◌, ◌≤◌, List, length, take};
    ghost use Rattle.cept_codes.specs.declared.item.Item.{Item};

    ghost Value = { List Item };

    ghost view = { λ c. take c.count c.items };

    ghost invariant = { λ c. (c.count ≤ 2) × (length c.items ≡ 2) };
}

/// How bytes at this place stand to the grammar, after which more may come or none, and the item
/// that they are where they are closed.
#[inline(always)]
fn fit_item(context: &mut Context, bytes: &[u8], ended: bool, at: u64, item: &mut Item) -> Fit
    requires few { length bytes.now ≤ 100 }
    requires unit { AreToFit context.old bytes.now ended }
    ensures place { item.new.at ≡ at }
    ensures length { item.new.len ≡ length bytes.now }
    ensures answer { record { fit = result; said = item.new.what; context = context.new }
        ≡ answer (standing context.old bytes.now) ended item.old.what context.old }
{
    item.at = at;
    item.len = bytes.len() as u8;
    fit_of(context, bytes, ended, &mut item.what)
}

/// The item of bytes at this place after which the next byte doesn't fit: what they wholly are,
/// else they are interrupted.
fn cut_item(context: &mut Context, bytes: &[u8], at: u64, item: &mut Item)
    requires { AreToCut context.old bytes.now }
    ensures item { item.new ≡ cut_item context.old at bytes.now }
    ensures context { context.new
        ≡ (outcome_at_misfit context.old (unit context.old bytes.now)).next }
{
    item.what = Said::Refused(Reason::Interrupted);
    match fit_item(context, bytes, true, at, item) {
        Fit::Whole => {}
        Fit::Longer => {}
        Fit::Open => context.mode = Mode::Text,
        Fit::Misfit => context.mode = Mode::Text,
    }
}

impl Closed {
    /// No items.
    pub fn new() -> Closed
        ensures { result ≡ [] }
    {
        Closed {
            items: [Item::default(); 2],
            count: 0,
        }
    }

    /// The items.
    #[inline]
    pub fn as_slice(&self) -> &[Item]
        ensures value { result.now ≡ self.now }
        ensures few { length result.now ≤ 2 }
    {
        &self.items[..self.count]
    }

    /// Takes all items off.
    #[inline]
    pub(crate) fn clear(&mut self)
        ensures { self.new ≡ [] }
    {
        self.count = 0;
    }

    /// Puts an item after the others. There is room for one more.
    #[inline]
    pub(crate) fn push(&mut self, item: Item)
        requires { length self.old < 2 }
        ensures { self.new ≡ self.old ++ item ∷ [] }
    {
        let count = self.count;
        self.items[count] = item;
        self.count = count + 1;
    }

    /// Says how bytes at this place stand to the grammar, and closes them where they are a whole
    /// unit that nothing continues. There is room for one item more.
    #[inline(always)]
    pub(crate) fn settle(&mut self, context: &mut Context, bytes: &[u8], at: u64) -> Fit
        requires room { length self.old < 2 }
        requires few { length bytes.now ≤ 100 }
        requires form { IsValidForm context.old.form }
        requires other { in_pattern context.old bytes.now ≡ true → length bytes.now ≡ 1 }
        ensures fit { result ≡ word context.old bytes.now }
        ensures items { result ≢ Fit.Misfit
            → self.new ≡ self.old ++ (reading_at context.old at bytes.now).items }
        ensures context { result ≢ Fit.Misfit
            → context.new ≡ (reading_at context.old at bytes.now).context }
        ensures misfit { result ≡ Fit.Misfit → fits context.old bytes.now ≡ false }
        ensures kept { result ≡ Fit.Misfit
            → (self.new ≡ self.old) × (context.new ≡ context.old) }
    {
        let count = self.count;
        let fit = fit_item(context, bytes, false, at, &mut self.items[count]);
        match fit {
            Fit::Whole => self.count = count + 1,
            Fit::Open => {}
            Fit::Longer => {}
            Fit::Misfit => {}
        }
        fit
    }

    /// Closes bytes at this place after which the next byte doesn't fit. There is room for one item
    /// more.
    pub(crate) fn cut(&mut self, context: &mut Context, bytes: &[u8], at: u64)
        requires room { length self.old < 2 }
        requires bytes { AreToCut context.old bytes.now }
        ensures items { self.new ≡ self.old ++ cut_item context.old at bytes.now ∷ [] }
        ensures context { context.new
            ≡ (outcome_at_misfit context.old (unit context.old bytes.now)).next }
    {
        let count = self.count;
        cut_item(context, bytes, at, &mut self.items[count]);
        self.count = count + 1;
    }
}
