ghost use Rattle.std.specs.Prelude.{◌≡◌, ℕ, ◌+◌, ◌<◌};
ghost use Rattle.cept_outside.specs.Ledger.{IsBlankOf};

use std::marker::Model;
use std::sync::ledger::{Blank, Book, Ledger, Share};

/// How many ticks were made, as a contract sees it. It takes no bytes, and a running program can't
/// ask for the number.
#[derive(Drop)]
pub struct Steps<L: Ledger> {
    book: Book<L>,
    share: Share<L>,
}

impl<L: Ledger> Model for Steps<L> {
    ghost Value = { ℕ };

    ghost view = { λ s. s.book.total };

    ghost invariant = { λ s. 0 < s.share.parts };
}

impl<L: Ledger> Steps<L> {
    /// No tick was made. The blank ledger becomes the one that `L` stands for; a caller that counts
    /// nothing takes `Brand` for `L` and hands on `Blank::new(1)`.
    pub fn new(blank: Blank) -> Steps<L>
        requires blank { IsBlankOf L.name L.parts blank.name blank.parts }
        ensures { result ≡ 0 }
    {
        let (book, share) = blank.open::<L>();
        Steps { book, share }
    }

    /// Makes a tick.
    pub fn tick(&mut self)
        ensures { self.new ≡ self.old + 1 }
    {
        self.book.add(&mut self.share, 1);
    }
}
