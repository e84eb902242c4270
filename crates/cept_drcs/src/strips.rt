ghost use Rattle.std.specs.Prelude.{◌≡◌, List, [], ◌∷◌, ◌++◌, ◌≤◌, ◌<◌, ◌+◌, ◌*◌, ◌-◌};
ghost use Rattle.std.specs.Prelude.{◌^◌, length, replicate, slice_index};
ghost use Rattle.cept_drcs.specs.Strips.{words};
ghost use Rattle.cept_drcs.specs.Strips.{number_of, pairs};

use crate::words::{strip, ten};
use std::marker::Model;

/// Strips of six pixels, at most 96, as the bytes that carry them.
#[derive(Drop)]
pub struct Strips {
    room: [u8; 96],
    count: u8,
}

impl Model for Strips {
    ghost use Rattle.std.specs.Prelude.{ℕ, List, take};

    ghost Value = { List ℕ };

    ghost use Rattle.cept_drcs.specs.Strips.{AreKeptStrips};

    ghost view = { λ s. take s.count s.room };

    ghost invariant = { λ s. AreKeptStrips s.room s.count };
}

impl Strips {
    /// None.
    pub fn new() -> Strips
        ensures { result ≡ [] }
    {
        Strips {
            room: [0; 96],
            count: 0,
        }
    }

    /// Takes all away.
    pub fn clear(&mut self)
        ensures { self.new ≡ [] }
    {
        self.room = [0; 96];
        self.count = 0;
    }

    /// How many there are.
    pub fn len(&self) -> u8
        ensures len { result ≡ length self.now }
        ensures few { result ≤ 96 }
    {
        self.count
    }

    /// The one of this number, from 0.
    pub fn at(&self, k: u8) -> u8
        requires { k < length self.now }
        ensures { result ≡ slice_index self.now k }
    {
        self.room[usize::from(k)]
    }

    /// Adds one.
    pub fn push(&mut self, strip: u8)
        requires { length self.old < 96 }
        ensures { self.new ≡ self.old ++ strip ∷ [] }
    {
        let count = self.count;
        self.room[usize::from(count)] = strip;
        self.count = count + 1;
    }

    /// Adds strips of 0, so that there are this many.
    pub fn pad(&mut self, count: u8)
        requires more { length self.old ≤ count }
        requires room { count ≤ 96 }
        ensures { self.new ≡ self.old ++ replicate (count - length self.old) 0 }
    {
        self.count = count;
    }

    /// Adds the same one so many times.
    pub fn add(&mut self, times: u8, strip: u8)
        requires { length self.old + times ≤ 96 }
        ensures { self.new ≡ self.old ++ replicate times strip }
    {
        let count = self.count + times;
        self.room[usize::from(self.count)..usize::from(count)].fill(strip);
        self.count = count;
    }

    /// Adds the same two so many times.
    pub fn add_pairs(&mut self, times: u8, left: u8, right: u8)
        requires { length self.old + 2 * times ≤ 96 }
        ensures { self.new ≡ self.old ++ pairs times left right }
    {
        let count = usize::from(self.count);
        for k in 0..usize::from(times) {
            self.room[count + 2 * k] = left;
            self.room[count + 2 * k + 1] = right;
        }
        self.count += 2 * times;
    }

    /// The bits of the ten strips from this one on.
    fn ten(&self, from: u8) -> u64
        requires { from ≤ 86 }
        ensures number { result ≡ number_of 10 from self.now }
        ensures range { result < 2 ^ 60 }
    {
        if from < self.count {
            ten(&self.room, usize::from(from))
        } else {
            0
        }
    }

    /// The bits of the 32 strips from this one on, in three words: a strip stands in the first and
    /// the second of them, and one in the second and the third.
    #[inline(always)]
    fn three_words(&self, from: u8) -> [u64; 3]
        requires { from ≤ 64 }
        ensures { result ≡ words 3 (number_of 32 from self.now) }
    {
        if from < self.count {
            let one = strip(self.room[usize::from(from + 10)]);
            let two = strip(self.room[usize::from(from + 21)]);
            [
                self.ten(from) + (one % 16) * (1 << 60),
                one / 16 + self.ten(from + 11) * 4 + (two % 4) * (1 << 62),
                two / 4 + self.ten(from + 22) * 16,
            ]
        } else {
            [0; 3]
        }
    }

    /// Their bits, in words.
    pub fn words(&self) -> [u64; 9]
        ensures { result ≡ words 9 (number_of 96 0 self.now) }
    {
        let a = self.three_words(0);
        let b = self.three_words(32);
        let c = self.three_words(64);
        [a[0], a[1], a[2], b[0], b[1], b[2], c[0], c[1], c[2]]
    }
}
