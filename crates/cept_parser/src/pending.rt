ghost use Rattle.std.specs.Prelude.{◌≡◌, ◌-◌, ◌<◌, ◌≤◌, ◌∷◌, [], ◌++◌, length, take, true, false};

use std::marker::Model;

/// Bytes that are no item yet, at most a hundred.
#[derive(Drop)]
pub struct Pending {
    bytes: [u8; 100],
    count: u8,
}

impl Model for Pending {
    ghost use Rattle.std.specs.Prelude.{ℕ, ◌≤◌, List, take};

    ghost Value = { List ℕ };

    ghost view = { λ p. take p.count p.bytes };

    ghost invariant = { λ p. p.count ≤ 100 };
}

impl Pending {
    /// No bytes.
    pub fn new() -> Pending
        ensures { result ≡ [] }
    {
        Pending {
            bytes: [0; 100],
            count: 0,
        }
    }

    /// How many there are.
    #[inline]
    pub fn len(&self) -> u8
        ensures value { result ≡ length self.now }
        ensures few { result ≤ 100 }
    {
        self.count
    }

    /// There are none.
    #[inline]
    pub fn is_empty(&self) -> bool
        ensures none { result ≡ true → self.now ≡ [] }
        ensures some { result ≡ false → 1 ≤ length self.now }
    {
        self.count == 0
    }

    /// The bytes.
    #[inline]
    pub fn as_slice(&self) -> &[u8]
        ensures value { result.now ≡ self.now }
        ensures few { length result.now ≤ 100 }
    {
        &self.bytes[..self.count as usize]
    }

    /// Puts a byte after the others.
    #[inline]
    pub fn push(&mut self, byte: u8)
        requires { length self.old < 100 }
        ensures { self.new ≡ self.old ++ byte ∷ [] }
    {
        let count = self.count;
        self.bytes[count as usize] = byte;
        self.count = count + 1;
    }

    /// Takes the last byte off, if there is one.
    pub fn pop(&mut self)
        ensures { self.new ≡ take (length self.old - 1) self.old }
    {
        self.count = self.count.saturating_sub(1);
    }

    /// Takes all bytes off.
    #[inline]
    pub fn clear(&mut self)
        ensures { self.new ≡ [] }
    {
        self.count = 0;
    }
}
