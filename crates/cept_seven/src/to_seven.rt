ghost use Rattle.arrayvec.specs.ArrayVec.{array_vec_len};
ghost use Rattle.std.specs.Prelude.{◌≡◌, ◌≤◌, ◌+◌, ◌↔◌, ℕ, false, List, [], ◌∷◌, ◌++◌};
ghost use Rattle.cept_seven.specs.Seven.{is_right, ends_right, text_at_end, unclosed, seven};
ghost use Rattle.cept_seven.specs.Seven.{own_text, shift_between, text_added};

use arrayvec::ArrayVec;
use std::marker::Model;

/// The bytes of a page to its seven-bit form, one at a time: its value is whether the last byte was
/// of the right half. It takes no memory.
#[derive(Drop)]
pub struct ToSeven {
    right: bool,
}

impl Model for ToSeven {
    ghost use Rattle.std.specs.Prelude.{Bool};

    ghost Value = { Bool };

    ghost view = { λ t. t.right };
}

/// Puts the shift between bytes of which each is of the right half or not.
#[inline(always)]
fn put_shift<const N: usize>(before: bool, right: bool, text: &mut ArrayVec<u8, N>)
    requires { array_vec_len text.old + 1 ≤ N }
    ensures text { text.new.items ≡ text.old.items ++ shift_between before right }
    ensures len { array_vec_len text.new ≤ array_vec_len text.old + 1 }
{
    if before != right {
        text.push(if right { 0x0E } else { 0x0F });
    }
}

/// Puts the text of a byte without shifts.
#[inline(always)]
fn put_own<const N: usize>(byte: u8, text: &mut ArrayVec<u8, N>)
    requires { array_vec_len text.old + 2 ≤ N }
    ensures text { text.new.items ≡ text.old.items ++ own_text byte }
    ensures len { array_vec_len text.new ≤ array_vec_len text.old + 2 }
{
    match byte {
        0x80..=0x9F => {
            text.push(0x1B);
            text.push(byte - 0x40);
        }
        0xA0..=0xFF => text.push(byte - 0x80),
        0x0E..=0x10 => {
            text.push(0x10);
            text.push(byte + 0x40);
        }
        _ => text.push(byte),
    }
}

impl ToSeven {
    /// Before the first byte.
    pub fn new() -> ToSeven
        ensures { result ≡ ends_right [] }
    {
        ToSeven { right: false }
    }

    /// Takes one byte more, and answers what it adds to the seven-bit form.
    pub fn push(&mut self, byte: u8) -> ArrayVec<u8, 3>
        // Whatever bytes led here, the form of these and this byte, but for an SI at its end, is
        // that of those before and then the answer.
        ensures text { (b : List ℕ) → self.old ≡ ends_right b
            → unclosed (b ++ byte ∷ []) ≡ unclosed b ++ result.items }
        ensures leads { (b : List ℕ) → self.new ≡ ends_right (b ++ byte ∷ []) }

        // The same where nobody knows the bytes before.
        ensures answer { result.items ≡ text_added self.old byte }
        ensures state { self.new ≡ is_right byte }
    {
        let mut text = ArrayVec::new();
        self.push_into(byte, &mut text);
        text
    }

    /// As `push`, to the end of a text of the caller's that has room for three bytes.
    #[inline(always)]
    pub fn push_into<const N: usize>(&mut self, byte: u8, text: &mut ArrayVec<u8, N>)
        requires room { array_vec_len text.old + 3 ≤ N }
        ensures text { (b front : List ℕ) → self.old ≡ ends_right b
            → front ++ text.old.items ≡ unclosed b
            → front ++ text.new.items ≡ unclosed (b ++ byte ∷ []) }
        ensures leads { (b : List ℕ) → self.new ≡ ends_right (b ++ byte ∷ []) }
        ensures answer { text.new.items ≡ text.old.items ++ text_added self.old byte }
        ensures state { self.new ≡ is_right byte }
        ensures len { array_vec_len text.new ≤ array_vec_len text.old + 3 }
    {
        let right = byte >= 0xA0;
        put_shift(self.right, right, text);
        self.right = right;
        put_own(byte, text);
    }

    /// Ends the page: an SI where its last byte is of the right half, else nothing. The value then
    /// is as before a first byte.
    pub fn finish(&mut self) -> ArrayVec<u8, 1>
        ensures text { (b : List ℕ) → self.old ≡ ends_right b
            → seven b ≡ unclosed b ++ result.items }
        ensures nothing { (b : List ℕ) → self.old ≡ ends_right b
            → (result.items ≡ []) ↔ (ends_right b ≡ false) }
        ensures answer { result.items ≡ text_at_end self.old }
        ensures state { self.new ≡ ends_right [] }
    {
        let mut text = ArrayVec::new();
        if self.right {
            text.push(0x0F);
        }
        self.right = false;
        text
    }
}
