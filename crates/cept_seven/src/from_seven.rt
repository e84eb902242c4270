ghost use Rattle.std.specs.Prelude.{◌≡◌, ◌≢◌, ℕ, List, [], ◌∷◌, ◌++◌, reverse};
ghost use Rattle.cept_seven.specs.Eight.{Leads, heard, bytes_heard, eight, accepted};
ghost use Rattle.cept_seven.specs.Eight.{is_quoted, state_with};

use std::marker::Model;

/// What a byte of a seven-bit form gives.
#[derive(Clone, Copy, Debug, PartialEq, Eq)]
pub enum Heard {
    /// a byte of the page
    Byte(u8),
    /// nothing: a shift or a quote
    Silent,
    /// nothing: no seven-bit form has the byte here
    Refused,
}

/// The bytes of a seven-bit form back to bytes of eight bits, one at a time: its value is the shift
/// state. It takes no memory.
#[derive(Drop)]
pub struct FromSeven {
    shifted: bool,
    quoted: bool,
}

impl Model for FromSeven {
    ghost use Rattle.cept_seven.specs.Eight.{ShiftState};

    ghost Value = { ShiftState };

    ghost view = { λ f. record { shifted = f.shifted; quoted = f.quoted } };
}

impl FromSeven {
    /// Before the first byte.
    pub fn new() -> FromSeven
        ensures { Leads [] result }
    {
        FromSeven {
            shifted: false,
            quoted: false,
        }
    }

    /// Takes one byte more, and answers what it gives. A refused byte counts as not taken.
    pub fn push(&mut self, byte: u8) -> Heard
        // Whatever accepted bytes led here, their bytes of eight bits are followed by the answer.
        ensures eight { (s : List ℕ) → Leads s self.old → result ≢ Heard.Refused
            → eight (s ++ byte ∷ []) ≡ eight s ++ bytes_heard result }
        ensures leads { (s : List ℕ) → Leads s self.old → result ≢ Heard.Refused
            → Leads (s ++ byte ∷ []) self.new }
        // At a refused byte what is accepted of bytes ends, whatever follows it.
        ensures refused { (s rest : List ℕ) → Leads s self.old → result ≡ Heard.Refused
            → accepted (s ++ byte ∷ rest) ≡ s }
        ensures stays { result ≡ Heard.Refused → self.new ≡ self.old }

        // The same where nobody knows the bytes before.
        ensures answer { result ≡ heard self.old byte }
        ensures state { result ≢ Heard.Refused → self.new ≡ state_with self.old byte }
    {
        self.hear(byte)
    }

    /// As `push`, by the shift state alone.
    #[inline(always)]
    fn hear(&mut self, byte: u8) -> Heard
        ensures answer { result ≡ heard self.old byte }
        ensures state { result ≢ Heard.Refused → self.new ≡ state_with self.old byte }
        ensures stays { result ≡ Heard.Refused → self.new ≡ self.old }
    {
        if byte >= 0x80 {
            return Heard::Refused;
        }
        if self.quoted {
            if byte < 0x4E || byte > 0x50 {
                return Heard::Refused;
            }
            self.quoted = false;
            return Heard::Byte(byte - 0x40);
        }
        if byte >= 0x20 {
            return Heard::Byte(if self.shifted { byte + 0x80 } else { byte });
        }
        self.shifted = byte == 0x0E;
        self.quoted = byte == 0x10;
        match byte {
            0x0E..=0x10 => Heard::Silent,
            _ => Heard::Byte(byte),
        }
    }

    /// Whether the last byte is a quote, so that the next one is quoted.
    pub fn open_quote(&self) -> bool
        ensures quote { (s : List ℕ) → Leads s self.now → result ≡ is_quoted (reverse s) }
        ensures state { result ≡ self.now.quoted }
    {
        self.quoted
    }
}
