ghost use Rattle.std.specs.Prelude.{◌≡◌, ◌↔◌, ◌&&◌, ℕ, true};
ghost use Rattle.cept_codes.specs.Look.{is_pattern_size, is_plane_count};
ghost use Rattle.cept_parser.specs.Valid.{IsValidMode, IsValidContext};

use cept_codes::{Form, Said};

/// Patterns have this form.
fn is_pattern_form(form: &Form) -> bool
    ensures { result ≡ (is_pattern_size form.now.w form.now.h && is_plane_count form.now.planes) }
{
    let sized = match form.w {
        12 => form.h == 12 || form.h == 10,
        6 => form.h == 12 || form.h == 10 || form.h == 5 || form.h == 6,
        _ => false,
    };
    sized && (form.planes == 1 || form.planes == 2 || form.planes == 4)
}

/// What plain bytes, 2/0 to 7/15, are read as.
#[derive(Clone, Copy, Debug, PartialEq, Eq)]
pub enum Mode {
    /// Signs.
    Text,
    /// Colours for the table, the next for this entry: 0 to 31, or 32 after the last.
    TableRun(u8),
    /// Values of the DCLUT, the next for this place: 0 to 3, or 4 after the last.
    DclutRun(u8),
    /// Patterns, the next for this code: 2/1 to 7/14, or 7/15 after the last.
    DrcsRun(u8),
    /// Bytes that are passed over.
    Skip,
}

impl Mode {
    /// Reading reaches the mode.
    fn is_valid(&self) -> bool
        ensures { (result ≡ true) ↔ IsValidMode self.now }
    {
        match *self {
            Mode::Text => true,
            Mode::TableRun(place) => place <= 32,
            Mode::DclutRun(place) => place <= 4,
            Mode::DrcsRun(code) => 0x21 <= code && code <= 0x7F,
            Mode::Skip => true,
        }
    }
}

/// What colour units define: entries of the colour table, or the look-up table of downloaded
/// patterns (DCLUT).
#[derive(Clone, Copy, Debug, PartialEq, Eq)]
pub enum ColourKind {
    ColourTable,
    LookUpTable,
}

/// How bytes are read: the mode, the kind of colours, and the form of downloaded patterns.
#[derive(Clone, Copy, Debug, PartialEq, Eq)]
pub struct Context {
    pub mode: Mode,
    pub kind: ColourKind,
    pub form: Form,
}

impl Context {
    ghost use Rattle.std.specs.Prelude.{◌≡◌, ℕ};
    ghost use Rattle.cept_parser.specs.Context.{start_context};

    /// The context before the first byte.
    pub(crate) fn start() -> Context
        ensures { result ≡ start_context }
    {
        Context {
            mode: Mode::Text,
            kind: ColourKind::ColourTable,
            form: Form {
                w: 12,
                h: 10,
                planes: 1,
            },
        }
    }

    /// Reading reaches the context.
    pub(crate) fn is_valid(&self) -> bool
        ensures { (result ≡ true) ↔ IsValidContext self.now }
    {
        self.mode.is_valid() && is_pattern_form(&self.form)
    }

    /// The code that the next pattern is for, where patterns are read.
    pub(crate) fn code(&self) -> u8
        ensures { (k : ℕ) → self.now.mode ≡ Mode.DrcsRun k → result ≡ k }
    {
        match self.mode {
            Mode::DrcsRun(code) => code,
            _ => 0,
        }
    }
}

/// What whole bytes say, a command or a refusal, and the context after them.
#[derive(Clone, Copy, Debug, PartialEq, Eq)]
pub struct Outcome {
    pub said: Said,
    pub next: Context,
}
