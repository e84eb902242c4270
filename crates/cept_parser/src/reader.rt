ghost use Rattle.std.specs.Prelude.{◌≡◌, ◌≢◌, ◌≤◌, ◌<◌, ◌+◌, ◌-◌, ◌∷◌, [], ◌++◌, length, true, false};
ghost use Rattle.std.specs.Prelude.{None, IsSome, IfSome};
ghost use Rattle.cept_codes.specs.Command.{IsValidForm};
ghost use Rattle.cept_parser.specs.Grammar.{unit, fits};
ghost use Rattle.cept_parser.specs.Items.{front, reading_at};
ghost use Rattle.cept_parser.specs.inside.Waits.{said_at_end};
ghost use Rattle.cept_parser.specs.Valid.{IsValidContext};
ghost use Rattle.cept_parser.specs.Waits.{in_pattern, IsBeside, IsWaiting, HasFitting};
ghost use Rattle.cept_parser.specs.inside.Waits.{IsIdle};
ghost use Rattle.cept_parser.specs.Waits.{MayRead, HasLeft, HasRead};
ghost use Rattle.cept_parser.specs.inside.Waits.{HasClosed};

use crate::closed::Closed;
use crate::context::{Context, Mode};
use crate::fit::{Fit, fit_of};
use crate::pending::Pending;
use cept_codes::{Command, Item, Reason, Said};
use cept_drcs::Loader;

/// The context, and the bytes that are pending in it.
#[derive(Drop)]
pub struct Reader {
    pub context: Context,
    pub bytes: Pending,
    /// Reads the pending bytes where they are those of a pattern.
    pub loader: Loader,
    /// They are.
    pub loading: bool,
}

impl Reader {
    /// A reader in this context, with nothing pending.
    pub fn new(context: Context) -> Reader
        requires { IsValidForm context.form }
        ensures context { result.context ≡ context }
        ensures pending { result.bytes ≡ [] }
        ensures free { result.loading ≡ false }
    {
        Reader {
            context,
            bytes: Pending::new(),
            loader: Loader::new(context.form),
            loading: false,
        }
    }

    /// A reader in this context with these bytes pending, `None` where they would not wait in it.
    pub fn with_pending(context: Context, bytes: &[u8]) -> Option<Reader>
        requires { IsValidContext context }
        ensures context { IfSome result (λ reader. reader.context ≡ context) }
        ensures pending { IfSome result (λ reader. reader.bytes ≡ bytes.now) }
        ensures waits { IfSome result (λ reader. IsWaiting reader (length bytes.now)) }
        ensures always { front context bytes.now ≡ None → IsSome result }
    {
        let mut reader = Reader::new(context);
        for byte in bytes {
            if !reader.keeps(*byte) {
                return None;
            }
        }
        Some(reader)
    }

    /// Reads one byte more after those that are pending, of which the first is at place 0, and says
    /// whether all of them wait.
    fn keeps(&mut self, byte: u8) -> bool
        requires { IsWaiting self.old (length self.old.bytes) }
        ensures context { result ≡ true → self.new.context ≡ self.old.context }
        ensures pending { result ≡ true → self.new.bytes ≡ self.old.bytes ++ byte ∷ [] }
        ensures waits { result ≡ true → IsWaiting self.new (length self.new.bytes) }
        ensures never { result ≡ false
            → front self.old.context (self.old.bytes ++ byte ∷ []) ≢ None }
    {
        let place = u64::from(self.bytes.len());
        let mut closed = Closed::new();
        self.read(place, byte, &mut closed);
        closed.as_slice().is_empty()
    }

    /// Reads the byte at this place after those that are pending right before it, if there are any.
    // Most units are one byte, and nearly all bytes of a pattern carry pixels: these are read in place.
    #[inline(always)]
    pub fn read(&mut self, place: u64, byte: u8, closed: &mut Closed)
        requires { MayRead self.old place closed.old }
        ensures { HasRead self.old (place - length self.old.bytes) byte closed.new self.new }
    {
        if self.bytes.is_empty() {
            self.begin(place, byte, closed);
        } else if self.loading {
            match byte {
                0x40..=0x7F => self.load(place, byte, closed),
                _ => self.load_other(place, byte, closed),
            }
        } else {
            let at = self.start(place);
            self.go_on(at, byte, closed);
        }
    }

    /// The place of the first byte that is pending, where the last one stands right before this
    /// place.
    #[inline(always)]
    fn start(&self, place: u64) -> u64
        requires { length self.now.bytes ≤ place }
        ensures { result ≡ place - length self.now.bytes }
    {
        place - u64::from(self.bytes.len())
    }

    /// Reads a byte at this place, where nothing is pending.
    // In place, since most units are one byte.
    #[inline(always)]
    fn begin(&mut self, at: u64, byte: u8, closed: &mut Closed)
        requires idle { IsIdle self.old }
        requires room { length closed.old < 2 }
        ensures items { closed.new
            ≡ closed.old ++ (reading_at self.old.context at (byte ∷ [])).items }
        ensures left { HasLeft (reading_at self.old.context at (byte ∷ [])) self.new }
    {
        match closed.settle(&mut self.context, &[byte], at) {
            Fit::Whole => {}
            Fit::Open => self.bytes.push(byte),
            Fit::Longer => self.begin_pattern(byte),
            Fit::Misfit => {}
        }
    }

    /// Begins to read a pattern with this byte.
    #[inline(never)]
    fn begin_pattern(&mut self, byte: u8)
        requires idle { IsIdle self.old }
        requires pattern { in_pattern self.old.context (byte ∷ []) ≡ true }
        ensures context { self.new.context ≡ self.old.context }
        ensures pending { self.new.bytes ≡ byte ∷ [] }
        ensures beside { IsBeside self.new.context self.new.bytes self.new.loading self.new.loader }
    {
        self.bytes.push(byte);
        self.loader.restart(self.context.form);
        self.loader.feed(byte);
        self.loading = true;
    }

    /// Reads one byte more after bytes that are pending at this place and are no pattern.
    #[inline(always)]
    fn go_on(&mut self, at: u64, byte: u8, closed: &mut Closed)
        requires may { MayRead self.old (at + length self.old.bytes) closed.old }
        requires some { 1 ≤ length self.old.bytes }
        requires free { self.old.loading ≡ false }
        ensures { HasRead self.old at byte closed.new self.new }
    {
        self.bytes.push(byte);
        match closed.settle(&mut self.context, self.bytes.as_slice(), at) {
            Fit::Whole => self.bytes.clear(),
            Fit::Open => {}
            Fit::Longer => {}
            Fit::Misfit => {
                self.bytes.pop();
                self.break_off(at, byte, closed);
            }
        }
    }

    /// Closes what is pending at this place, and reads afresh one byte more, which doesn't fit after
    /// it.
    #[inline(never)]
    fn break_off(&mut self, at: u64, byte: u8, closed: &mut Closed)
        requires may { MayRead self.old (at + length self.old.bytes) closed.old }
        requires misfit { fits self.old.context (self.old.bytes ++ byte ∷ []) ≡ false }
        ensures { HasRead self.old at byte closed.new self.new }
    {
        let from = at + u64::from(self.bytes.len());
        self.close(at, closed);
        self.begin(from, byte, closed);
    }

    /// Closes what is pending at this place, after which the next byte doesn't fit.
    fn close(&mut self, at: u64, closed: &mut Closed)
        requires pending { HasFitting self.old }
        requires room { length closed.old < 2 }
        ensures { HasClosed self.old at closed.old closed.new self.new }
    {
        if self.loading {
            self.close_pattern(at, closed);
        } else {
            closed.cut(&mut self.context, self.bytes.as_slice(), at);
            self.bytes.clear();
        }
    }

    /// Reads the byte at this place after those of a pattern, which are pending right before it.
    #[inline(always)]
    fn load(&mut self, place: u64, byte: u8, closed: &mut Closed)
        requires may { MayRead self.old place closed.old }
        requires loading { self.old.loading ≡ true }
        ensures { HasRead self.old (place - length self.old.bytes) byte closed.new self.new }
    {
        if self.loader.feed(byte) {
            self.bytes.push(byte);
            if self.loader.full() {
                let at = self.start(place + 1);
                self.close_pattern(at, closed);
            }
        } else {
            let from = self.start(place);
            self.break_off(from, byte, closed);
        }
    }

    /// The same, apart.
    #[inline(never)]
    fn load_other(&mut self, place: u64, byte: u8, closed: &mut Closed)
        requires may { MayRead self.old place closed.old }
        requires loading { self.old.loading ≡ true }
        ensures { HasRead self.old (place - length self.old.bytes) byte closed.new self.new }
    {
        self.load(place, byte, closed);
    }

    /// Closes the pattern whose bytes are pending at this place.
    #[inline(never)]
    fn close_pattern(&mut self, at: u64, closed: &mut Closed)
        requires beside { IsBeside self.old.context self.old.bytes self.old.loading
            self.old.loader }
        requires loading { self.old.loading ≡ true }
        requires room { length closed.old < 2 }
        ensures { HasClosed self.old at closed.old closed.new self.new }
    {
        let code = self.context.code();
        closed.push(Item {
            at,
            len: self.bytes.len(),
            what: Said::Command(Command::DrcsPattern(code, self.loader.pattern())),
        });
        self.context.mode = Mode::DrcsRun(code + 1);
        self.clear();
    }

    /// Takes off what is pending.
    pub fn clear(&mut self)
        ensures context { self.new.context ≡ self.old.context }
        ensures pending { self.new.bytes ≡ [] }
        ensures free { self.new.loading ≡ false }
    {
        self.bytes.clear();
        self.loading = false;
    }

    /// What the pending bytes say at the end of the input: their command where they are a unit,
    /// else they are truncated.
    pub fn said_at_end(&self) -> Said
        requires { HasFitting self.now }
        ensures { result ≡ said_at_end (unit self.now.context self.now.bytes) }
    {
        if self.loading {
            let code = self.context.code();
            return Said::Command(Command::DrcsPattern(code, self.loader.pattern()));
        }
        let mut context = self.context;
        let mut said = Said::Refused(Reason::Truncated);
        fit_of(&mut context, self.bytes.as_slice(), true, &mut said);
        said
    }
}
