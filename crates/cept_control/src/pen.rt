ghost use Rattle.std.specs.Prelude.{◌≡◌, ◌≤◌, ◌==◌, ◌||◌, if◌then◌else◌, [], true, false, IfSome};
ghost use Rattle.cept_codes.specs.Attribute.{IsValidAttr, IsValidPen};
ghost use Rattle.cept_codes.specs.Cell.{IsValidMarker};
ghost use Rattle.cept_codes.specs.Command.{IsC1, IsValidCommand};
ghost use Rattle.cept_control.specs.AttributeCode.{is_attribute_code};
ghost use Rattle.cept_control.specs.inside.Taking.{CanTake};
ghost use Rattle.cept_profile.specs.Control.{control_after, effect};
ghost use Rattle.cept_profile.specs.Edges.{edges_of};
ghost use Rattle.cept_profile.specs.Pens.{c1_function, fast_after, flash_of, pen_with};
ghost use Rattle.cept_profile.specs.Strokes.{strokes_of};

use crate::control::Control;
use arrayvec::ArrayVec;
use cept_codes::{Attr, C1Set, Command, Flash, Marker, Pen, Size, Stroke};

/// What sets attributes: under the parallel set those of the pen, under the serial set markers.
impl Control {
    /// Takes a C1 code under the parallel set, which makes no stroke, and answers whether the
    /// command is one under this set. Any other command is left to `step`.
    #[inline(always)]
    pub fn step_attribute(&mut self, command: &Command) -> bool
        requires { IsValidCommand command.now }
        ensures state { result ≡ true → self.new ≡ control_after self.old command.now }
        ensures strokes { result ≡ true → strokes_of self.old command.now ≡ [] }
        ensures edges { edges_of self.new ≡ edges_of self.old }
        ensures left { result ≡ false → self.new ≡ self.old }
        ensures answer { result ≡ is_attribute_code self.old.working.c1 command.now }
    {
        match (command, self.working.c1) {
            (Command::C1(n), C1Set::Parallel) => {
                self.working.accent = None;
                self.attribute_code(*n);
                true
            }
            _ => false,
        }
    }

    pub(crate) fn c1_code(&mut self, n: u8, strokes: &mut ArrayVec<Stroke, 128>)
        requires { CanTake (Command.C1 n) strokes.old.items }
        ensures state { self.new ≡ (effect self.old (Command.C1 n)).0 }
        ensures strokes { strokes.new.items ≡ (effect self.old (Command.C1 n)).1 }
    {
        match self.working.c1 {
            C1Set::Parallel => self.attribute_code(n),
            C1Set::Serial => {
                let fast = fast_after_code(n, self.working.fast);
                if let Some((_, marker)) = c1_function(self.working.table, n) {
                    self.leave(marker, strokes);
                }
                self.working.fast = fast;
            }
        }
    }

    /// A C1 code under the parallel set.
    fn attribute_code(&mut self, n: u8)
        requires code { IsC1 n }
        requires parallel { self.old.working.c1 ≡ C1Set.Parallel }
        ensures state { self.new ≡ (effect self.old (Command.C1 n)).0 }
        ensures strokes { (effect self.old (Command.C1 n)).1 ≡ [] }
    {
        if let Some((attribute, _)) = c1_function(self.working.table, n) {
            set(attribute, &mut self.working.pen);
        }
        self.working.fast = fast_after_code(n, self.working.fast);
    }

    pub(crate) fn flash_mode(&mut self, mode: u8, strokes: &mut ArrayVec<Stroke, 128>)
        requires { CanTake (Command.FlashMode mode) strokes.old.items }
        ensures state { self.new ≡ (effect self.old (Command.FlashMode mode)).0 }
        ensures strokes { strokes.new.items ≡ (effect self.old (Command.FlashMode mode)).1 }
    {
        match self.working.c1 {
            C1Set::Parallel => {
                let flash = flash_of(mode, self.working.fast);
                set(Attr::Flash(flash), &mut self.working.pen);
                self.working.fast = fast_after(mode, self.working.fast);
            }
            C1Set::Serial => {
                let fast = self.working.fast;
                self.leave(Marker::Flash(flash_of(mode, fast)), strokes);
                self.working.fast = fast_after(mode, fast);
            }
        }
    }

    pub(crate) fn stop_conceal(&mut self, strokes: &mut ArrayVec<Stroke, 128>)
        requires { CanTake Command.StopConceal strokes.old.items }
        ensures state { self.new ≡ (effect self.old Command.StopConceal).0 }
        ensures strokes { strokes.new.items ≡ (effect self.old Command.StopConceal).1 }
    {
        match self.working.c1 {
            C1Set::Parallel => set(Attr::Conceal(false), &mut self.working.pen),
            C1Set::Serial => self.leave(Marker::Conceal(false), strokes),
        }
    }
}

/// The fast flash in force after a C1 code: the codes of flash end it.
fn fast_after_code(n: u8, fast: u8) -> u8
    ensures { result ≡ (if n == 8 || n == 9 then 0 else fast) }
{
    if n == 8 || n == 9 { 0 } else { fast }
}

/// What a C1 code is with a colour table: an attribute under the parallel set, and under the serial
/// set a marker.
pub(crate) fn c1_function(table: u8, n: u8) -> Option<(Attr, Marker)>
    requires table { table ≤ 3 }
    requires code { IsC1 n }
    ensures function { result ≡ c1_function table n }
    ensures attribute { IfSome result (λ function. IsValidAttr function.0) }
    ensures marker { IfSome result (λ function. IsValidMarker function.1) }
{
    match n {
        0..=7 => Some((Attr::Fore(8 * table + n), Marker::Alpha(8 * table + n))),
        8 => Some((Attr::Flash(Flash::Plain), Marker::Flash(Flash::Plain))),
        9 => Some((Attr::Flash(Flash::Steady), Marker::Flash(Flash::Steady))),
        10 => Some((Attr::Boxed(false), Marker::Boxed(false))),
        11 => Some((Attr::Boxed(true), Marker::Boxed(true))),
        12 => Some((Attr::Size(Size::Normal), Marker::Size(Size::Normal))),
        13 => Some((Attr::Size(Size::High), Marker::Size(Size::High))),
        14 => Some((Attr::Size(Size::Wide), Marker::Size(Size::Wide))),
        15 => Some((Attr::Size(Size::Both), Marker::Size(Size::Both))),
        16..=23 => Some((
            Attr::Back(8 * table + (n - 16)),
            Marker::Mosaic(8 * table + (n - 16)),
        )),
        24 => Some((Attr::Conceal(true), Marker::Conceal(true))),
        25 => Some((Attr::Lined(false), Marker::Lined(false))),
        26 => Some((Attr::Lined(true), Marker::Lined(true))),
        28 => Some((Attr::Invert(false), Marker::BlackBack)),
        29 => Some((Attr::Invert(true), Marker::NewBack)),
        30 => Some((Attr::NoBack, Marker::Hold)),
        31 => Some((Attr::Conceal(false), Marker::Release)),
        _ => None,
    }
}

/// Sets an attribute of a pen where it stands.
fn set(attribute: Attr, pen: &mut Pen)
    requires pen { IsValidPen pen.old }
    requires attribute { IsValidAttr attribute }
    ensures pen { pen.new ≡ pen_with attribute pen.old }
    ensures valid { IsValidPen pen.new }
{
    match attribute {
        Attr::Fore(entry) => pen.fore = Some(entry),
        Attr::Back(entry) => pen.back = Some(entry),
        Attr::NoBack => pen.back = None,
        Attr::Flash(flash) => pen.flash = Some(flash),
        Attr::Conceal(on) => pen.conceal = Some(on),
        Attr::Lined(on) => pen.lined = Some(on),
        Attr::Boxed(on) => pen.boxed = Some(on),
        Attr::Size(size) => pen.size = Some(size),
        Attr::Invert(on) => pen.invert = Some(on),
    }
}

/// The flash of a flash mode.
fn flash_of(mode: u8, fast: u8) -> Flash
    requires { fast ≤ 3 }
    ensures { result ≡ flash_of mode fast }
{
    match mode {
        0 => Flash::Inverted,
        1 => Flash::Reduced,
        _ => match fast_after(mode, fast) {
            1 => Flash::Fast1,
            2 => Flash::Fast2,
            _ => Flash::Fast3,
        },
    }
}

/// The number of the fast flash that a flash mode leaves in force, 0 for none.
fn fast_after(mode: u8, fast: u8) -> u8
    requires { fast ≤ 3 }
    ensures fast { result ≡ fast_after mode fast }
    ensures in_range { result ≤ 3 }
{
    match mode {
        2 => 1,
        3 => 2,
        4 => 3,
        // the next and the one before in the circle 1, 2, 3
        5 => if fast == 3 { 1 } else { fast + 1 },
        6 => if fast <= 1 { 3 } else { fast - 1 },
        _ => 0,
    }
}
