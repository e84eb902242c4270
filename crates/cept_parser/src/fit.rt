ghost use Rattle.std.specs.Prelude.{◌≡◌, ◌≢◌, ◌≤◌, ◌∷◌, [], true, false, Bool, length};
ghost use Rattle.cept_codes.specs.Command.{IsValidForm};
ghost use Rattle.cept_parser.specs.Bytes.{outcome, is_between, is_plain, end, sequence};
ghost use Rattle.cept_parser.specs.Bytes.{saying};
ghost use Rattle.cept_parser.specs.Escape.{escape};
ghost use Rattle.cept_parser.specs.Grammar.{repetition, csi_unit, after_escape, after_breaker};
ghost use Rattle.cept_parser.specs.Grammar.{standing};
ghost use Rattle.cept_parser.specs.Fit.{closes, answer};
ghost use Rattle.cept_parser.specs.Waits.{in_pattern, AreToFit};

use crate::bytes::is_plain;
use crate::context::{Context, Mode};
use crate::controls::control;
use crate::csi::csi;
use crate::escape::escape;
use crate::runs::{first_of_units, run, say_graphic};
use crate::units::us;
use cept_codes::{Command, Reason, Said};

/// How bytes stand to the grammar. The functions that decide it are handed two places besides: what
/// whole bytes say goes where their item stays, since items are large, and the context becomes the
/// one after them where they are closed.
#[derive(Clone, Copy)]
pub enum Fit {
    /// No unit or refused shape begins so.
    Misfit,
    /// One begins so.
    Open,
    /// They are one, and no more bytes fit.
    Whole,
    /// They are one, and more bytes fit.
    Longer,
}

impl Fit {
    /// They are closed: they are whole, and no more bytes fit or come.
    pub fn is_closed(&self, ended: bool) -> bool
        ensures { result ≡ closes self.now ended }
    {
        match self {
            Fit::Whole => true,
            Fit::Longer => ended,
            _ => false,
        }
    }
}

/// The last byte of a sequence.
fn is_last(last: u8, byte: u8) -> bool
    ensures { result ≡ is_between last 0x7F byte }
{
    last <= byte && byte <= 0x7F
}

/// The end of a sequence, if no bytes come after it.
fn end(rest: &[u8]) -> Fit
    ensures { result ≡ end rest.now }
{
    match rest {
        [] => Fit::Whole,
        _ => Fit::Misfit,
    }
}

/// How bytes stand to sequences of at most so many bytes below a final one, which is in the range
/// from `last` on.
fn sequence(last: u8, most: usize, bytes: &[u8]) -> Fit
    ensures fit { result ≡ sequence last most bytes.now }
    ensures shorter { result ≢ Fit.Longer }
{
    match bytes {
        [] => Fit::Open,
        [byte, rest @ ..] => {
            if most == 0 {
                if is_plain(*byte) {
                    end(rest)
                } else {
                    Fit::Misfit
                }
            } else if is_last(last, *byte) {
                end(rest)
            } else if is_plain(*byte) {
                sequence(last, most - 1, rest)
            } else {
                Fit::Misfit
            }
        }
    }
}

/// RPT: what stands after 12.
#[tactic(auto, unfolding(crate::specs::Grammar::repetition))]
#[inline(never)]
fn rpt(context: &mut Context, bytes: &[u8], said: &mut Said) -> Fit
    ensures { (ended : Bool) → record { fit = result; said = said.new; context = context.new }
        ≡ answer (repetition context.old bytes.now) ended said.old context.old }
{
    match bytes {
        [] => Fit::Open,
        [byte @ 0x40..=0x7F] => {
            *said = Said::Command(Command::Repeat(*byte - 0x40));
            context.mode = Mode::Text;
            Fit::Whole
        }
        [0x20..=0x3F] => {
            *said = Said::Refused(Reason::BadParameter);
            context.mode = Mode::Text;
            Fit::Whole
        }
        _ => Fit::Misfit,
    }
}

/// CSI: what stands after 9B or 1B 5B.
#[tactic(auto, unfolding(crate::specs::Grammar::csi_unit))]
#[inline(never)]
fn control_sequence(context: &mut Context, bytes: &[u8], said: &mut Said) -> Fit
    ensures { (ended : Bool) → record { fit = result; said = said.new; context = context.new }
        ≡ answer (csi_unit context.old bytes.now) ended said.old context.old }
{
    let fit = sequence(0x40, 7, bytes);
    if fit.is_closed(false) {
        *said = csi(bytes);
        context.mode = Mode::Text;
    }
    fit
}

/// ESC without CSI: what stands after 1B.
fn other_escape(context: &mut Context, bytes: &[u8], said: &mut Said) -> Fit
    ensures { (ended : Bool) → record { fit = result; said = said.new; context = context.new }
        ≡ answer (saying (sequence 0x30 3) (λ u. outcome context.old Mode.Text (escape u)) bytes.now) ended
        said.old context.old }
{
    let fit = sequence(0x30, 3, bytes);
    if fit.is_closed(false) {
        *said = escape(bytes);
        context.mode = Mode::Text;
    }
    fit
}

/// ESC: what stands after 1B.
#[inline(never)]
fn escape_sequence(context: &mut Context, bytes: &[u8], said: &mut Said) -> Fit
    ensures { (ended : Bool) → record { fit = result; said = said.new; context = context.new }
        ≡ answer (after_escape context.old bytes.now) ended said.old context.old }
{
    match bytes {
        [] => Fit::Open,
        [0x5B, rest @ ..] => control_sequence(context, rest, said),
        [_, ..] => other_escape(context, bytes, said),
    }
}

/// How a breaker stands to the grammar with which a unit begins.
#[inline(always)]
#[tactic(auto, unfolding(crate::specs::Grammar::csi_unit, crate::specs::Controls::one_byte))]
fn breaker(context: &mut Context, byte: u8, said: &mut Said) -> Fit
    requires { is_plain byte ≡ false }
    ensures { record { fit = result; said = said.new; context = context.new }
        ≡ answer (after_breaker context.old byte []) false said.old context.old }
{
    match byte {
        0x12 => Fit::Open,
        0x1B => Fit::Open,
        0x1F => Fit::Open,
        0x9B => Fit::Open,
        0x00..=0x1F => {
            control(byte, said);
            context.mode = Mode::Text;
            Fit::Whole
        }
        0x80..=0x9F => {
            *said = Said::Command(Command::C1(byte - 0x80));
            context.mode = Mode::Text;
            Fit::Whole
        }
        _ => {
            *said = Said::Command(Command::Graphic(byte));
            context.mode = Mode::Text;
            Fit::Whole
        }
    }
}

/// How a byte stands to the grammar with which a unit begins.
// In place, since most units are one byte. Most of these are signs, so that plain bytes are asked for first.
#[inline(always)]
fn first(context: &mut Context, byte: u8, said: &mut Said) -> Fit
    requires { IsValidForm context.old.form }
    ensures { record { fit = result; said = said.new; context = context.new }
        ≡ answer (standing context.old (byte ∷ [])) false said.old context.old }
{
    if is_plain(byte) {
        match context.mode {
            Mode::Text => {
                say_graphic(byte, said);
                Fit::Whole
            }
            _ => first_of_units(context, byte, said),
        }
    } else {
        breaker(context, byte, said)
    }
}

/// How a first byte and those after it stand to the grammar.
#[inline]
fn first_and_rest(context: &mut Context, byte: u8, rest: &[u8], ended: bool, said: &mut Said) -> Fit
    requires rest { 1 ≤ length rest.now }
    requires other { in_pattern context.old (byte ∷ rest.now) ≡ false }
    ensures { record { fit = result; said = said.new; context = context.new }
        ≡ answer (standing context.old (byte ∷ rest.now)) ended said.old context.old }
{
    match byte {
        0x1F => us(context, rest, ended, said),
        0x20..=0x7F => run(context, byte, rest, said),
        0x12 => rpt(context, rest, said),
        0x1B => escape_sequence(context, rest, said),
        0x9B => control_sequence(context, rest, said),
        _ => Fit::Misfit,
    }
}

/// How bytes stand to the grammar, after which more may come or none. Of a pattern it is told the
/// first byte alone: a loader reads the others.
#[inline(always)]
pub fn fit_of(context: &mut Context, bytes: &[u8], ended: bool, said: &mut Said) -> Fit
    requires { AreToFit context.old bytes.now ended }
    ensures { record { fit = result; said = said.new; context = context.new }
        ≡ answer (standing context.old bytes.now) ended said.old context.old }
{
    match bytes {
        [byte] => first(context, *byte, said),
        [byte, rest @ ..] => first_and_rest(context, *byte, rest, ended, said),
        [] => Fit::Open,
    }
}
