ghost use Rattle.std.specs.Prelude.{◌≡◌, ◌≢◌, ◌≤◌, ◌<◌, ◌+◌, [], length, Bool, false, nat_le};
ghost use Rattle.cept_codes.specs.Command.{IsValidForm};
ghost use Rattle.cept_parser.specs.Fit.{answer};
ghost use Rattle.cept_parser.specs.Runs.{bit, colour_part, colour};
ghost use Rattle.cept_parser.specs.inside.Fit.{misplacement};
ghost use Rattle.cept_parser.specs.Runs.{table_entry, run_unit};
ghost use Rattle.cept_parser.specs.Fit.{starts_pattern};
ghost use Rattle.cept_parser.specs.Waits.{begins_in};

use crate::context::{Context, Mode};
use crate::fit::Fit;
use cept_codes::{Command, Reason, Rgb, Said};

/// A plain byte that can't begin or continue the unit of its run.
fn misplacement(context: &mut Context, said: &mut Said)
    ensures { record { said = said.new; next = context.new } ≡ misplacement context.old }
{
    *said = Said::Refused(Reason::BadParameter);
    context.mode = Mode::Skip;
}

/// A byte of columns 4 to 7, which carries six bits.
fn has_six_bits(byte: u8) -> bool
    ensures { result ≡ nat_le 0x40 byte }
{
    byte >= 0x40
}

/// The bit of a byte worth 2 to the power of `k`.
fn bit(k: u8, byte: u8) -> u8
    requires { k < 8 }
    ensures { result ≡ bit k byte }
{
    (byte >> k) % 2
}

/// A part of a colour, 0 to 15: two bits of each byte.
fn colour_part(k: u8, first: u8, second: u8) -> u8
    requires { k < 5 }
    ensures { result ≡ colour_part k first second }
{
    8 * bit(k + 3, first) + 4 * bit(k, first) + 2 * bit(k + 3, second) + bit(k, second)
}

/// The colour of two bytes.
#[tactic(auto, unfolding(crate::specs::Runs::colour))]
fn colour(first: u8, second: u8) -> Rgb
    ensures { result ≡ colour first second }
{
    Rgb {
        r: colour_part(2, first, second),
        g: colour_part(1, first, second),
        b: colour_part(0, first, second),
    }
}

/// A value of the DCLUT: the five low bits of a byte.
#[inline(never)]
fn dclut_value(context: &mut Context, place: u8, byte: u8, said: &mut Said)
    ensures { record { said = said.new; next = context.new }
        ≡ (run_unit (Mode.DclutRun place) context.old byte []).outcome }
{
    if place < 4 && has_six_bits(byte) {
        *said = Said::Command(Command::Dclut(place, byte % 32));
        context.mode = Mode::DclutRun(place + 1);
    } else {
        misplacement(context, said)
    }
}

/// How a plain byte stands to a run of colours for the table with which a unit begins.
#[inline(never)]
fn first_of_table(context: &mut Context, place: u8, byte: u8, said: &mut Said) -> Fit
    ensures { record { fit = result; said = said.new; context = context.new }
        ≡ answer (run_unit (Mode.TableRun place) context.old byte []) false said.old context.old }
{
    if place < 32 && has_six_bits(byte) {
        Fit::Open
    } else {
        misplacement(context, said);
        Fit::Whole
    }
}

/// A byte that begins a pattern for this code.
#[tactic(auto, using(crate::proofs::PatternLemmas::starts_is))]
fn starts_pattern(context: &Context, code: u8, byte: u8) -> bool
    requires { IsValidForm context.now.form }
    ensures { result ≡ starts_pattern context.now code byte }
{
    code < 0x7F && byte == 0x30
}

/// How a plain byte stands to a run of patterns with which a unit begins: one that begins a pattern
/// is a pattern by itself, and more bytes fit.
#[inline(never)]
fn first_of_pattern(context: &mut Context, code: u8, byte: u8, said: &mut Said) -> Fit
    requires { IsValidForm context.old.form }
    ensures { record { fit = result; said = said.new; context = context.new }
        ≡ answer (run_unit (Mode.DrcsRun code) context.old byte []) false said.old context.old }
{
    if starts_pattern(context, code, byte) {
        Fit::Longer
    } else {
        misplacement(context, said);
        Fit::Whole
    }
}

/// How a plain byte that is no sign stands to the mode with which a unit begins.
#[inline(never)]
pub fn first_of_units(context: &mut Context, byte: u8, said: &mut Said) -> Fit
    requires form { IsValidForm context.old.form }
    requires other { context.old.mode ≢ Mode.Text }
    ensures { record { fit = result; said = said.new; context = context.new }
        ≡ answer (run_unit context.old.mode context.old byte []) false said.old context.old }
{
    match context.mode {
        Mode::Text => Fit::Misfit,
        Mode::Skip => {
            *said = Said::Command(Command::Skipped);
            Fit::Whole
        }
        Mode::TableRun(place) => first_of_table(context, place, byte, said),
        Mode::DclutRun(place) => {
            dclut_value(context, place, byte, said);
            Fit::Whole
        }
        Mode::DrcsRun(code) => first_of_pattern(context, code, byte, said),
    }
}

/// Says that this graphic byte was read.
// Most come after another: where one is said already, its byte alone is written, and not a whole large value.
#[inline(always)]
pub fn say_graphic(byte: u8, said: &mut Said)
    ensures { said.new ≡ Said.Command (Command.Graphic byte) }
{
    match said {
        Said::Command(Command::Graphic(known)) => *known = byte,
        _ => *said = Said::Command(Command::Graphic(byte)),
    }
}

/// The second byte of a colour entry.
#[tactic(auto, unfolding(crate::specs::Runs::table_entry))]
fn table_entry(context: &mut Context, place: u8, first: u8, rest: &[u8], said: &mut Said) -> Fit
    requires { place < 32 }
    ensures { (ended : Bool) → record { fit = result; said = said.new; context = context.new }
        ≡ answer (table_entry context.old place first rest.now) ended said.old context.old }
{
    match rest {
        [] => Fit::Open,
        [second @ 0x20..=0x7F] => {
            if has_six_bits(*second) {
                *said = Said::Command(Command::Entry(place, colour(first, *second)));
                context.mode = Mode::TableRun(place + 1);
            } else {
                misplacement(context, said);
            }
            Fit::Whole
        }
        _ => Fit::Misfit,
    }
}

/// How a plain byte and those after it stand to a run of colours for the table.
fn table_run(context: &mut Context, place: u8, byte: u8, rest: &[u8], said: &mut Said) -> Fit
    requires { 1 ≤ length rest.now }
    ensures { (ended : Bool) → record { fit = result; said = said.new; context = context.new }
        ≡ answer (run_unit (Mode.TableRun place) context.old byte rest.now) ended
        said.old context.old }
{
    if place < 32 && has_six_bits(byte) {
        table_entry(context, place, byte, rest, said)
    } else {
        Fit::Misfit
    }
}

/// How a plain byte and those after it stand to the mode. A pattern begins with none of them, and no
/// other run can grow, so that what is said is the same whether more bytes may come or not.
#[inline(never)]
pub fn run(context: &mut Context, byte: u8, rest: &[u8], said: &mut Said) -> Fit
    requires rest { 1 ≤ length rest.now }
    requires other { begins_in context.old.mode context.old byte ≡ false }
    ensures { (ended : Bool) → record { fit = result; said = said.new; context = context.new }
        ≡ answer (run_unit context.old.mode context.old byte rest.now) ended said.old context.old }
{
    match context.mode {
        Mode::TableRun(place) => table_run(context, place, byte, rest, said),
        Mode::Text | Mode::Skip | Mode::DclutRun(_) | Mode::DrcsRun(_) => Fit::Misfit,
    }
}
