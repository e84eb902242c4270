ghost use Rattle.std.specs.Prelude.{◌≡◌, ◌≢◌, ◌<◌, ◌∷◌, [], Bool, true, if◌then◌else◌};
ghost use Rattle.cept_parser.specs.Bytes.{is_plain, is_digit, contains, outcome, complete, optional};
ghost use Rattle.cept_parser.specs.Bytes.{saying};
ghost use Rattle.cept_parser.specs.Fit.{answer};
ghost use Rattle.cept_parser.specs.inside.Fit.{bytes_after};
ghost use Rattle.cept_parser.specs.Units.{us_position, drcs_parts, drcs_form, drcs_header};
ghost use Rattle.cept_parser.specs.Units.{drcs_unit, colour_header, last_place};
ghost use Rattle.cept_parser.specs.inside.Fit.{colour_parts};
ghost use Rattle.cept_parser.specs.Units.{run_from, colour_start, colour_unit};
ghost use Rattle.cept_parser.specs.inside.Fit.{format_parts};
ghost use Rattle.cept_parser.specs.Units.{format, service_break, service_unit, us_unit};

use crate::bytes::{is_digit, is_row, two_digits};
use crate::context::{ColourKind, Context, Mode};
use crate::fit::Fit;
use cept_codes::{C1Set, Command, Form, Reason, Said};

/// The bytes after an optional part, if it is there.
fn bytes_after<'a>(part: &[u8], bytes: &'a [u8]) -> &'a [u8]
    ensures { result.now ≡ bytes_after part.now bytes.now }
{
    match bytes {
        [] => bytes,
        [byte, rest @ ..] => { if part.contains(byte) { rest } else { bytes } }
    }
}

/// How bytes stand to the grammar before which the last optional part is left.
fn last_part(part: &[u8], bytes: &[u8]) -> Fit
    ensures { result ≡ optional (part.now ∷ []) bytes.now }
{
    if bytes.is_empty() {
        Fit::Longer
    } else if bytes_after(part, bytes).is_empty() {
        Fit::Whole
    } else {
        Fit::Misfit
    }
}

/// A unit that is complete and says this, if no bytes come after it.
fn complete(context: &mut Context, mode: Mode, what: Said, rest: &[u8], said: &mut Said) -> Fit
    ensures { (ended : Bool) → record { fit = result; said = said.new; context = context.new }
        ≡ answer (complete (outcome context.old mode what) rest.now) ended said.old context.old }
{
    match rest {
        [] => {
            *said = what;
            context.mode = mode;
            Fit::Whole
        }
        _ => Fit::Misfit,
    }
}

/// The number of planes that the optional parts of a header tell.
fn drcs_planes(bytes: &[u8]) -> u8
    ensures { result ≡ (if contains bytes.now 0x42 then 2 else if contains bytes.now 0x44 then 4 else 1) }
{
    if bytes.contains(&0x42) {
        2
    } else if bytes.contains(&0x44) {
        4
    } else {
        1
    }
}

/// The form that the optional parts of a header tell.
#[tactic(auto, unfolding(crate::specs::Units::drcs_form))]
fn drcs_form(bytes: &[u8]) -> Form
    ensures { result ≡ drcs_form bytes.now }
{
    let planes = drcs_planes(bytes);
    if bytes.contains(&0x36) {
        Form {
            w: 12,
            h: 12,
            planes,
        }
    } else if bytes.contains(&0x3A) {
        Form {
            w: 6,
            h: 12,
            planes,
        }
    } else if bytes.contains(&0x3B) {
        Form {
            w: 6,
            h: 10,
            planes,
        }
    } else if bytes.contains(&0x3C) {
        Form { w: 6, h: 5, planes }
    } else if bytes.contains(&0x3F) {
        Form { w: 6, h: 6, planes }
    } else {
        Form {
            w: 12,
            h: 10,
            planes,
        }
    }
}

/// How the optional parts of a header of downloaded characters stand to the grammar.
fn drcs_options(bytes: &[u8]) -> Fit
    ensures { result ≡ optional drcs_parts bytes.now }
{
    let rest = bytes_after(&[0x20, 0x28], bytes);
    let rest = bytes_after(&[0x40], rest);
    let rest = bytes_after(&[0x36, 0x37, 0x3A, 0x3B, 0x3C, 0x3F], rest);
    last_part(&[0x41, 0x42, 0x44], rest)
}

/// The header of downloaded characters: what stands after 1F 23 20.
#[tactic(auto, unfolding(crate::specs::Units::drcs_header))]
fn drcs_parts(context: &mut Context, bytes: &[u8], ended: bool, said: &mut Said) -> Fit
    ensures { record { fit = result; said = said.new; context = context.new }
        ≡ answer (saying (optional drcs_parts) (drcs_header context.old) bytes.now) ended said.old context.old }
{
    let fit = drcs_options(bytes);
    if fit.is_closed(ended) {
        *said = Said::Command(Command::DrcsHeader(bytes.contains(&0x28), drcs_form(bytes)));
        context.mode = Mode::Skip;
        context.form = drcs_form(bytes);
    }
    fit
}

/// Downloaded characters: what stands after 1F 23.
#[tactic(auto, unfolding(crate::specs::Units::drcs_unit))]
#[inline(never)]
fn drcs(context: &mut Context, bytes: &[u8], ended: bool, said: &mut Said) -> Fit
    ensures { record { fit = result; said = said.new; context = context.new }
        ≡ answer (drcs_unit context.old bytes.now) ended said.old context.old }
{
    match bytes {
        [] => Fit::Open,
        [byte, rest @ ..] => match *byte {
            0x20 => drcs_parts(context, rest, ended, said),
            0x21..=0x7E => {
                let start = Said::Command(Command::DrcsStart(*byte));
                complete(context, Mode::DrcsRun(*byte), start, rest, said)
            }
            0x7F => complete(
                context,
                Mode::Skip,
                Said::Refused(Reason::BadParameter),
                rest,
                said,
            ),
            _ => Fit::Misfit,
        },
    }
}

/// The kind of colours.
fn kind_of(dclut: bool) -> ColourKind
    ensures { result ≡ (if dclut then ColourKind.LookUpTable else ColourKind.ColourTable) }
{
    if dclut {
        ColourKind::LookUpTable
    } else {
        ColourKind::ColourTable
    }
}

/// The header of colours: what stands after 1F 26 20.
#[tactic(auto, unfolding(crate::specs::Units::colour_header))]
fn colour_parts(context: &mut Context, bytes: &[u8], ended: bool, said: &mut Said) -> Fit
    ensures { record { fit = result; said = said.new; context = context.new }
        ≡ answer (saying (optional colour_parts) (colour_header context.old) bytes.now) ended said.old context.old }
{
    let rest = bytes_after(&[0x20, 0x22], bytes);
    let rest = bytes_after(&[0x34], rest);
    let fit = last_part(&[0x40], rest);
    if fit.is_closed(ended) {
        *said = Said::Command(Command::ColourHeader(bytes.contains(&0x22)));
        context.mode = Mode::Skip;
        context.kind = kind_of(bytes.contains(&0x22));
    }
    fit
}

/// The last place of a kind of colours.
fn last_place(kind: ColourKind) -> u8
    ensures { result ≡ last_place kind }
{
    match kind {
        ColourKind::ColourTable => 31,
        ColourKind::LookUpTable => 3,
    }
}

/// The run of colours that begins at a place.
fn run_from(kind: ColourKind, place: u8) -> Mode
    ensures { result ≡ run_from kind place }
{
    match kind {
        ColourKind::ColourTable => Mode::TableRun(place),
        ColourKind::LookUpTable => Mode::DclutRun(place),
    }
}

/// Colours from a place on: what stands after 1F 26 and a digit.
#[tactic(auto, unfolding(crate::specs::Units::colour_start))]
fn colour_place(context: &mut Context, tens: u8, bytes: &[u8], said: &mut Said) -> Fit
    requires { is_digit tens ≡ true }
    ensures { (ended : Bool) → record { fit = result; said = said.new; context = context.new }
        ≡ answer (colour_start context.old tens bytes.now) ended said.old context.old }
{
    match bytes {
        [] => Fit::Open,
        [ones @ 0x20..=0x7F] => {
            if is_digit(*ones) && two_digits(tens, *ones) <= last_place(context.kind) {
                let place = two_digits(tens, *ones);
                *said = Said::Command(Command::ColourStart(place));
                context.mode = run_from(context.kind, place);
            } else {
                *said = Said::Refused(Reason::BadParameter);
                context.mode = Mode::Skip;
            }
            Fit::Whole
        }
        _ => Fit::Misfit,
    }
}

/// Colours: what stands after 1F 26.
#[tactic(auto, unfolding(crate::specs::Units::colour_unit))]
#[inline(never)]
fn colours(context: &mut Context, bytes: &[u8], ended: bool, said: &mut Said) -> Fit
    ensures { record { fit = result; said = said.new; context = context.new }
        ≡ answer (colour_unit context.old bytes.now) ended said.old context.old }
{
    match bytes {
        [] => Fit::Open,
        [byte, rest @ ..] => match *byte {
            0x20 => colour_parts(context, rest, ended, said),
            0x21 => complete(
                context,
                Mode::Skip,
                Said::Command(Command::ColourDefaults),
                rest,
                said,
            ),
            0x30..=0x39 => colour_place(context, *byte, rest, said),
            0x20..=0x7F => complete(
                context,
                Mode::Skip,
                Said::Refused(Reason::BadParameter),
                rest,
                said,
            ),
            _ => Fit::Misfit,
        },
    }
}

/// The number of rows that a format tells.
fn format_rows(bytes: &[u8]) -> u8
    ensures { result ≡ (if contains bytes.now 0x42 then 20 else 24) }
{
    if bytes.contains(&0x42) { 20 } else { 24 }
}

/// The format: what stands after 1F 2D.
#[tactic(auto, unfolding(crate::specs::Units::format))]
#[inline(never)]
fn format_parts(context: &mut Context, bytes: &[u8], ended: bool, said: &mut Said) -> Fit
    ensures { record { fit = result; said = said.new; context = context.new }
        ≡ answer (saying (optional format_parts) (format context.old) bytes.now) ended said.old context.old }
{
    let rest = bytes_after(&[0x41, 0x42], bytes);
    let fit = last_part(&[0x70, 0x71], rest);
    if fit.is_closed(ended) {
        *said = Said::Command(Command::Format(format_rows(bytes), !bytes.contains(&0x71)));
        context.mode = Mode::Text;
    }
    fit
}

/// The service is broken: what stands after 1F 2F 40.
#[tactic(auto, unfolding(crate::specs::Units::service_break))]
fn service_break(context: &mut Context, bytes: &[u8], said: &mut Said) -> Fit
    ensures { (ended : Bool) → record { fit = result; said = said.new; context = context.new }
        ≡ answer (service_break context.old bytes.now) ended said.old context.old }
{
    match bytes {
        [] => Fit::Open,
        [row @ 0x20..=0x7F] => {
            if is_row(*row) {
                *said = Said::Command(Command::ServiceBreak(*row - 0x40));
                context.mode = Mode::Text;
            } else {
                *said = Said::Refused(Reason::BadParameter);
                context.mode = Mode::Skip;
            }
            Fit::Whole
        }
        _ => Fit::Misfit,
    }
}

/// The other units of the service, of one byte. Full defaults bring back the first context.
#[tactic(auto, unfolding(crate::specs::Units::service_unit))]
fn other_service(context: &mut Context, byte: u8, said: &mut Said)
    requires plain { is_plain byte ≡ true }
    requires no_break { byte ≢ 0x40 }
    ensures { record { said = said.new; next = context.new } ≡ (service_unit context.old (byte ∷ [])).outcome }
{
    context.mode = Mode::Text;
    match byte {
        0x41 => {
            *said = Said::Command(Command::FullDefaults(C1Set::Serial));
            *context = Context::start();
        }
        0x42 => {
            *said = Said::Command(Command::FullDefaults(C1Set::Parallel));
            *context = Context::start();
        }
        0x43 => *said = Said::Command(Command::ControlDefaults(C1Set::Serial)),
        0x44 => *said = Said::Command(Command::ControlDefaults(C1Set::Parallel)),
        0x45 => *said = Said::Command(Command::Revision(2)),
        0x46 => *said = Said::Command(Command::Revision(1)),
        0x4F => *said = Said::Command(Command::ServiceEnd),
        _ => {
            *said = Said::Refused(Reason::BadParameter);
            context.mode = Mode::Skip;
        }
    }
}

/// The service: what stands after 1F 2F.
#[tactic(auto, unfolding(crate::specs::Units::service_unit))]
#[inline(never)]
fn service(context: &mut Context, bytes: &[u8], said: &mut Said) -> Fit
    ensures { (ended : Bool) → record { fit = result; said = said.new; context = context.new }
        ≡ answer (service_unit context.old bytes.now) ended said.old context.old }
{
    match bytes {
        [] => Fit::Open,
        [byte, rest @ ..] => match *byte {
            0x40 => service_break(context, rest, said),
            0x20..=0x7F if rest.is_empty() => {
                other_service(context, *byte, said);
                Fit::Whole
            }
            _ => Fit::Misfit,
        },
    }
}

/// APA: what stands after 1F and the byte of a row. Columns are 4/1 to 6/8 for 1 to 40.
#[tactic(auto, unfolding(crate::specs::Units::us_position))]
fn position(context: &mut Context, row: u8, bytes: &[u8], said: &mut Said) -> Fit
    ensures { (ended : Bool) → record { fit = result; said = said.new; context = context.new }
        ≡ answer (us_position context.old row bytes.now) ended said.old context.old }
{
    match bytes {
        [] => Fit::Open,
        [column @ 0x20..=0x7F] => {
            if is_row(row) && 0x41 <= *column && *column <= 0x68 {
                *said = Said::Command(Command::Position(row - 0x40, *column - 0x40));
            } else {
                *said = Said::Refused(Reason::BadParameter);
            }
            context.mode = Mode::Text;
            Fit::Whole
        }
        _ => Fit::Misfit,
    }
}

/// US: what stands after 1F.
#[tactic(auto, unfolding(crate::specs::Units::us_unit))]
#[inline(never)]
pub fn us(context: &mut Context, bytes: &[u8], ended: bool, said: &mut Said) -> Fit
    ensures { record { fit = result; said = said.new; context = context.new }
        ≡ answer (us_unit context.old bytes.now) ended said.old context.old }
{
    match bytes {
        [] => Fit::Open,
        [byte, rest @ ..] => match *byte {
            0x23 => drcs(context, rest, ended, said),
            0x26 => colours(context, rest, ended, said),
            0x2D => format_parts(context, rest, ended, said),
            0x2F => service(context, rest, said),
            0x20..=0x3F => complete(
                context,
                Mode::Skip,
                Said::Refused(Reason::UnknownUnit),
                rest,
                said,
            ),
            0x40..=0x7F => position(context, *byte, rest, said), // APA
            _ => Fit::Misfit,
        },
    }
}
