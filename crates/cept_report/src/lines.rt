ghost use Rattle.std.specs.Prelude.{◌≡◌, ◌+◌, ◌≤◌, ◌<◌, ◌∷◌, ◌++◌, length, decimal};
ghost use Rattle.arrayvec.specs.ArrayVec.{array_vec_len};
ghost use Rattle.cept_codes.specs.Look.{IsValidLook};
ghost use Rattle.cept_report.specs.Front.{front_text, place_text};
ghost use Rattle.cept_report.specs.Screen.{cell_text};
ghost use Rattle.cept_report.specs.Room.{Adds, HasRoomFor};
ghost use Rattle.cept_report.specs.Ascii.{ascii};
ghost use Rattle.cept_report.specs.Text.{named_reason, named_line_reason, check_line};
ghost use Rattle.cept_report.specs.Text.{refusal_line, nothing_line, script_fault_line, load_line};

use crate::line::{Line, add_byte, add_number, add_small, add_text};
use crate::look::add_look;
use cept_codes::{LineReason, Look, Pos, Reason};

/// Adds a label and a place, with a space after each number.
#[inline(always)]
pub fn add_front(line: &mut Line, label: &[u8], at: Pos)
    requires room { HasRoomFor 27 line.old }
    requires label { length label.now ≤ 20 }
    ensures { Adds line.old 27 (front_text label.now at) line.new }
{
    add_label(line, label);
    add_spaced_place(line, at);
}

/// Adds a label. One of a length that most have is copied as so many bytes, without a call.
#[inline(always)]
#[tactic(auto, using(std::proofs::lemmas::List::take_all))]
fn add_label(line: &mut Line, label: &[u8])
    requires { array_vec_len line.old + length label.now ≤ 248 }
    ensures text { line.new.items ≡ line.old.items ++ label.now }
    ensures len { array_vec_len line.new ≡ array_vec_len line.old + length label.now }
{
    match label.len() {
        5 => add_text(line, &label[..5]),
        6 => add_text(line, &label[..6]),
        7 => add_text(line, &label[..7]),
        _ => add_text(line, label),
    }
}

/// Adds a place after a space: the row and the column, with a space after each.
// All at once, in each of the lengths that it may have.
#[inline(always)]
#[tactic(auto, using(crate::proofs::Digits::decimal_digits))]
fn add_spaced_place(line: &mut Line, at: Pos)
    requires { HasRoomFor 7 line.old }
    ensures { Adds line.old 7 (ascii " " ∷ place_text at) line.new }
{
    let (row, column) = (at.row(), at.col());
    let (row_ten, row_one) = (b'0' + row / 10, b'0' + row % 10);
    let (column_ten, column_one) = (b'0' + column / 10, b'0' + column % 10);
    if row < 10 {
        if column < 10 {
            add_text(line, &[b' ', row_one, b' ', column_one, b' ']);
        } else {
            add_text(line, &[b' ', row_one, b' ', column_ten, column_one, b' ']);
        }
    } else if column < 10 {
        add_text(line, &[b' ', row_ten, row_one, b' ', column_one, b' ']);
    } else {
        add_text(
            line,
            &[b' ', row_ten, row_one, b' ', column_ten, column_one, b' '],
        );
    }
}

/// Adds a place: the row and the column, with a space after each.
#[inline(always)]
fn add_place(line: &mut Line, at: Pos)
    requires { HasRoomFor 6 line.old }
    ensures { Adds line.old 6 (place_text at) line.new }
{
    add_small(line, at.row());
    add_byte(line, b' ');
    add_small(line, at.col());
    add_byte(line, b' ');
}

/// The line of a place, and nothing where its look is blank.
#[tactic(auto, unfolding(crate::specs::Screen::cell_text))]
pub fn cell_text(at: Pos, look: &Look) -> Line
    requires { IsValidLook look.now }
    ensures { result.items ≡ cell_text at look.now }
{
    let mut line = Line::new();
    if *look != Look::BLANK {
        add_place(&mut line, at);
        add_look(&mut line, look);
    }
    line
}

/// The line of the items and the refused ones among them.
pub fn check_line(items: u64, refused: u64) -> Line
    ensures { result.items ≡ check_line items refused }
{
    let mut line = Line::new();
    add_text(&mut line, b"items ");
    add_number(&mut line, items);
    add_text(&mut line, b" refused ");
    add_number(&mut line, refused);
    add_byte(&mut line, b'\n');
    line
}

#[tactic(auto, unfolding(crate::specs::Text::named_reason))]
fn number_of(reason: Reason) -> u8
    ensures { result ≡ (named_reason reason).0 }
{
    match reason {
        Reason::UnassignedControl => 1,
        Reason::UnknownEscape => 2,
        Reason::UnknownCsi => 3,
        Reason::UnknownUnit => 4,
        Reason::BadParameter => 5,
        Reason::Interrupted => 6,
        Reason::Truncated => 7,
    }
}

/// Adds the name of a reason.
#[tactic(auto, unfolding(crate::specs::Text::named_reason))]
pub fn add_reason_name(line: &mut Line, reason: Reason)
    requires { HasRoomFor 17 line.old }
    ensures { Adds line.old 17 (named_reason reason).1 line.new }
{
    match reason {
        Reason::UnassignedControl => add_text(line, b"UnassignedControl"),
        Reason::UnknownEscape => add_text(line, b"UnknownEscape"),
        Reason::UnknownCsi => add_text(line, b"UnknownCsi"),
        Reason::UnknownUnit => add_text(line, b"UnknownUnit"),
        Reason::BadParameter => add_text(line, b"BadParameter"),
        Reason::Interrupted => add_text(line, b"Interrupted"),
        Reason::Truncated => add_text(line, b"Truncated"),
    }
}

fn add_reason(line: &mut Line, reason: Reason)
    requires { HasRoomFor 38 line.old }
    ensures { Adds line.old 38
        (decimal (named_reason reason).0 ++ ascii " " ∷ (named_reason reason).1) line.new }
{
    add_number(line, u64::from(number_of(reason)));
    add_byte(line, b' ');
    add_reason_name(line, reason);
}

/// The line of refused bytes.
pub fn refusal_line(place: u64, size: u8, reason: Reason) -> Line
    ensures { result.items ≡ refusal_line place size reason }
{
    let mut line = Line::new();
    add_byte(&mut line, b'!');
    add_byte(&mut line, b' ');
    add_number(&mut line, place);
    add_byte(&mut line, b' ');
    add_number(&mut line, u64::from(size));
    add_byte(&mut line, b' ');
    add_reason(&mut line, reason);
    add_byte(&mut line, b'\n');
    line
}

/// The line of an undo before which no edit was kept.
pub fn nothing_line(number: u32) -> Line
    ensures { result.items ≡ nothing_line number }
{
    let mut line = Line::new();
    add_number(&mut line, u64::from(number));
    add_text(&mut line, b" nothing\n");
    line
}

#[tactic(auto, unfolding(crate::specs::Text::named_line_reason))]
fn line_number_of(reason: LineReason) -> u8
    ensures { result ≡ (named_line_reason reason).0 }
{
    match reason {
        LineReason::UnknownWord => 1,
        LineReason::WrongCount => 2,
        LineReason::BadNumber => 3,
        LineReason::BadText => 4,
        LineReason::BadHex => 5,
        LineReason::BadBytes => 6,
    }
}

#[tactic(auto, unfolding(crate::specs::Text::named_line_reason))]
fn add_line_name(line: &mut Line, reason: LineReason)
    requires { HasRoomFor 11 line.old }
    ensures { Adds line.old 11 (named_line_reason reason).1 line.new }
{
    match reason {
        LineReason::UnknownWord => add_text(line, b"UnknownWord"),
        LineReason::WrongCount => add_text(line, b"WrongCount"),
        LineReason::BadNumber => add_text(line, b"BadNumber"),
        LineReason::BadText => add_text(line, b"BadText"),
        LineReason::BadHex => add_text(line, b"BadHex"),
        LineReason::BadBytes => add_text(line, b"BadBytes"),
    }
}

/// The line that names the first line of a script that is outside the grammar.
pub fn script_fault_line(number: u32, reason: LineReason) -> Line
    ensures { result.items ≡ script_fault_line number reason }
{
    let mut line = Line::new();
    add_text(&mut line, b"script line ");
    add_number(&mut line, u64::from(number));
    add_text(&mut line, b": ");
    add_number(&mut line, u64::from(line_number_of(reason)));
    add_byte(&mut line, b' ');
    add_line_name(&mut line, reason);
    add_byte(&mut line, b'\n');
    line
}

/// The line of a page that was loaded.
pub fn load_line(bytes: u64, items: u64, paints: u64) -> Line
    ensures { result.items ≡ load_line bytes items paints }
{
    let mut line = Line::new();
    add_text(&mut line, b"bytes ");
    add_number(&mut line, bytes);
    add_text(&mut line, b" items ");
    add_number(&mut line, items);
    add_text(&mut line, b" paints ");
    add_number(&mut line, paints);
    add_byte(&mut line, b'\n');
    line
}
