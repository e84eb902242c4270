ghost use Rattle.std.specs.Prelude.{◌≡◌, ◌≤◌, ◌⊎◌, true};
ghost use Rattle.cept_codes.specs.Command.{IsC1, IsScreenC1, IsArea};
ghost use Rattle.cept_codes.specs.Look.{IsValidRgb};
ghost use Rattle.cept_codes.specs.Place.{OnScreen};
ghost use Rattle.cept_codes.specs.declared.command.Command.TheVariants as commands;
ghost use Rattle.cept_parser.specs.Bytes.{is_between};
ghost use Rattle.cept_words.specs.Words.{words_after, bytes_after};
ghost use Rattle.cept_editor.specs.Meaning.{one, two, four};
ghost use Rattle.cept_editor.specs.inside.Order.{ReadsPlain};
ghost use Rattle.cept_editor.specs.Table.{is_place, is_c1, is_screen_c1, is_colour, is_area};

use crate::brief::Brief;
use crate::number::{four_numbers, is_between, one_number, two_numbers};
use crate::order::{Order, ranged};
use cept_codes::{LineReason, Rgb};

/// Whether these are a row and a column of the screen.
fn is_place(row: u8, column: u8) -> bool
    ensures value { result ≡ is_place row column }
    ensures valid { result ≡ true → OnScreen row column }
{
    is_between(1, 24, row) && is_between(1, 40, column)
}

/// Whether this is a C1 code counted from 8/0, without 9/11.
fn is_c1(code: u8) -> bool
    ensures value { result ≡ is_c1 code }
    ensures valid { result ≡ true → IsC1 code }
{
    is_between(0, 31, code) && code != 27
}

/// Whether this is a C1 code that may stand for the whole screen.
fn is_screen_c1(code: u8) -> bool
    ensures value { result ≡ is_screen_c1 code }
    ensures valid { result ≡ true → IsScreenC1 code }
{
    is_c1(code) && !is_between(12, 15, code)
}

/// Whether this is a part of a colour.
fn is_part(part: u8) -> bool
    ensures { result ≡ is_between 0 15 part }
{
    is_between(0, 15, part)
}

/// Whether these are a colour entry and three parts of a colour.
fn is_colour(entry: u8, rgb: Rgb) -> bool
    ensures value { result ≡ is_colour entry rgb.r rgb.g rgb.b }
    ensures entry { result ≡ true → entry ≤ 31 }
    ensures valid { result ≡ true → IsValidRgb rgb }
{
    is_between(0, 31, entry) && is_part(rgb.r) && is_part(rgb.g) && is_part(rgb.b)
}

/// Whether these are the first and the last row of an area.
fn is_area(first: u8, last: u8) -> bool
    ensures value { result ≡ is_area first last }
    ensures valid { result ≡ true → IsArea first last }
{
    is_between(1, 24, first) && is_between(1, 24, last) && first <= last
}

/// Whether this is the number of a revision of the rules.
fn is_revision(number: u8) -> bool
    ensures value { result ≡ is_between 1 2 number }
    ensures valid { result ≡ true → (number ≡ 1) ⊎ (number ≡ 2) }
{
    is_between(1, 2, number)
}

/// `at R C`: the position.
pub(crate) fn place(rest: Option<&[u8]>) -> Result<Order, LineReason>
    ensures { ReadsPlain (bytes_after rest.entry) result
        (two is_place commands.Position (words_after rest.entry)) }
{
    let (row, column) = two_numbers(rest)?;
    ranged(is_place(row, column), Brief::Position(row, column))
}

/// `c1 N`: a C1 code.
pub(crate) fn c1(rest: Option<&[u8]>) -> Result<Order, LineReason>
    ensures { ReadsPlain (bytes_after rest.entry) result
        (one is_c1 commands.C1 (words_after rest.entry)) }
{
    let code = one_number(rest)?;
    ranged(is_c1(code), Brief::C1(code))
}

/// `row N`: an attribute of the row.
pub(crate) fn full_row(rest: Option<&[u8]>) -> Result<Order, LineReason>
    ensures { ReadsPlain (bytes_after rest.entry) result
        (one is_c1 commands.FullRow (words_after rest.entry)) }
{
    let code = one_number(rest)?;
    ranged(is_c1(code), Brief::FullRow(code))
}

/// `screen N`: an attribute of the screen.
pub(crate) fn full_screen(rest: Option<&[u8]>) -> Result<Order, LineReason>
    ensures { ReadsPlain (bytes_after rest.entry) result
        (one is_screen_c1 commands.FullScreen (words_after rest.entry)) }
{
    let code = one_number(rest)?;
    ranged(is_screen_c1(code), Brief::FullScreen(code))
}

/// `table N`: a colour table.
pub(crate) fn table(rest: Option<&[u8]>) -> Result<Order, LineReason>
    ensures { ReadsPlain (bytes_after rest.entry) result
        (one (is_between 0 3) commands.Table (words_after rest.entry)) }
{
    let number = one_number(rest)?;
    ranged(is_between(0, 3, number), Brief::Table(number))
}

/// `colour N R G B`: the colour of an entry.
pub(crate) fn colour(rest: Option<&[u8]>) -> Result<Order, LineReason>
    ensures { ReadsPlain (bytes_after rest.entry) result
        (four is_colour (λ n r g b. commands.Entry n (record { r = r; g = g; b = b }))
        (words_after rest.entry)) }
{
    let (entry, r, g, b) = four_numbers(rest)?;
    let rgb = Rgb { r, g, b };
    ranged(is_colour(entry, rgb), Brief::Entry(entry, rgb))
}

/// `repeat N`: the last sign so many times more.
pub(crate) fn repeat(rest: Option<&[u8]>) -> Result<Order, LineReason>
    ensures { ReadsPlain (bytes_after rest.entry) result
        (one (is_between 0 63) commands.Repeat (words_after rest.entry)) }
{
    let times = one_number(rest)?;
    ranged(is_between(0, 63, times), Brief::Repeat(times))
}

/// `area A B`: a scrolling area.
pub(crate) fn area(rest: Option<&[u8]>) -> Result<Order, LineReason>
    ensures { ReadsPlain (bytes_after rest.entry) result
        (two is_area commands.AreaCreate (words_after rest.entry)) }
{
    let (first, last) = two_numbers(rest)?;
    ranged(is_area(first, last), Brief::AreaCreate(first, last))
}

/// `noarea A B`: the end of a scrolling area.
pub(crate) fn no_area(rest: Option<&[u8]>) -> Result<Order, LineReason>
    ensures { ReadsPlain (bytes_after rest.entry) result
        (two is_area commands.AreaDelete (words_after rest.entry)) }
{
    let (first, last) = two_numbers(rest)?;
    ranged(is_area(first, last), Brief::AreaDelete(first, last))
}

/// `revision N`: the revision of the rules.
pub(crate) fn revision(rest: Option<&[u8]>) -> Result<Order, LineReason>
    ensures { ReadsPlain (bytes_after rest.entry) result
        (one (is_between 1 2) commands.Revision (words_after rest.entry)) }
{
    let number = one_number(rest)?;
    ranged(is_revision(number), Brief::Revision(number))
}
