ghost use Rattle.std.specs.Prelude.{◌≡◌, ◌+◌, ◌*◌, ◌≤◌, ◌<◌, ◌++◌, ◌==◌, length};
ghost use Rattle.std.specs.Prelude.{if◌then◌else◌, unwrap_or};
ghost use Rattle.cept_codes.specs.Place.{place_of};
ghost use Rattle.cept_codes.specs.Same.{same_glyph, same_set};
ghost use Rattle.cept_parser.specs.Spelling.{spellings};
ghost use Rattle.cept_profile.specs.Tiling.{columns_of_size};
ghost use Rattle.cept_writer.specs.Room.{Adds, HasRoomFor};
ghost use Rattle.cept_writer.specs.declared.link.Link.TheVariants as links;
ghost use Rattle.cept_writer.specs.SegmentCommands.{ends_segment};
ghost use Rattle.cept_writer.specs.SegmentCommands.{is_written_on};
ghost use Rattle.cept_writer.specs.SegmentCommands.{closing_commands, manner_commands};
ghost use Rattle.cept_writer.specs.SegmentCommands.{opening_commands, unit_commands};
ghost use Rattle.cept_writer.specs.SegmentPieces.{beginning_of, closing_before, ending_of};
ghost use Rattle.cept_writer.specs.SegmentPieces.{link_of, link_within, opening_after, piece_with};
ghost use Rattle.cept_writer.specs.SegmentPieces.{run_before, run_in, run_of};

use crate::attributes::add_pen;
use crate::cells::{add_accented, add_marker, add_single};
use crate::link::Link;
use crate::list::{Commands, Reach};
use cept_codes::{C1Set, Cell, Command, Glyph, Marker, Pen, Pos, SetId, Size, What};

/// Whether the signs of a pen take one column.
fn takes_one_column(pen: &Pen) -> bool
    ensures { result ≡ (columns_of_size (unwrap_or pen.now.size Size.Normal) == 1) }
{
    match pen.size {
        None | Some(Size::Normal) | Some(Size::High) => true,
        Some(Size::Wide) | Some(Size::Both) => false,
    }
}

/// Whether a marker ends its segment.
fn ends_segment(marker: &Marker) -> bool
    ensures { result ≡ ends_segment marker.now }
{
    match marker {
        Marker::Mosaic(_) | Marker::Size(_) => true,
        Marker::Alpha(_)
        | Marker::BlackBack
        | Marker::NewBack
        | Marker::Hold
        | Marker::Release
        | Marker::Flash(_)
        | Marker::Conceal(_)
        | Marker::Lined(_)
        | Marker::Boxed(_) => false,
    }
}

/// Whether what stands in a cell may be written on after what stands left of it.
fn is_written_on(left: &What, right: &What) -> bool
    ensures { result ≡ is_written_on left.now right.now }
{
    match (left, right) {
        (What::Parallel(_, pen), What::Parallel(_, next)) => pen == next && takes_one_column(pen),
        (What::Serial(_), What::Serial(_)) | (What::Serial(_), What::Marker(_)) => true,
        (What::Marker(marker), What::Serial(_)) | (What::Marker(marker), What::Marker(_)) => {
            !ends_segment(marker)
        }
        _ => false,
    }
}

/// How a sign of a segment goes on from one.
fn link_of_signs(left: &Glyph, right: &Glyph) -> Link
    ensures { result ≡ (if same_set left.now.set right.now.set
        then (if same_glyph left.now right.now then links.Equal else links.Set)
        else links.Segment) }
{
    if left.set == right.set {
        if left == right {
            Link::Equal
        } else {
            Link::Set
        }
    } else {
        Link::Segment
    }
}

/// How what stands in a cell of a segment goes on from what stands left of it.
fn link_within(left: &What, right: &What) -> Link
    ensures { result ≡ link_within left.now right.now }
{
    match (left, right) {
        (What::Serial(g), What::Serial(h)) => link_of_signs(g, h),
        (What::Serial(g), What::Parallel(h, _)) => link_of_signs(g, h),
        (What::Parallel(g, _), What::Serial(h)) => link_of_signs(g, h),
        (What::Parallel(g, _), What::Parallel(h, _)) => link_of_signs(g, h),
        _ => Link::Segment,
    }
}

/// How a cell goes on from the one before it in reading order, which has this number.
pub fn link(n: u16, left: &Cell, right: &Cell) -> Link
    requires { n < 960 }
    ensures { result
        ≡ link_of (record {
          place = place_of n;
          cell = left.now;
        }) (record {
          place = place_of (n + 1);
          cell = right.now;
        }) }
{
    let beside = n % 40 < 39;
    if beside && left.protected == right.protected && is_written_on(&left.what, &right.what) {
        link_within(&left.what, &right.what)
    } else {
        Link::Apart
    }
}

/// How many bytes a sign takes among those of its set.
#[tactic(auto, unfolding(cept_parser::specs::Spelling::spelling))]
fn unit_length(glyph: &Glyph) -> u16
    ensures length { result ≡ length (spellings (unit_commands glyph.now)) }
    ensures some { 1 ≤ result }
    ensures few { result ≤ 3 }
{
    match glyph.set {
        SetId::M | SetId::D => 1,
        SetId::S | SetId::N => 2,
        SetId::P => { if glyph.accent == 0 { 1 } else { 3 } }
    }
}

/// Adds a sign among those of its set.
fn add_unit(list: &mut Commands, glyph: &Glyph)
    requires { HasRoomFor 3 list.old }
    ensures { Adds list.old 3 (unit_commands glyph.now) list.new }
{
    match glyph.set {
        SetId::P => add_accented(list, glyph.code, glyph.accent),
        SetId::S => add_single(list, 2, glyph.code),
        SetId::N => add_single(list, 3, glyph.code),
        SetId::M | SetId::D => list.add(Command::Graphic(glyph.code)),
    }
}

/// Adds a sign and copies of it, repeated where that is shorter.
fn add_run(list: &mut Commands, copies: u8, glyph: &Glyph)
    requires { HasRoomFor 9 list.old }
    ensures { Adds list.old 9 (run_of copies glyph.now) list.new }
{
    add_unit(list, glyph);
    if 3 <= u16::from(copies) * unit_length(glyph) {
        list.add(Command::Repeat(copies));
    } else if copies > 0 {
        add_unit(list, glyph);
        if copies > 1 {
            add_unit(list, glyph);
        }
    }
}

/// Adds what comes before the signs of a set.
fn add_opening(list: &mut Commands, set: SetId)
    requires { HasRoomFor 1 list.old }
    ensures { Adds list.old 1 (opening_commands set) list.new }
{
    match set {
        SetId::M => list.add(Command::LockLeft(1)),
        SetId::D => list.add(Command::Designate(0, SetId::D)),
        SetId::P | SetId::S | SetId::N => {}
    }
}

/// Adds what comes after them.
fn add_closing(list: &mut Commands, set: SetId)
    requires { HasRoomFor 1 list.old }
    ensures { Adds list.old 1 (closing_commands set) list.new }
{
    match set {
        SetId::M => list.add(Command::LockLeft(0)),
        SetId::D => list.add(Command::Designate(0, SetId::P)),
        SetId::P | SetId::S | SetId::N => {}
    }
}

/// Adds what begins a segment, where the cell continues none.
fn add_beginning(list: &mut Commands, before: Link, at: Pos, cell: &Cell)
    requires { HasRoomFor 19 list.old }
    ensures { Adds list.old 19
        (beginning_of before (record { place = at; cell = cell.now })) list.new }
{
    match before {
        Link::Apart => {
            list.add(Command::Position(at.row(), at.col()));
            if cell.protected {
                list.add(Command::Protect(true));
            }
            add_manner(list, &cell.what);
        }
        Link::Segment | Link::Set | Link::Equal => {}
    }
}

/// Adds the C1 set of what stands in a cell, with the pen of a sign under the parallel set.
fn add_manner(list: &mut Commands, what: &What)
    requires { HasRoomFor 17 list.old }
    ensures { Adds list.old 17 (manner_commands what.now) list.new }
{
    match what {
        What::Blank => {}
        What::Serial(_) | What::Marker(_) => list.add(Command::DesignateC1(C1Set::Serial)),
        What::Parallel(_, pen) => {
            list.add(Command::DesignateC1(C1Set::Parallel));
            add_pen(list, Reach::Signs, pen);
        }
    }
}

/// Adds what comes before the signs of a set, where the cell doesn't go on with one.
fn add_opening_after(list: &mut Commands, before: Link, what: &What)
    requires { HasRoomFor 1 list.old }
    ensures { Adds list.old 1 (opening_after before what.now) list.new }
{
    match (before, what) {
        (Link::Apart, What::Serial(g)) | (Link::Apart, What::Parallel(g, _)) => {
            add_opening(list, g.set)
        }
        (Link::Segment, What::Serial(g)) | (Link::Segment, What::Parallel(g, _)) => {
            add_opening(list, g.set)
        }
        _ => {}
    }
}

/// Adds what comes after the signs of a set, where the next cell doesn't go on with one.
fn add_closing_before(list: &mut Commands, what: &What, after: Link)
    requires { HasRoomFor 1 list.old }
    ensures { Adds list.old 1 (closing_before what.now after) list.new }
{
    match (after, what) {
        (Link::Apart, What::Serial(g)) | (Link::Apart, What::Parallel(g, _)) => {
            add_closing(list, g.set)
        }
        (Link::Segment, What::Serial(g)) | (Link::Segment, What::Parallel(g, _)) => {
            add_closing(list, g.set)
        }
        _ => {}
    }
}

/// Adds a sign after so many equal ones, or a marker.
fn add_run_in(list: &mut Commands, copies: u8, what: &What)
    requires { HasRoomFor 9 list.old }
    ensures { Adds list.old 9 (run_in copies what.now) list.new }
{
    match what {
        What::Blank => {}
        What::Serial(g) | What::Parallel(g, _) => add_run(list, copies, g),
        What::Marker(m) => add_marker(list, m),
    }
}

/// Adds equal signs at their last, or a marker.
fn add_run_before(list: &mut Commands, copies: u8, what: &What, after: Link)
    requires { HasRoomFor 9 list.old }
    ensures { Adds list.old 9 (run_before copies what.now after) list.new }
{
    match after {
        Link::Equal => {}
        Link::Apart | Link::Segment | Link::Set => add_run_in(list, copies, what),
    }
}

/// Adds the end of protection after a segment, where no cell continues this one.
fn add_ending(list: &mut Commands, cell: &Cell, at: Pos, after: Link)
    requires { HasRoomFor 1 list.old }
    ensures { Adds list.old 1 (ending_of (record { place = at; cell = cell.now }) after) list.new }
{
    match after {
        Link::Apart => {
            if cell.protected {
                list.add(Command::Protect(false));
            }
        }
        Link::Segment | Link::Set | Link::Equal => {}
    }
}

/// Adds the piece of a cell, nothing where nothing stands in it.
pub fn add_piece(list: &mut Commands, before: Link, copies: u8, at: Pos, cell: &Cell, after: Link)
    requires { HasRoomFor 31 list.old }
    ensures { list.new
        ≡ list.old ++ piece_with before copies (record {
          place = at;
          cell = cell.now;
        }) after cell.now.what }
{
    match cell.what {
        What::Blank => {}
        What::Serial(_) | What::Parallel(_, _) | What::Marker(_) => {
            add_beginning(list, before, at, cell);
            add_opening_after(list, before, &cell.what);
            add_run_before(list, copies, &cell.what, after);
            add_closing_before(list, &cell.what, after);
            add_ending(list, cell, at, after);
        }
    }
}
