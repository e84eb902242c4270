ghost use Rattle.std.specs.Prelude.{◌≡◌, ◌≤◌, length};
ghost use Rattle.std.specs.List.{AllByRecursion};
ghost use Rattle.cept_codes.specs.Command.{IsValidCommand};
ghost use Rattle.cept_codes.specs.Stroke.{IsValidStroke};
ghost use Rattle.cept_control.specs.inside.Taking.{CanTake};
ghost use Rattle.cept_profile.specs.Control.{control_after, effect, initial_control};
ghost use Rattle.cept_profile.specs.Control.{state_for_effect};
ghost use Rattle.cept_profile.specs.Strokes.{strokes_of};
ghost use Rattle.cept_profile.specs.Valid.{IsValidControl};

use crate::working::Working;
use arrayvec::ArrayVec;
use cept_charsets::Sets;
use cept_codes::{C1Set, Command, Pen, Pos, Stroke, Up};
use std::marker::Model;

/// The state of control: the position, the sets, a waiting accent, the pen and the modes.
#[derive(Clone, Copy, Debug)]
pub struct Control {
    pub(crate) working: Working,
    pub(crate) rows: u8,
    pub(crate) wrap: bool,
    pub(crate) area: Option<(u8, u8)>,
    pub(crate) implicit: bool,
    pub(crate) revision: u8,
    pub(crate) kept: Option<Working>,
}

impl Model for Control {
    ghost use Rattle.cept_profile.specs.Control.{ControlState};

    ghost Value = { ControlState };

    ghost use Rattle.cept_profile.specs.Valid.{IsValidControl};
    ghost use Rattle.cept_control.specs.Fields.{state_of, state_fields};

    ghost view = { state_of };

    ghost invariant = { λ c. IsValidControl (state_of c) };

    ghost inverse = { state_fields };
}

impl Control {
    /// The state at the start: the first place of 24 rows, with wrap, under the parallel set and the
    /// first revision of the rules, and with no attribute set.
    pub fn new() -> Control
        ensures start { result ≡ initial_control }
        ensures valid { IsValidControl result }
    {
        Control {
            working: Working::new(),
            rows: 24,
            wrap: true,
            area: None,
            implicit: false,
            revision: 1,
            kept: None,
        }
    }

    /// Takes one command: it answers the command's strokes in their order, and leaves the state
    /// after it.
    pub fn step(&mut self, command: Command) -> ArrayVec<Stroke, 128>
        requires { IsValidCommand command }
        ensures state { self.new ≡ control_after self.old command }
        ensures strokes { result.items ≡ strokes_of self.old command }
        ensures was_valid { IsValidControl self.old }
        ensures valid { IsValidControl self.new }
        ensures valid_strokes { AllByRecursion IsValidStroke result.items }
        ensures few { length result.items ≤ 128 }
    {
        let mut strokes = ArrayVec::new();
        self.step_into(&command, &mut strokes);
        strokes
    }

    /// The same, with the strokes left in a list of the caller's, which saves the copy of a whole
    /// list.
    // It and what it calls are joined to each caller, since every item goes through them.
    #[inline(always)]
    pub fn step_into(&mut self, command: &Command, strokes: &mut ArrayVec<Stroke, 128>)
        requires { IsValidCommand command.now }
        ensures state { self.new ≡ control_after self.old command.now }
        ensures strokes { strokes.new.items ≡ strokes_of self.old command.now }
        ensures was_valid { IsValidControl self.old }
        ensures valid { IsValidControl self.new }
        ensures valid_strokes { AllByRecursion IsValidStroke strokes.new.items }
        ensures few { length strokes.new.items ≤ 128 }
    {
        strokes.clear();
        self.prepare(command);
        self.take_effect(command, strokes);
    }

    /// The state is valid: each call keeps it so, and a caller that needs the fact learns it here.
    pub fn known(&self)
        ensures { IsValidControl self.now }
    {
        // A field that is read opens the model, so that what it promises is known.
        let _rows = self.rows;
    }

    /// The position at which the next sign is written.
    pub fn active(&self) -> Pos
        ensures row { result.row ≡ self.now.working.row }
        ensures column { result.column ≡ self.now.working.column }
    {
        Pos::new(self.working.row, self.working.column).unwrap()
    }

    /// The C1 set in force.
    pub fn c1(&self) -> C1Set
        ensures c1 { result ≡ self.now.working.c1 }
    {
        self.working.c1
    }

    /// The sets that are designated, and the shifts in force.
    pub fn sets(&self) -> Sets
        ensures sets { result ≡ self.now.working.sets }
    {
        self.working.sets
    }

    /// The accent that waits for its sign, 4/0 to 4/15, `None` where none waits.
    pub fn accent(&self) -> Option<u8>
        ensures accent { result ≡ self.now.working.accent }
    {
        self.working.accent
    }

    /// The attributes with which signs are written under the parallel set.
    pub fn pen(&self) -> Pen
        ensures pen { result ≡ self.now.working.pen }
    {
        self.working.pen
    }

    /// The colour table from which colours are taken, 0 to 3.
    pub fn table(&self) -> u8
        ensures table { result ≡ self.now.working.table }
    {
        self.working.table
    }

    /// Whether cells that are written become protected.
    pub fn protect(&self) -> bool
        ensures protect { result ≡ self.now.working.protect }
    {
        self.working.protect
    }

    /// How many rows the page has, 24 or 20.
    pub fn rows(&self) -> u8
        ensures rows { result ≡ self.now.rows }
    {
        self.rows
    }

    /// Whether positions go on over the ends of rows and of the page.
    pub fn wrap(&self) -> bool
        ensures wrap { result ≡ self.now.wrap }
    {
        self.wrap
    }

    /// The first and the last row of the scrolling area, `None` where there is no area.
    pub fn area(&self) -> Option<(u8, u8)>
        ensures area { result ≡ self.now.area }
    {
        self.area
    }

    /// Whether moving past the ends of the area scrolls it.
    pub fn implicit(&self) -> bool
        ensures implicit { result ≡ self.now.implicit }
    {
        self.implicit
    }

    /// The revision of the rules, 1 or 2.
    pub fn revision(&self) -> u8
        ensures revision { result ≡ self.now.revision }
    {
        self.revision
    }

    /// Every command but four takes effect without an accent that waits.
    fn prepare(&mut self, command: &Command)
        ensures ready { self.new ≡ state_for_effect self.old command.now }
        ensures was_valid { IsValidControl self.old }
    {
        // A field that is read opens the model, so that what it promises is known.
        let _row = self.working.row;
        match command {
            Command::Nul | Command::Skipped | Command::Graphic(_) | Command::ServiceBreak(_) => {}
            _ => self.working.accent = None,
        }
    }

    /// What the command does, one call for each.
    #[inline(always)]
    fn take_effect(&mut self, command: &Command, strokes: &mut ArrayVec<Stroke, 128>)
        requires { CanTake command.now strokes.old.items }
        ensures state { self.new ≡ (effect self.old command.now).0 }
        ensures strokes { strokes.new.items ≡ (effect self.old command.now).1 }
    {
        match command {
            Command::Back => self.back(strokes),
            Command::Forward => self.forward(strokes),
            Command::Down => self.down(strokes),
            Command::Up => self.up(strokes),
            Command::Return => self.to_first_column(),
            Command::Home => self.home(),
            Command::Clear => self.clear(strokes),
            Command::Position(row, column) => self.to_position(*row, *column),
            Command::LockLeft(g) => self.lock_left(*g),
            Command::LockRight(g) => self.lock_right(*g),
            Command::Single(g) => self.single(*g),
            Command::Designate(g, set) => self.designate(*g, *set),
            Command::Graphic(byte) => self.graphic(*byte, strokes),
            Command::Repeat(count) => self.repeat_last(*count, strokes),
            Command::Cancel => self.cancel(strokes),
            Command::C1(n) => self.c1_code(*n, strokes),
            Command::FlashMode(mode) => self.flash_mode(*mode, strokes),
            Command::StopConceal => self.stop_conceal(strokes),
            Command::DesignateC1(set) => self.designate_c1(*set),
            Command::Table(table) => self.colour_table(*table),
            Command::FullScreen(n) => self.full_screen(*n, strokes),
            Command::FullRow(n) => self.full_row(*n, strokes),
            Command::ColourDefaults => self.colour_defaults(strokes),
            Command::Entry(i, colour) => self.colour_entry(*i, *colour, strokes),
            Command::Dclut(i, entry) => self.dclut_entry(*i, *entry, strokes),
            Command::DrcsHeader(delete, _) => self.drcs_header(*delete, strokes),
            Command::DrcsPattern(code, pattern) => self.drcs_pattern(*code, pattern, strokes),
            Command::ScrollUp => self.scroll_area(Up::Up, self.area_in_force(), strokes),
            Command::ScrollDown => self.scroll_area(Up::Down, self.area_in_force(), strokes),
            Command::Implicit(on) => self.implicit_scrolling(*on),
            Command::Protect(on) => self.protection(*on),
            Command::AreaCreate(first, last) => self.create_area(*first, *last),
            Command::AreaDelete(first, last) => self.delete_area(*first, *last),
            Command::Format(rows, wrap) => self.format(*rows, *wrap, strokes),
            Command::ControlDefaults(set) => self.control_defaults(*set),
            Command::FullDefaults(set) => self.full_defaults(*set, strokes),
            Command::ServiceBreak(row) => self.service_break(*row),
            Command::ServiceEnd => self.service_end(),
            Command::Revision(revision) => self.choose_revision(*revision),
            // these leave control as it is
            Command::Nul
            | Command::Skipped
            | Command::CursorOn
            | Command::CursorOff
            | Command::Marked(_)
            | Command::ColourHeader(_)
            | Command::ColourStart(_)
            | Command::DrcsStart(_) => {}
        }
    }
}
