ghost use Rattle.std.specs.Prelude.{◌≡◌, ◌+◌, ◌≤◌, ◌⊎◌, ◌++◌, None, length, IfSome};
ghost use Rattle.std.specs.Prelude.{unwrap_or};
ghost use Rattle.std.specs.Option.{is_some};
ghost use Rattle.cept_codes.specs.Command.{IsGraphic, IsValidCommand};
ghost use Rattle.cept_codes.specs.Glyph.{IsValidGlyph};
ghost use Rattle.cept_control.specs.SignWithin.{is_sign_within, put_alone};
ghost use Rattle.cept_control.specs.inside.Taking.{CanTake};
ghost use Rattle.cept_profile.specs.Control.{control_after, control_with, effect};
ghost use Rattle.cept_profile.specs.Edges.{edges_of};
ghost use Rattle.cept_profile.specs.Sets.{IsAccent, IsValidRead};
ghost use Rattle.cept_profile.specs.Strokes.{strokes_of};
ghost use Rattle.cept_profile.specs.Tiling.{columns_of_size};
ghost use Rattle.cept_profile.specs.Writing.{columns_under, content, control_after_shift};
ghost use Rattle.cept_profile.specs.Writing.{effect_of_copies, effect_of_sign, graphic_read};
ghost use Rattle.cept_profile.specs.Writing.{sign_with_accent};

use crate::control::Control;
use arrayvec::ArrayVec;
use cept_codes::{C1Set, Cell, Command, Glyph, Pos, Read, SetId, Size, Stroke, What};

/// A cell that is put at a place.
#[derive(Clone, Copy, Debug, PartialEq, Eq)]
pub struct PutCell {
    pub place: Pos,
    pub cell: Cell,
}

/// Signs, their copies, and whether written cells are protected.
impl Control {
    /// Takes a graphic byte that gives a sign which moves on within its row, and answers the cell that
    /// is put: its only stroke. Any other command is left to `step`.
    #[inline(always)]
    pub fn step_sign(&mut self, command: &Command) -> Option<PutCell>
        requires { IsValidCommand command.now }
        ensures state { IfSome result (λ put. self.new ≡ control_after self.old command.now) }
        ensures strokes { IfSome result (λ put. strokes_of self.old command.now ≡ put_alone put) }
        ensures edges { edges_of self.new ≡ edges_of self.old }
        ensures left { result ≡ None → self.new ≡ self.old }
        ensures answer { is_some result ≡ is_sign_within self.old command.now }
    {
        let Command::Graphic(byte) = command else {
            return None;
        };
        let column = self.working.column + self.columns_of_sign();
        if column > 40 {
            return None;
        }
        let mut sets = self.working.sets;
        match sets.graphic(*byte, self.working.run) {
            Read::Accent(_) => None,
            Read::Glyph(glyph) => {
                let sign = sign_with_accent(glyph, self.working.accent);
                let place = self.active();
                let cell = self.cell_of(sign);
                self.working.sets = sets;
                self.working.column = column;
                self.working.last = Some(sign);
                self.working.accent = None;
                Some(PutCell { place, cell })
            }
        }
    }

    pub(crate) fn protection(&mut self, on: bool)
        ensures { self.new ≡ (effect self.old (Command.Protect on)).0 }
    {
        self.working.protect = on;
    }

    pub(crate) fn graphic(&mut self, byte: u8, strokes: &mut ArrayVec<Stroke, 128>)
        requires { CanTake (Command.Graphic byte) strokes.old.items }
        ensures state { self.new ≡ (effect self.old (Command.Graphic byte)).0 }
        ensures strokes { strokes.new.items ≡ (effect self.old (Command.Graphic byte)).1 }
    {
        match self.take(byte) {
            Read::Accent(code) => self.working.accent = Some(code),
            Read::Glyph(glyph) => {
                let sign = sign_with_accent(glyph, self.working.accent);
                self.write(sign, strokes);
            }
        }
    }

    pub(crate) fn repeat_last(&mut self, count: u8, strokes: &mut ArrayVec<Stroke, 128>)
        requires { CanTake (Command.Repeat count) strokes.old.items }
        ensures state { self.new ≡ (effect self.old (Command.Repeat count)).0 }
        ensures strokes { strokes.new.items ≡ (effect self.old (Command.Repeat count)).1 }
    {
        if let Some(sign) = self.working.last {
            self.write_copies(sign, count, strokes);
        }
    }

    fn write_copies(&mut self, sign: Glyph, count: u8, strokes: &mut ArrayVec<Stroke, 128>)
        requires copies { CanTake (Command.Repeat count) strokes.old.items }
        requires valid { IsValidGlyph sign }
        ensures state { self.new ≡ control_with self.old (effect_of_copies count self.old sign).0 }
        ensures strokes { strokes.new.items ≡ (effect_of_copies count self.old sign).1 }
    {
        for _copy in 0..count {
            self.write(sign, strokes);
        }
    }

    /// What a graphic byte gives, by the sets.
    fn take(&mut self, byte: u8) -> Read
        requires { IsGraphic byte }
        ensures read { result ≡ graphic_read self.old byte }
        ensures state { self.new ≡ control_after_shift self.old }
        ensures valid { IsValidRead result }
    {
        self.working.sets.graphic(byte, self.working.run)
    }

    /// Writes a sign at the position, which moves on.
    #[inline(always)]
    fn write(&mut self, sign: Glyph, strokes: &mut ArrayVec<Stroke, 128>)
        requires valid { IsValidGlyph sign }
        requires room { length strokes.old.items + 2 ≤ 128 }
        ensures state { self.new ≡ control_with self.old (effect_of_sign self.old sign).0 }
        ensures strokes { strokes.new.items ≡ strokes.old.items ++ (effect_of_sign self.old sign).1 }
    {
        let columns = self.columns_of_sign();
        let cell = self.cell_of(sign);
        strokes.push(Stroke::Put(self.active(), cell));
        self.move_on(columns, strokes);
        self.working.last = Some(sign);
        self.working.accent = None;
    }

    /// How many columns a sign moves on.
    fn columns_of_sign(&self) -> u8
        ensures columns { result ≡ columns_under self.now.working.c1 self.now.working }
        ensures few { result ≤ 2 }
    {
        match self.working.c1 {
            C1Set::Parallel => columns_of_set(self.working.pen.size),
            C1Set::Serial => self.working.step,
        }
    }

    /// The cell that a sign makes.
    fn cell_of(&self, sign: Glyph) -> Cell
        ensures { result ≡ record {
          what = content self.now.working.c1 sign self.now.working.pen;
          protected = self.now.working.protect;
        } }
    {
        let what = match self.working.c1 {
            C1Set::Parallel => What::Parallel(sign, self.working.pen),
            C1Set::Serial => What::Serial(sign),
        };
        Cell {
            what,
            protected: self.working.protect,
        }
    }
}

/// How many columns a sign with this size set takes.
fn columns_of_set(size: Option<Size>) -> u8
    ensures columns { result ≡ columns_of_size (unwrap_or size Size.Normal) }
    ensures few { result ≤ 2 }
{
    match size {
        Some(size) => columns_of_size(size),
        None => 1,
    }
}

/// How many columns a sign of this size takes.
pub(crate) fn columns_of_size(size: Size) -> u8
    ensures columns { result ≡ columns_of_size size }
    ensures one_or_two { (result ≡ 1) ⊎ (result ≡ 2) }
{
    match size {
        Size::Normal | Size::High => 1,
        Size::Wide | Size::Both => 2,
    }
}

/// A sign with the accent that waits for it: only signs of the primary set take one.
fn sign_with_accent(sign: Glyph, accent: Option<u8>) -> Glyph
    requires sign { IsValidGlyph sign }
    requires accent { IfSome accent IsAccent }
    ensures sign { result ≡ sign_with_accent sign.set sign.code accent }
    ensures valid { IsValidGlyph result }
{
    let accent = match (sign.set, accent) {
        (SetId::P, Some(code)) => code,
        _ => 0,
    };
    Glyph { accent, ..sign }
}
