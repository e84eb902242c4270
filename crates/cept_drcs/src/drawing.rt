ghost use Rattle.std.specs.Prelude.{◌≡◌, ◌≤◌, ◌<◌, ◌+◌, ◌*◌, ◌-◌, ◌^◌, length, replicate};
ghost use Rattle.std.specs.Prelude.{true, false, ◌&&◌, nat_lt, None};
ghost use Rattle.cept_codes.specs.Command.{IsValidForm};
ghost use Rattle.cept_drcs.specs.Kept.{plane_end, IsFed, IsPlaneOf};
ghost use Rattle.cept_drcs.specs.inside.Kept.{HasRoomFor};
ghost use Rattle.cept_drcs.specs.Strips.{strips_in};
ghost use Rattle.cept_drcs.specs.inside.Strips.{strip_line};

use crate::lines::{first_line, has_pixels, is_opener, is_sign};
use crate::strips::Strips;
use cept_codes::{Form, Pattern};
use std::marker::Model;

/// A line of 12 pixels in two strips. A line of six is the right one alone.
#[derive(Clone, Copy)]
struct Line {
    left: u8,
    right: u8,
}

/// A pattern as far as its bytes are read, one by one.
#[derive(Drop)]
pub struct Drawing {
    form: Form,
    begun: bool,
    plane: u8,
    /// How many strips there are when the open plane has all its lines. Before the first byte it is
    /// 0.
    end: u8,
    strips: Strips,
}

impl Model for Drawing {
    ghost use Rattle.cept_drcs.specs.Loading.{Loading};
    ghost use Rattle.cept_drcs.specs.Strips.{whole_lines, half_of};

    ghost Value = { Loading };

    ghost use Rattle.cept_drcs.specs.Kept.{IsKeptDrawing};

    ghost view = { λ l. record {
      form = l.form;
      begun = l.begun;
      plane = l.plane;
      lines = whole_lines l.form.w l.strips;
      half = half_of l.form.w l.strips;
    } };

    ghost invariant = { λ l. IsKeptDrawing l.form l.begun l.plane l.end l.strips };
}

impl Drawing {
    ghost use Rattle.cept_drcs.specs.Loading.{fresh, above, room, before, takes, loading_after};
    ghost use Rattle.cept_drcs.specs.Loading.{all_lines, loading_at_plane, loading_with};
    ghost use Rattle.cept_drcs.specs.inside.Loading.{completed_loading};
    ghost use Rattle.cept_drcs.specs.Loading.{is_full};
    ghost use Rattle.cept_drcs.specs.Unit.{lines_from};
    ghost use Rattle.cept_drcs.specs.Loading.{pattern_of};
    ghost use Rattle.cept_drcs.specs.Block.{sign_lines, has_pixels};
    ghost use Rattle.cept_drcs.specs.Adding.{adds, whole, is_sign};

    /// A pattern before its first byte.
    pub fn new(form: Form) -> Drawing
        requires { IsValidForm form }
        ensures { result ≡ fresh form }
    {
        Drawing {
            form,
            begun: false,
            plane: 0,
            end: 0,
            strips: Strips::new(),
        }
    }

    /// Begins anew with a pattern of this form.
    pub fn restart(&mut self, form: Form)
        requires { IsValidForm form }
        ensures { self.new ≡ fresh form }
    {
        self.form = form;
        self.begun = false;
        self.plane = 0;
        self.end = 0;
        self.strips.clear();
    }

    /// Whether the open plane has lines left.
    fn has_room(&self) -> bool
        ensures { result ≡ self.now.begun && nat_lt 0 (room self.now) }
    {
        self.strips.len() < self.end
    }

    /// Whether a byte without pixels continues the pattern.
    fn takes_other(&self, byte: u8) -> bool
        requires { has_pixels byte ≡ false }
        ensures { result ≡ takes self.now byte }
    {
        if !self.begun {
            byte == 0x30
        } else if is_opener(byte) {
            self.plane < byte - 0x30 && byte - 0x30 < self.form.planes
        } else {
            is_sign(byte) && self.has_room()
        }
    }

    /// Opens plane 0.
    fn begin(&mut self)
        requires { self.old.begun ≡ false }
        ensures { self.new ≡ record self.old { begun = true } }
    {
        self.begun = true;
        self.end = plane_end(&self.form, self.plane);
    }

    /// Completes a half line with pixels of 0.
    fn complete(&mut self)
        ensures completed { self.new ≡ completed_loading self.old }
        ensures earlier { above self.old ≤ length self.old.lines }
    {
        if self.form.w != 6 {
            let count = self.strips.len();
            self.strips.pad(count + count % 2);
        }
    }

    /// Opens a plane.
    fn open(&mut self, plane: u8)
        requires begun { self.old.begun ≡ true }
        requires plane { plane < self.old.form.planes }
        requires earlier { length (all_lines self.old) ≤ plane * self.old.form.h }
        ensures { self.new ≡ loading_at_plane self.old plane }
    {
        self.complete();
        self.strips.pad(plane_start(&self.form, plane));
        self.plane = plane;
        self.end = plane_end(&self.form, plane);
    }

    /// How many lines the open plane has left.
    fn room(&self) -> u8
        requires begun { self.now.begun ≡ true }
        requires whole { self.now.half ≡ None }
        ensures { result ≡ room self.now }
    {
        let strips = self.end - self.strips.len();
        if self.form.w == 6 { strips } else { strips / 2 }
    }

    /// The line before.
    fn before(&self) -> Line
        requires { self.now.half ≡ None }
        ensures { strip_line self.now.form.w result.left result.right ≡ before self.now }
    {
        let count = self.strips.len();
        if count == plane_start(&self.form, self.plane) {
            Line { left: 0, right: 0 }
        } else {
            // In the width of six the left one is free.
            Line {
                left: self.strips.at(count.saturating_sub(2)),
                right: self.strips.at(count - 1),
            }
        }
    }

    /// Draws the line before so many times.
    fn repeat(&mut self, lines: u8)
        requires { HasRoomFor self.old lines }
        ensures { self.new ≡ loading_with self.old (whole (replicate lines (before self.old))) }
    {
        let line = self.before();
        if self.form.w == 6 {
            self.strips.add(lines, line.right);
        } else {
            self.strips.add_pairs(lines, line.left, line.right);
        }
    }

    /// Draws so many lines of 0.
    fn skip(&mut self, lines: u8)
        requires { HasRoomFor self.old lines }
        ensures { self.new ≡ loading_with self.old (whole (replicate lines 0)) }
    {
        let strips = strips_in(&self.form, lines);
        self.strips.pad(self.strips.len() + strips);
    }

    /// Draws so many lines of 1.
    fn fill(&mut self, lines: u8)
        requires { HasRoomFor self.old lines }
        ensures { self.new ≡ loading_with self.old (whole (replicate lines (2 ^ self.old.form.w - 1))) }
    {
        let strips = strips_in(&self.form, lines);
        self.strips.add(strips, 0x3F);
    }

    /// Draws the lines of a sign where there is no half line.
    fn whole_sign(&mut self, byte: u8)
        requires begun { self.old.begun ≡ true }
        requires whole { self.old.half ≡ None }
        ensures { self.new ≡ loading_with self.old
            (whole (sign_lines self.old.form.w (room self.old) (before self.old) byte)) }
    {
        let room = self.room();
        match byte {
            0x21..=0x2A => self.repeat((byte - 0x20).min(room)),
            0x20 => self.skip(room),
            0x2C => self.skip(room.min(1)),
            0x2D => self.fill(room.min(1)),
            0x2E => self.repeat(room),
            _ => self.fill(room),
        }
    }

    /// Draws six pixels.
    fn pixels(&mut self, byte: u8)
        requires room { 0 < room self.old }
        requires pixels { has_pixels byte ≡ true }
        ensures { self.new ≡ loading_with self.old
            (adds self.old.form.w (room self.old) (before self.old) self.old.half byte) }
    {
        self.strips.push(byte);
    }

    /// Takes a byte without pixels that continues the pattern.
    #[tactic(auto, unfolding(crate::specs::Loading::loading_after))]
    fn take_other(&mut self, byte: u8)
        requires pixels { has_pixels byte ≡ false }
        requires taken { takes self.old byte ≡ true }
        ensures { self.new ≡ loading_after self.old byte }
    {
        if !self.begun {
            self.begin();
        } else if is_opener(byte) {
            self.open(byte - 0x30);
        } else {
            self.complete();
            self.whole_sign(byte);
        }
    }

    /// The same as `feed`, of a byte without pixels. It stands alone, since nearly all bytes of a
    /// pattern have pixels.
    #[inline(never)]
    fn feed_other(&mut self, byte: u8) -> bool
        requires { has_pixels byte ≡ false }
        ensures { IsFed self.old byte result self.new }
    {
        if self.takes_other(byte) {
            self.take_other(byte);
            true
        } else {
            false
        }
    }

    /// Takes one byte more, unless it doesn't continue the pattern: then nothing changes.
    pub fn feed(&mut self, byte: u8) -> bool
        ensures { IsFed self.old byte result self.new }
    {
        if has_pixels(byte) {
            if self.has_room() {
                self.pixels(byte);
                true
            } else {
                false
            }
        } else {
            self.feed_other(byte)
        }
    }

    /// Whether the last plane is open and has all its lines.
    pub fn is_full(&self) -> bool
        ensures { result ≡ is_full self.now }
    {
        if self.has_room() {
            false
        } else {
            self.begun && self.plane + 1 == self.form.planes
        }
    }

    /// The pattern of the lines drawn.
    pub fn pattern(&self) -> Pattern
        ensures { result
            ≡ pattern_of self.now.form (lines_from self.now.form.w 0 (all_lines self.now)) }
    {
        Pattern {
            w: self.form.w,
            h: self.form.h,
            planes: self.form.planes,
            bits: self.strips.words(),
        }
    }
}

/// How many strips stand before a plane.
fn plane_start(form: &Form, plane: u8) -> u8
    requires { IsPlaneOf form.now plane }
    ensures start { result ≡ strips_in form.now.w (plane * form.now.h) }
    ensures few { result ≤ 96 }
{
    strips_in(form, first_line(form, plane))
}

/// How many strips there are when a plane has all its lines.
fn plane_end(form: &Form, plane: u8) -> u8
    requires { IsPlaneOf form.now plane }
    ensures end { result ≡ plane_end form.now plane }
    ensures few { result ≤ 96 }
{
    strips_in(form, first_line(form, plane) + form.h)
}

/// How many strips so many lines are.
fn strips_in(form: &Form, lines: u8) -> u8
    requires { lines ≤ 48 }
    ensures strips { result ≡ strips_in form.now.w lines }
    ensures few { result ≤ 96 }
{
    if form.w == 6 { lines } else { 2 * lines }
}
