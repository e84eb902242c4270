ghost use Rattle.std.specs.Prelude.{◌≡◌, ◌≤◌, ◌^◌, [], length, IfErr, IfOk, None, OnOk};
ghost use Rattle.cept_plot.specs.Drawings.{AreValidFigures, SaysFault, figures_of, first_fault, line_meaning};
ghost use Rattle.cept_plot.specs.inside.Kept.{HasFigures, HasKept, IsUnkept};

use crate::figure::Figure;
use crate::line::line_figure;
use cept_codes::LineReason;
use cept_words::first_line;
use std::alloc::{AllocFailed, Global};
use std::marker::Model;

/// Why a drawing isn't read.
#[derive(Clone, Copy, Debug, PartialEq, Eq)]
pub enum DrawFault {
    /// The line of this number, counted from 1, is the first that is outside the grammar, for this
    /// reason.
    BadLine(u32, LineReason),
    /// Out of memory.
    NoMemory,
}

impl<T: Drop> From<AllocFailed<T>> for DrawFault {
    ghost use Rattle.cept_plot.specs.declared.drawing.DrawFault.TheVariants.{NoMemory};

    ghost from_gives = { λ _ fault. fault ≡ NoMemory };

    fn from(_error: AllocFailed<T>) -> DrawFault {
        DrawFault::NoMemory
    }
}

/// A drawing: its figures, in the order of their lines.
#[derive(Drop)]
pub struct Drawing {
    figures: Vec<Figure>,
}

impl Model for Drawing {
    ghost use Rattle.std.specs.Prelude.{List};
    ghost use Rattle.cept_plot.specs.declared.figure.Figure.{Figure as FigureValue};
    ghost use Rattle.cept_plot.specs.Drawings.{AreValidFigures};

    ghost Value = { List FigureValue };

    ghost view = { λ d. d.figures.items };

    ghost invariant = { λ d. AreValidFigures d.figures.items };
}

impl Drawing {
    /// Reads a drawing of at most 2^20 bytes.
    ///
    /// # Errors
    ///
    /// `BadLine` with the first line outside the grammar and the first reason that holds of it, and
    /// `NoMemory` where memory runs out.
    pub fn read(alloc: Global, bytes: &[u8]) -> Result<Drawing, DrawFault>
        requires { length bytes.now ≤ 2 ^ 20 }
        ensures figures { IfOk result (λ drawing. drawing ≡ figures_of bytes.now) }
        ensures good { OnOk result (first_fault bytes.now ≡ None) }
        ensures fault { IfErr result (λ fault. SaysFault (first_fault bytes.now) fault) }
    {
        let mut figures = Vec::new(alloc);
        keep_lines(&mut figures, bytes)?;
        Ok(Drawing { figures })
    }

    /// Its figures, in the order of their lines.
    pub fn figures(&self) -> &[Figure]
        ensures figures { result.now ≡ self.now }
        ensures valid { AreValidFigures result.now }
    {
        self.figures.as_slice()
    }
}

/// Keeps the figure of the line of this number, where it has one.
fn keep_line(figures: &mut Vec<Figure>, line: &[u8], number: u32) -> Result<(), DrawFault>
    ensures kept { OnOk result (HasKept (line_meaning line.now) figures.old.items figures.new.items) }
    ensures fault { IfErr result (λ fault. IsUnkept (line_meaning line.now) number fault) }
{
    match line_figure(line) {
        Ok(None) => Ok(()),
        Ok(Some(figure)) => {
            figures.push(figure)?;
            Ok(())
        }
        Err(reason) => Err(DrawFault::BadLine(number, reason)),
    }
}

/// Keeps the figures of all lines.
fn keep_lines(figures: &mut Vec<Figure>, bytes: &[u8]) -> Result<(), DrawFault>
    requires none { figures.old.items ≡ [] }
    requires few { length bytes.now ≤ 2 ^ 20 }
    ensures figures { OnOk result (HasFigures bytes.now figures.new.items) }
    ensures fault { IfErr result (λ fault. SaysFault (first_fault bytes.now) fault) }
{
    let mut number = 0u32;
    let mut left = bytes;
    while !left.is_empty() {
        let (line, rest) = first_line(left);
        number += 1;
        keep_line(figures, line, number)?;
        left = rest;
    }
    Ok(())
}
