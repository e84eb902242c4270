ghost use Rattle.std.specs.Prelude.{◌≡◌, IfOk, IfSome};
ghost use Rattle.cept_words.specs.Lines.{words};
ghost use Rattle.cept_words.specs.Words.{words_after};
ghost use Rattle.cept_plot.specs.Drawings.{figure_of, figure_of_words, line_meaning};
ghost use Rattle.cept_plot.specs.Figures.{IsValidFigure};

use crate::figure::Figure;
use crate::word::{one_point, two_points};
use cept_codes::LineReason;
use cept_words::first_word;

/// The figure of a word, with what stands after it.
#[tactic(auto, unfolding(crate::specs::Drawings::figure_of))]
fn figure_of(word: &[u8], rest: Option<&[u8]>) -> Result<Figure, LineReason>
    ensures meant { result ≡ figure_of word.now (words_after rest.entry) }
    ensures valid { IfOk result IsValidFigure }
{
    if word == b"plot".as_slice() {
        Ok(Figure::Plot(one_point(rest)?))
    } else if word == b"unplot".as_slice() {
        Ok(Figure::Unplot(one_point(rest)?))
    } else if word == b"line".as_slice() {
        let (from, to) = two_points(rest)?;
        Ok(Figure::Line(from, to))
    } else if word == b"box".as_slice() {
        let (a, b) = two_points(rest)?;
        Ok(Figure::Sides(a, b))
    } else if word == b"wipe".as_slice() {
        let (a, b) = two_points(rest)?;
        Ok(Figure::Wipe(a, b))
    } else {
        Err(LineReason::UnknownWord)
    }
}

/// The figure of the words of a line.
fn words_figure(line: &[u8]) -> Result<Figure, LineReason>
    ensures meant { result ≡ figure_of_words (words line.now) }
    ensures valid { IfOk result IsValidFigure }
{
    let (word, rest) = first_word(line);
    figure_of(word, rest)
}

/// The figure of a line: none where it is empty or begins with 2/3.
#[tactic(auto, unfolding(crate::specs::Drawings::line_meaning))]
pub(crate) fn line_figure(line: &[u8]) -> Result<Option<Figure>, LineReason>
    ensures meant { result ≡ line_meaning line.now }
    ensures valid { IfOk result (λ figure. IfSome figure IsValidFigure) }
{
    if line.is_empty() || line[0] == b'#' {
        return Ok(None);
    }
    match words_figure(line) {
        Ok(figure) => Ok(Some(figure)),
        Err(reason) => Err(reason),
    }
}
