ghost use Rattle.std.specs.Prelude.{◌≡◌, IfOk, IfSome};
ghost use Rattle.cept_words.specs.Words.{words_after};
ghost use Rattle.cept_plot.specs.declared.figure.Point.{Point as PointValue};
ghost use Rattle.cept_plot.specs.declared.figure.Figure.{Figure as FigureValue};
ghost use Rattle.cept_plot.specs.Drawings.{of_four, of_two, point};
ghost use Rattle.cept_plot.specs.inside.Kept.{figured};
ghost use Rattle.cept_plot.specs.Points.{OnField};

use crate::figure::Point;
use cept_codes::LineReason;
use cept_words::{four_words, number, two_words};

/// The point of two words.
fn point(first: &[u8], second: &[u8]) -> Option<Point>
    ensures point { result ≡ point first.now second.now }
    ensures valid { IfSome result (λ p. OnField p.x p.y) }
{
    match (number(first), number(second)) {
        (Some(x), Some(y)) => {
            if x < 80 && y < 72 {
                Some(Point { x, y })
            } else {
                None
            }
        }
        _ => None,
    }
}

/// The point of the two words that stand after a word.
pub(crate) fn one_point(rest: Option<&[u8]>) -> Result<Point, LineReason>
    ensures meant { (figure : PointValue → FigureValue)
        → of_two figure (words_after rest.entry) ≡ figured result figure }
    ensures valid { IfOk result (λ p. OnField p.x p.y) }
{
    let Some((x, y)) = two_words(rest) else {
        return Err(LineReason::WrongCount);
    };
    point(x, y).ok_or(LineReason::BadNumber)
}

/// The two points of the four words that stand after a word.
pub(crate) fn two_points(rest: Option<&[u8]>) -> Result<(Point, Point), LineReason>
    ensures meant { (figure : PointValue → PointValue → FigureValue)
        → of_four figure (words_after rest.entry) ≡ figured result (λ p. figure p.0 p.1) }
    ensures valid { IfOk result (λ p. OnField p.0.x p.0.y × OnField p.1.x p.1.y) }
{
    let Some((x1, y1, x2, y2)) = four_words(rest) else {
        return Err(LineReason::WrongCount);
    };
    match (point(x1, y1), point(x2, y2)) {
        (Some(first), Some(second)) => Ok((first, second)),
        _ => Err(LineReason::BadNumber),
    }
}
