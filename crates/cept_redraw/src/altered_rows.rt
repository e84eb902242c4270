ghost use Rattle.std.specs.Prelude.{◌≡◌, ◌<◌, ◌+◌, ◌-◌, ◌||◌, false, length, IfSome, Some};
ghost use Rattle.std.specs.List.{AllByRecursion};
ghost use Rattle.cept_codes.specs.Stroke.{IsValidStroke};
ghost use Rattle.cept_codes.specs.Table.{list_by_index};
ghost use Rattle.cept_profile.specs.Edges.{is_last};
ghost use Rattle.cept_profile.specs.Reach.{just_one};
ghost use Rattle.cept_profile.specs.Valid.{IsValidPage};
ghost use Rattle.cept_page.specs.Parts.{pens_of};
ghost use Rattle.cept_control.specs.SignWithin.{put_alone};
ghost use Rattle.cept_redraw.specs.inside.Due.{AreCompared, followed, has_others, is_altered, is_altered_from};

use crate::followed_rows::{Followed, one_defines};
use cept_codes::{Row, Stroke};
use cept_control::{Edges, PutCell};
use cept_page::{Page, Pens};

/// The cell that is put, where that is the only stroke.
pub(crate) fn only_put(strokes: &[Stroke]) -> Option<PutCell>
    ensures { IfSome result (λ put. strokes.now ≡ put_alone put) }
{
    if strokes.len() != 1 {
        return None;
    }
    match &strokes[0] {
        Stroke::Put(place, cell) => Some(PutCell {
            place: *place,
            cell: *cell,
        }),
        _ => None,
    }
}

/// What rows are compared by: the attributes and the edges before strokes, the page and the edges
/// after them, whether one of the strokes defines something, and whether the attributes of the
/// screen became others.
#[derive(Clone, Copy)]
struct Compared<'a> {
    was: &'a Pens,
    before: &'a Edges,
    page: &'a Page,
    after: &'a Edges,
    defined: bool,
    screen: bool,
}

/// For each row from the top, whether strokes alter it: it was freed, one of them writes in it or
/// defines something, its attributes or the screen's became others, or it became last or is so no longer. The
/// page had these attributes and edges before, and has those edges after; the rows are followed.
pub(crate) fn rows_altered(
    strokes: &[Stroke],
    rows: &[Followed; 24],
    was: &Pens,
    before: &Edges,
    page: &Page,
    after: &Edges,
) -> [bool; 24]
    requires each { AllByRecursion IsValidStroke strokes.now }
    requires rows { rows.now ≡ list_by_index 1 24 (followed strokes.now) }
    requires pens { length was.now.rows ≡ 24 }
    requires valid { IsValidPage page.now }
    ensures { result ≡ list_by_index 1 24
        (is_altered strokes.now was.now before.now (pens_of page.now) after.now) }
{
    let compared = Compared {
        was,
        before,
        page,
        after,
        defined: one_defines(strokes),
        screen: was.screen != *page.screen_pen(),
    };
    let mut altered = [false; 24];
    for i in 0..24u8 {
        let index = usize::from(i);
        altered[index] = is_altered(rows[index], &compared, Row::numbered(i + 1));
    }
    altered
}

/// Whether a row is altered that is so followed.
fn is_altered(followed: Followed, compared: &Compared, row: Row) -> bool
    requires { AreCompared compared.now.was.now compared.now.page.now compared.now.screen }
    ensures { result ≡ is_altered_from followed.written compared.now.defined compared.now.was.now
        compared.now.before.now (pens_of compared.now.page.now) compared.now.after.now followed.from row }
{
    match followed.from {
        None => true,
        Some(from) => followed.written || compared.defined || has_others(from, compared, row),
    }
}

/// Whether a row has other attributes than the row before had of which it came, or the screen
/// has, or just one of the two rows is last.
fn has_others(from: Row, compared: &Compared, row: Row) -> bool
    requires { AreCompared compared.now.was.now compared.now.page.now compared.now.screen }
    ensures { result ≡ has_others compared.now.was.now compared.now.before.now from
        (pens_of compared.now.page.now) compared.now.after.now row }
{
    let pen = compared.was.rows[from.index()] != *compared.page.row_pen(row);
    let last = is_last_under_one(compared.before, from.number(), compared.after, row.number());
    pen | compared.screen | last
}

/// Whether just one of two rows is last.
pub(crate) fn is_last_under_one(before: &Edges, from: u8, after: &Edges, row: u8) -> bool
    ensures { result ≡ just_one (is_last before.now from) (is_last after.now row) }
{
    before.is_last(from) != after.is_last(row)
}
