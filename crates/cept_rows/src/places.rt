ghost use Rattle.std.specs.Prelude.{◌≡◌, ◌+◌, ◌-◌, ◌≤◌, false, true};
ghost use Rattle.cept_codes.specs.Look.{IsValidLook};
ghost use Rattle.cept_profile.specs.Look.{part_of};
ghost use Rattle.cept_profile.specs.Tiling.{covers_below, is_covered_from_left};
ghost use Rattle.cept_rows.specs.Flagged.{look_at};
ghost use Rattle.cept_rows.specs.inside.Flagged.{with_look};
ghost use Rattle.cept_rows.specs.inside.Places.{covers_next, look_below, look_beside, own_drawing};
ghost use Rattle.cept_rows.specs.inside.Places.{with_drawn};
ghost use Rattle.cept_rows.specs.SmallLooks.{IsSmallLook, has_pattern, small_of};
ghost use Rattle.cept_rows.specs.inside.SmallLooks.{drawing_of};
ghost use Rattle.cept_rows.specs.Source.{place_made};
ghost use Rattle.cept_rows.specs.inside.Walk.{IsWalk};

use crate::row_looks::RowLooks;
use crate::small_look::SmallLook;
use crate::source::RowSource;
use crate::walk::Walk;
use cept_codes::Column;
use cept_sizes::{below, is_single, origin_there, to_the_right};

/// Keeps the look of a place: that of the place above one place down, where it covers this one,
/// that of the place to the left, where that one does, else that of what stands in its own cell.
/// Answers whether it covers the place to its right.
#[inline(always)]
pub(crate) fn put_place(
    looks: &mut RowLooks,
    column: Column,
    covered: bool,
    walk: &mut Walk,
    source: &RowSource,
    above: &RowLooks,
) -> bool
    requires walk { IsWalk source.now (column - 1) walk.old }
    requires left { look_at looks.old (column - 1) ≡ place_made source.now above.now (column - 1) }
    requires covered { covered ≡ covers_next source.now above.now (column - 1) }
    requires shown { IsValidLook (place_made source.now above.now column) }
    ensures looks { looks.new
        ≡ with_look looks.old column (place_made source.now above.now column) }
    ensures walk { IsWalk source.now column walk.new }
    ensures covered { result ≡ covers_next source.now above.now column }
{
    let number = column.number();
    if above.covers_below(column) {
        walk.pass(column, source);
        put_below(looks, column, above);
        return false;
    }
    if covered {
        walk.pass(column, source);
        put_to_the_right(looks, column);
        return false;
    }
    let own = walk.look(column, source);
    if is_single(own.size) {
        keep(looks, column, own.look, true, source);
        return false;
    }
    let beside = is_covered_beside(above, column);
    let part = origin_there(own.size, number, beside, source.is_last());
    let look = SmallLook { part, ..own.look };
    keep(looks, column, look, false, source);
    part.w == 2
}

/// Whether the look to the left of a column covers the place in it.
#[inline(always)]
pub(crate) fn is_covered_from_left(looks: &RowLooks, column: Column, above: &RowLooks) -> bool
    ensures { result
        ≡ is_covered_from_left (part_of (look_at above.now (column - 1)))
        (part_of (look_at looks.now (column - 1))) }
{
    match column.left() {
        None => false,
        Some(left) => !above.covers_below(left) && looks.covers_right(left),
    }
}

/// Whether the place beside a column to the right is covered from above.
#[inline(always)]
fn is_covered_beside(above: &RowLooks, column: Column) -> bool
    ensures { result ≡ covers_below (part_of (look_at above.now (column + 1))) }
{
    above.columns_by_type();
    match column.right() {
        None => false,
        Some(right) => above.covers_below(right),
    }
}

/// Keeps the look of the place above, one place down.
#[inline(always)]
fn put_below(looks: &mut RowLooks, column: Column, above: &RowLooks)
    requires { IsValidLook (look_below (look_at above.now column)) }
    ensures { looks.new ≡ with_look looks.old column (look_below (look_at above.now column)) }
{
    let there = above.small(column);
    let look = SmallLook {
        part: below(there.part),
        ..there
    };
    if look.has_pattern() {
        put_drawn_below(looks, column, look, above);
    } else {
        looks.put_single(column, look);
    }
}

/// Keeps a look in a column with the drawing of the place above.
// A call of its own: looks without a pattern need less.
#[inline(never)]
fn put_drawn_below(looks: &mut RowLooks, column: Column, look: SmallLook, above: &RowLooks)
    requires pattern { has_pattern (small_of (look_at above.now column)) ≡ true }
    requires look { IsSmallLook look (drawing_of (look_at above.now column).shape) }
    ensures { looks.new
        ≡ with_drawn looks.old column look (drawing_of (look_at above.now column).shape) }
{
    looks.put_drawn(column, look, above.drawing(column));
}

/// Keeps the look of the place to the left, one place to the right.
#[inline(always)]
fn put_to_the_right(looks: &mut RowLooks, column: Column)
    requires from_left { 2 ≤ column }
    requires valid { IsValidLook (look_beside (look_at looks.old (column - 1))) }
    ensures { looks.new
        ≡ with_look looks.old column (look_beside (look_at looks.old (column - 1))) }
{
    let beside = Column::numbered(column.number() - 1);
    let left = looks.small(beside);
    let look = SmallLook {
        part: to_the_right(left.part),
        ..left
    };
    if look.has_pattern() {
        put_drawn_from(looks, column, look, beside);
    } else {
        looks.put(column, look);
    }
}

/// Keeps a look in a column with the drawing of another column.
// A call of its own: a drawing has no room beside looks without one.
#[inline(never)]
fn put_drawn_from(looks: &mut RowLooks, column: Column, look: SmallLook, from: Column)
    requires pattern { has_pattern (small_of (look_at looks.old from)) ≡ true }
    requires look { IsSmallLook look (drawing_of (look_at looks.old from).shape) }
    ensures { looks.new
        ≡ with_drawn looks.old column look (drawing_of (look_at looks.old from).shape) }
{
    let drawing = *looks.drawing(from);
    looks.put_drawn(column, look, &drawing);
}

/// Keeps the look of what stands in a column, with the drawing of a pattern. One that is single is known
/// not to cover the place below it.
#[inline(always)]
fn keep(looks: &mut RowLooks, column: Column, look: SmallLook, single: bool, source: &RowSource)
    requires low { single ≡ true → covers_below look.part ≡ false }
    requires small { IsSmallLook look (own_drawing source.now column) }
    ensures { looks.new
        ≡ with_drawn looks.old column look (own_drawing source.now column) }
{
    if look.has_pattern() {
        keep_pattern(looks, column, look, source);
    } else if single {
        looks.put_single(column, look);
    } else {
        looks.put(column, look);
    }
}

/// The same of a pattern.
// A call of its own: a drawing has no room beside looks without one.
#[inline(never)]
fn keep_pattern(looks: &mut RowLooks, column: Column, look: SmallLook, source: &RowSource)
    requires { IsSmallLook look (own_drawing source.now column) }
    ensures { looks.new
        ≡ with_drawn looks.old column look (own_drawing source.now column) }
{
    looks.put_drawn(column, look, &source.drawing(column));
}
