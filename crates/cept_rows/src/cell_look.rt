ghost use Rattle.std.specs.Prelude.{◌≡◌, true, false, None, IfSome, Option};
ghost use Rattle.cept_codes.specs.Attribute.{IsValidFull, IsValidPen, unset_pen};
ghost use Rattle.cept_codes.specs.Cell.{IsValidWhat};
ghost use Rattle.cept_codes.specs.Glyph.{IsValidGlyph};
ghost use Rattle.cept_profile.specs.Definitions.{Definitions};
ghost use Rattle.cept_profile.specs.Look.{attributes_of, sets_double_size};
ghost use Rattle.cept_profile.specs.Look.{shape_in, shape_of_sign};
ghost use Rattle.cept_profile.specs.Serial.{is_marker, own_attributes_of, row_in};
ghost use Rattle.cept_codes.specs.declared.cell.Marker.{Marker};
ghost use Rattle.cept_codes.specs.declared.cell.What.TheVariants.{Marker as stands};
ghost use Rattle.cept_rows.specs.inside.Brush.{IsBare, IsBrush, IsDipped};
ghost use Rattle.cept_rows.specs.inside.Brush.{attributes_by, small_shape, space_by, space_for};
ghost use Rattle.cept_rows.specs.SmallLooks.{sign_of, small_of};
ghost use Rattle.cept_rows.specs.inside.RowsByCell.{is_downloaded, is_set_d, pattern_of_sign};
ghost use Rattle.cept_rows.specs.Source.{look_by_itself};

use crate::small_look::{Kind, Sign, SmallLook};
use crate::source::RowSource;
use cept_attrs::cascade;
use cept_codes::{Column, Full, Glyph, Pen, SetId, Size, What, pens_compare_by_their_fields};
use cept_colours::Colours;

/// The look of what stands in a column by itself, in a row without markers, of which this is the sign.
#[tactic(auto, unfolding(cept_profile::specs::Look::look_of))]
#[inline(always)]
pub(crate) fn small_alone(column: Column, sign: Sign, source: &RowSource) -> SmallLook
    requires { sign ≡ sign_of (shape_in source.now.defined (row_in source.now.cells column) None) }
    ensures { result ≡ small_of (look_by_itself source.now column) }
{
    source.small_with(sign, &attributes_alone(column, source))
}

/// The attributes of what stands in a column, in a row without markers.
#[inline(always)]
fn attributes_alone(column: Column, source: &RowSource) -> Full
    ensures attributes { result
        ≡ attributes_of source.now.row_pen source.now.screen_pen (row_in source.now.cells column) }
    ensures valid { IsValidFull result }
{
    match source.what(column) {
        What::Parallel(_, pen) => source.attributes(pen),
        What::Blank | What::Serial(_) | What::Marker(_) => source.attributes(&Pen::UNSET),
    }
}

/// The sign of what stands in a cell by itself, where it is none of the downloaded set.
#[inline(always)]
pub(crate) fn sign_alone(what: &What) -> Sign
    requires { is_downloaded what.now ≡ false }
    ensures { (defined : Definitions) → result ≡ sign_of (shape_in defined what.now None) }
{
    match what {
        What::Blank | What::Marker(_) => Sign::NOTHING,
        What::Serial(glyph) | What::Parallel(glyph, _) => sign_of_set(glyph),
    }
}

/// Whether a sign of the downloaded set stands in a cell.
#[inline(always)]
pub(crate) fn is_downloaded(what: &What) -> bool
    ensures { result ≡ is_downloaded what.now }
{
    match what {
        What::Serial(glyph) | What::Parallel(glyph, _) => matches!(glyph.set, SetId::D),
        What::Blank | What::Marker(_) => false,
    }
}

/// Whether what stands in a cell is shown by itself, in single size and without a pattern: it is no
/// marker, sets no other size, and is no sign of the downloaded set.
#[inline(always)]
pub(crate) fn is_plain(what: &What) -> bool
    ensures marker { result ≡ true → is_marker what.now ≡ false }
    ensures size { result ≡ true → sets_double_size what.now ≡ false }
    ensures set { result ≡ true → is_downloaded what.now ≡ false }
{
    match what {
        What::Blank => true,
        What::Serial(glyph) => !matches!(glyph.set, SetId::D),
        What::Parallel(glyph, pen) => {
            !matches!(glyph.set, SetId::D) & matches!(pen.size, None | Some(Size::Normal))
        }
        What::Marker(_) => false,
    }
}

/// A pen, whether it is known to set no class but the colours, the look of a space that is written
/// with it, and the size in which it is to be shown.
#[derive(Clone, Copy)]
pub(crate) struct Brush {
    pub(crate) pen: Pen,
    pub(crate) bare: bool,
    pub(crate) space: SmallLook,
    pub(crate) size: Size,
}

impl Brush {
    /// It holds the pen that sets nothing, whose attributes are these.
    #[inline(always)]
    pub(crate) fn new(full: &Full, source: &RowSource) -> Brush
        requires { full.now ≡ attributes_by source.now unset_pen }
        ensures brush { IsBrush source.now result }
        ensures space { result.space ≡ space_by source.now unset_pen }
    {
        source.valid_by_type();
        Brush {
            pen: Pen::UNSET,
            bare: true,
            space: source.small_with(Sign::NOTHING, full),
            size: full.size,
        }
    }
}

/// Takes up a pen. Neighbours most often have the same one, so that attributes and paints are found
/// only where it is another than before.
#[inline(always)]
pub(crate) fn take_up(brush: &mut Brush, pen: &Pen, source: &RowSource)
    requires pen { IsValidPen pen.now }
    requires brush { IsBrush source.now brush.old }
    ensures { IsDipped source.now pen.now brush.new }
{
    if !holds(brush, pen) {
        dip(brush, pen, source);
    }
}

/// Whether a brush is known to hold a pen.
// Most pens set colours alone: then two classes are compared, and not eight.
#[inline(always)]
fn holds(brush: &Brush, pen: &Pen) -> bool
    requires { brush.now.bare ≡ true → IsBare brush.now.pen }
    ensures { result ≡ true → brush.now.pen ≡ pen.now }
{
    if !brush.bare {
        return same_pen(&brush.pen, pen);
    }
    if !is_bare(pen) {
        return false;
    }
    if brush.pen.fore != pen.fore {
        return false;
    }
    brush.pen.back == pen.back
}

/// Whether a pen sets no class but the colours.
// All tags joined by `|`, since each end of its own makes a branch.
#[inline(always)]
fn is_bare(pen: &Pen) -> bool
    ensures { result ≡ true → IsBare pen.now }
{
    let first = pen.flash.is_some() | pen.conceal.is_some() | pen.lined.is_some();
    let second = pen.boxed.is_some() | pen.size.is_some() | pen.invert.is_some();
    !(first | second)
}

/// Whether two pens are known to be the same.
// Class by class, each with an end of its own: most are set in neither.
#[inline(always)]
fn same_pen(a: &Pen, b: &Pen) -> bool
    ensures { result ≡ true → a.now ≡ b.now }
{
    // A law: pens compare as equal exactly where they are the same.
    pens_compare_by_their_fields();
    if a.fore != b.fore {
        return false;
    }
    if a.back != b.back {
        return false;
    }
    if a.flash != b.flash {
        return false;
    }
    if a.conceal != b.conceal {
        return false;
    }
    if a.lined != b.lined {
        return false;
    }
    if a.boxed != b.boxed {
        return false;
    }
    if a.size != b.size {
        return false;
    }
    a.invert == b.invert
}

/// Takes up another pen.
// A call of its own: the walk along a row keeps less at hand.
#[inline(never)]
fn dip(brush: &mut Brush, pen: &Pen, source: &RowSource)
    requires { IsValidPen pen.now }
    ensures { IsDipped source.now pen.now brush.new }
{
    let full = source.attributes(pen);
    *brush = Brush {
        pen: *pen,
        bare: is_bare(pen),
        space: source.small_with(Sign::NOTHING, &full),
        size: full.size,
    };
}

/// The look of what stands in a cell and is shown by itself, in a row without markers in which a blank
/// cell looks so. Of a sign with a pen the brush takes that up.
#[inline(always)]
pub(crate) fn small_among(
    what: &What,
    blank: &SmallLook,
    brush: &mut Brush,
    source: &RowSource,
) -> SmallLook
    requires valid { IsValidWhat what.now }
    requires set { is_downloaded what.now ≡ false }
    requires blank { blank.now ≡ space_by source.now unset_pen }
    requires brush { IsBrush source.now brush.old }
    ensures look { result
        ≡ small_shape source.now (shape_in source.now.defined what.now None)
        (own_attributes_of what.now source.now.row_pen source.now.screen_pen
        (attributes_by source.now unset_pen)) }
    ensures brush { IsBrush source.now brush.new }
{
    if let What::Parallel(_, pen) = what {
        take_up(brush, pen, source);
    }
    SmallLook {
        sign: sign_alone(what),
        ..*space_for(what, blank, &brush.space)
    }
}

/// A sign that isn't of the downloaded set, in the look of a space.
#[inline(always)]
pub(crate) fn with_sign(space: &SmallLook, glyph: &Glyph) -> SmallLook
    requires { is_set_d glyph.now.set ≡ false }
    ensures { (defined : Definitions)
        → result ≡ record space.now { sign = sign_of (shape_of_sign defined glyph.now) } }
{
    SmallLook {
        sign: sign_of_set(glyph),
        ..*space
    }
}

/// How a space looks in place of what stands in a cell: of a sign with a pen as with that, else as a
/// blank cell.
#[inline(always)]
fn space_for<'s>(what: &What, blank: &'s SmallLook, written: &'s SmallLook) -> &'s SmallLook
    ensures { result.now ≡ space_for what.now blank.now written.now }
{
    match what {
        What::Parallel(_, _) => written,
        What::Blank | What::Serial(_) | What::Marker(_) => blank,
    }
}

/// A sign written in parallel has its own attributes, every other cell the serial ones.
#[inline(always)]
pub(crate) fn own_attributes(what: &What, full: &Full, row: &Pen, screen: &Pen) -> Full
    ensures attributes { result ≡ own_attributes_of what.now row.now screen.now full.now }
    ensures valid { IsValidWhat what.now → IsValidFull full.now → IsValidPen row.now
        → IsValidPen screen.now → IsValidFull result }
{
    match what {
        What::Parallel(_, pen) => cascade(pen, row, screen),
        What::Blank | What::Serial(_) | What::Marker(_) => *full,
    }
}

/// The sign of what stands in a column by itself.
#[inline(always)]
pub(crate) fn sign_in(column: Column, source: &RowSource) -> Sign
    ensures { result ≡ sign_of (shape_in source.now.defined (row_in source.now.cells column) None) }
{
    match source.what(column) {
        What::Blank | What::Marker(_) => Sign::NOTHING,
        What::Serial(glyph) | What::Parallel(glyph, _) => sign_of_glyph(glyph, source),
    }
}

/// The sign that a marker shows: the one that it holds, which is none of the downloaded set.
#[inline(always)]
pub(crate) fn sign_held(held: Option<Glyph>) -> Sign
    requires { IfSome held (λ g. is_set_d g.set ≡ false) }
    ensures { (defined : Definitions) (marker : Marker)
        → result ≡ sign_of (shape_in defined (stands marker) held) }
{
    match held {
        Some(glyph) => sign_of_set(&glyph),
        None => Sign::NOTHING,
    }
}

/// A sign of the downloaded set is drawn as the pattern of its code, where it has one, and any
/// other as itself.
#[inline(always)]
pub(crate) fn sign_of_glyph(glyph: &Glyph, source: &RowSource) -> Sign
    requires { IsValidGlyph glyph.now }
    ensures { result ≡ sign_of (shape_of_sign source.now.defined glyph.now) }
{
    if is_set_d(glyph.set) && source.has_pattern(glyph) {
        Sign::PATTERN
    } else {
        sign_of_set(glyph)
    }
}

/// Whether this is the downloaded set.
#[inline(always)]
fn is_set_d(set: SetId) -> bool
    ensures { result ≡ is_set_d set }
{
    matches!(set, SetId::D)
}

/// A sign without a pattern is drawn as itself, the space without accent as nothing.
#[inline(always)]
fn sign_of_set(glyph: &Glyph) -> Sign
    ensures { (defined : Definitions) → pattern_of_sign defined.patterns glyph.now ≡ None
        → result ≡ sign_of (shape_of_sign defined glyph.now) }
{
    if glyph.code == 0x20 && glyph.accent == 0 {
        Sign::NOTHING
    } else {
        Sign {
            kind: Kind::Char,
            set: glyph.set,
            code: glyph.code,
            accent: glyph.accent,
        }
    }
}
