/// A set of graphic signs. `P` is the primary set, `S` the supplementary set with the accents, `M`
/// and `N` the first and second mosaic sets, `D` the downloaded patterns.
#[derive(Clone, Copy, Debug, PartialEq, Eq)]
pub enum SetId {
    P,
    S,
    M,
    N,
    D,
}

/// A sign: its set, its code 2/0 to 7/15, and its accent, 0 for none or the accent's code 4/0 to
/// 4/15, on set `P` alone. Code 2/0 is the space of `P`, and a sign of set `S` has no code 4/0 to
/// 4/15.
#[derive(Clone, Copy, Debug, PartialEq, Eq)]
pub struct Glyph {
    pub set: SetId,
    pub code: u8,
    pub accent: u8,
}

/// What a graphic byte gives: a sign, or an accent 40 to 4F that waits for its sign.
#[derive(Clone, Copy, Debug, PartialEq, Eq)]
pub enum Read {
    Glyph(Glyph),
    Accent(u8),
}
