/// How a cell goes on from the one directly left of it: not at all, in its segment, in its segment
/// with a sign of the same set, or in its segment with an equal sign.
#[derive(Clone, Copy)]
pub enum Link {
    Apart,
    Segment,
    Set,
    Equal,
}
