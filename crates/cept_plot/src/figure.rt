/// A point of the field: `x` 0 to 79 from the left, `y` 0 to 71 from the top.
#[derive(Clone, Copy, Debug, PartialEq, Eq)]
pub struct Point {
    pub x: u8,
    pub y: u8,
}

/// A line of a drawing: points that it adds to a field, or takes away. Two points are the ends of a
/// line, or any two opposite corners.
#[derive(Clone, Copy, Debug, PartialEq, Eq)]
pub enum Figure {
    /// Adds a point.
    Plot(Point),
    /// Takes a point away.
    Unplot(Point),
    /// Adds a line: the greater of its width and its height gives its steps, and each of its points
    /// is rounded by itself, a half to the right and down.
    Line(Point, Point),
    /// Adds the sides of a rectangle.
    Sides(Point, Point),
    /// Takes away a rectangle, its sides among it.
    Wipe(Point, Point),
}
