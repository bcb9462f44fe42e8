// A point of the plane of samples.
#[derive(Clone, Copy, PartialEq, Eq, Debug)]
pub struct Point {
    pub x: u32,
    pub y: u32,
}

// The straight way from one point to another.
#[derive(Clone, Copy, PartialEq, Eq, Debug)]
pub struct Way {
    pub from: Point,
    pub to: Point,
}

// The corners of a triangle: its apex, and the left and the right end of its base.
#[derive(Clone, Copy, PartialEq, Eq, Debug)]
pub struct Corners {
    pub apex: Point,
    pub left: Point,
    pub right: Point,
}

// The lowest and the highest coordinates of a triangle.
#[derive(Clone, Copy, PartialEq, Eq, Debug)]
pub struct BoundingBox {
    pub low: Point,
    pub high: Point,
}
