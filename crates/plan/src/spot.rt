ghost use Rattle.std.specs.Prelude.{◌≡◌};
ghost use Rattle.plan.specs.Lines.{spot_point, line_way};
ghost use Rattle.plan.specs.Rectangles.{extent};

use bintree::point::{BoundingBox, Point, Way};

// A whole point of the plan, each coordinate 0 to 255. It may lie outside the square. (Not a `Point` with a parameter for the coordinates: the parameter would
// stand at every point of the square, to save these four lines.)
#[derive(Clone, Copy, PartialEq, Eq, Debug)]
pub struct Spot {
    pub x: u8,
    pub y: u8,
}

// The closed line between two spots, which may be one.
#[derive(Clone, Copy, PartialEq, Eq, Debug)]
pub struct Line {
    pub from: Spot,
    pub to: Spot,
}

// The closed rectangle, upright, of two opposite corners, in either order.
#[derive(Clone, Copy, PartialEq, Eq, Debug)]
pub struct Rectangle {
    pub corner: Spot,
    pub opposite: Spot,
}

impl From<Spot> for Point {
    ghost from_gives = { λ s p. p ≡ spot_point s };

    fn from(spot: Spot) -> Point {
        Point {
            x: u32::from(spot.x),
            y: u32::from(spot.y),
        }
    }
}

impl From<Line> for Way {
    ghost from_gives = { λ l w. w ≡ line_way l };

    fn from(line: Line) -> Way {
        Way {
            from: Point::from(line.from),
            to: Point::from(line.to),
        }
    }
}

// The lowest and the highest coordinates, whichever corners they are of.
impl From<Rectangle> for BoundingBox {
    ghost from_gives = { λ w b. b ≡ extent w };

    fn from(rectangle: Rectangle) -> BoundingBox {
        let Rectangle { corner, opposite } = rectangle;
        BoundingBox {
            low: Point {
                x: u32::from(corner.x.min(opposite.x)),
                y: u32::from(corner.y.min(opposite.y)),
            },
            high: Point {
                x: u32::from(corner.x.max(opposite.x)),
                y: u32::from(corner.y.max(opposite.y)),
            },
        }
    }
}
