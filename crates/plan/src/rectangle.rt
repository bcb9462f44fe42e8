// Which triangles' bounding boxes a rectangle touches.
ghost use Rattle.std.specs.Prelude.{◌≡◌, Decides};
ghost use Rattle.bintree.specs.Samples.{box};
ghost use Rattle.bintree.specs.Views.{corners_of};
ghost use Rattle.plan.specs.Rectangles.{overlap as overlap_of, touches as touches_of, Touches};

use crate::spot::Rectangle;
use bintree::point::BoundingBox;
use bintree::triangle::Triangle;

// Whether neither box ends before the other begins.
fn overlap(a: BoundingBox, b: BoundingBox) -> bool
    ensures { result ≡ overlap_of a b }
{
    b.low.x <= a.high.x && a.low.x <= b.high.x && b.low.y <= a.high.y && a.low.y <= b.high.y
}

impl Rectangle {
    // Whether the bounding box of the triangle has a point in the closed rectangle.
    pub fn touches(self, triangle: Triangle) -> bool
        ensures value { result ≡ touches_of self (box (corners_of triangle)) }
        ensures geometry { Decides result (Touches self (box (corners_of triangle))) }
    {
        overlap(BoundingBox::from(self), triangle.bounding_box())
    }
}
