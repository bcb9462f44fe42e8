// Where triangles lie: corners, centres and bounding boxes.
ghost use Rattle.std.specs.Prelude.{◌≡◌, ◌+◌, ◌*◌, ◌/◌, ◌<◌, ◌≤◌, MatchOption};
ghost use Rattle.bintree.specs.Orders.{first_finest};
ghost use Rattle.bintree.specs.Triangles.{middle as middle_of, centre as centre_of, root_at};
ghost use Rattle.bintree.specs.Samples.{box};
ghost use Rattle.bintree.specs.Laws.{CornerLaws, SameCentre, BoxesNest};
ghost use Rattle.bintree.specs.Views.{order_of, number_of, corners_of};

use crate::point::{BoundingBox, Corners, Point};
use crate::triangle::Triangle;

fn middle(p: Point, q: Point) -> Point
    ensures { result ≡ middle_of p q }
{
    Point {
        x: p.x.midpoint(q.x),
        y: p.y.midpoint(q.y),
    }
}

// A root of a square: its apex at the corner (near, near), its base on the diagonal.
fn root(near: u32, far: u32) -> Corners
    ensures { result ≡ root_at near far }
{
    Corners {
        apex: Point { x: near, y: near },
        left: Point { x: far, y: near },
        right: Point { x: near, y: far },
    }
}

impl Triangle {
    // The corners: those of a root, or of a half of the parent.
    pub fn corners(self) -> Corners
        ensures value { result ≡ corners_of self }
        ensures laws { CornerLaws (order_of self) }
    {
        match self.parent() {
            None => {
                let side = self.order.side();
                if self.number == 2 {
                    root(0, side)
                } else {
                    root(side, 0)
                }
            }
            Some(parent) => {
                let whole = parent.corners();
                let (left, right) = if self.number % 2 == 0 {
                    (whole.apex, whole.left)
                } else {
                    (whole.right, whole.apex)
                };
                Corners {
                    apex: middle(whole.left, whole.right),
                    left,
                    right,
                }
            }
        }
    }

    // The middle of the base, at which the triangle is split; a finest triangle has none.
    pub fn centre(self) -> Option<Point>
        ensures value { MatchOption result
            (first_finest (order_of self) ≤ number_of self)
            (λ c. (number_of self < first_finest (order_of self)) × (c ≡ centre_of (corners_of self))) }
        ensures laws { SameCentre (order_of self) }
    {
        if self.number >= self.order.first_finest() {
            return None;
        }
        let t = self.corners();
        Some(middle(t.left, t.right))
    }

    // The smallest box that holds the corners.
    pub fn bounding_box(self) -> BoundingBox
        ensures value { result ≡ box (corners_of self) }
        ensures laws { BoxesNest (order_of self) }
    {
        let t = self.corners();
        BoundingBox {
            low: Point {
                x: t.apex.x.min(t.left.x.min(t.right.x)),
                y: t.apex.y.min(t.left.y.min(t.right.y)),
            },
            high: Point {
                x: t.apex.x.max(t.left.x.max(t.right.x)),
                y: t.apex.y.max(t.left.y.max(t.right.y)),
            },
        }
    }
}
