// Which samples a closed triangle holds.
ghost use Rattle.std.specs.Prelude.{◌≡◌, ◌+◌, ◌*◌, ◌^◌, ◌<◌, ◌≤◌, [], ◌∷◌, Decides, nat_le};
ghost use Rattle.bintree.specs.Samples.{rising as rising_of, falling as falling_of, way, LiesIn};
ghost use Rattle.bintree.specs.Laws.{SampleLaws};
ghost use Rattle.bintree.specs.Views.{order_of, corners_of};

use crate::point::{Corners, Point, Way};
use crate::triangle::Triangle;

fn product(a: u32, b: u32) -> u128
    ensures value { result ≡ a * b }
    ensures bound { result < 2 ^ 64 }
{
    u128::from(a) * u128::from(b)
}

fn way(from: Point, to: Point) -> Way
    ensures { result ≡ way from to }
{
    Way { from, to }
}

impl Way {
    // Whether v lies to the left of the way, or on its line: it is not beyond the edge of a triangle that lies to the left of that edge.
    pub fn beside(self, v: Point) -> bool
        ensures { result ≡ nat_le (falling_of self.from self.to v) (rising_of self.from self.to v) }
    {
        let Way { from: p, to: q } = self;
        let rising = product(p.x, q.y) + product(q.x, v.y) + product(v.x, p.y);
        let falling = product(p.y, q.x) + product(q.y, v.x) + product(v.y, p.x);
        falling <= rising
    }
}

impl Corners {
    // The edges, with the triangle to their left: the base, the right edge, the left edge.
    pub fn edges(self) -> [Way; 3]
        ensures { result ≡ way self.left self.right ∷ way self.right self.apex ∷ way self.apex self.left ∷ [] }
    {
        let Corners { apex, left, right } = self;
        [way(left, right), way(right, apex), way(apex, left)]
    }
}

impl Triangle {
    // Whether the closed triangle holds the point: it is beyond none of the three edges.
    pub fn holds(self, v: Point) -> bool
        ensures value { Decides result (LiesIn v (corners_of self)) }
        ensures laws { SampleLaws (order_of self) }
    {
        self.corners().edges().iter().all(|edge| edge.beside(v))
    }
}
