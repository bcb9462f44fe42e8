ghost use Rattle.std.specs.Prelude.{◌≡◌};
ghost use Rattle.numbering.specs.Rules.{in_window};
ghost use Rattle.numbering.specs.Geometry.{Windowed};
ghost use Rattle.numbering.proofs.Keeping.{window_keeps};

use bintree::order::Order;
use plan::spot::Rectangle;
use policy::policy::Policy;

// A window laid over a policy: a triangle whose bounding box has no point in the closed rectangle has 0, any other the policy's number. (Not one type with
// `SightLine` over a test that is handed in: what a closure answers is no number that a ghost member could name.)
#[derive(Clone, Copy)]
pub struct Window<P> {
    pub below: P,
    pub rectangle: Rectangle,
}

impl<P: Policy> Policy for Window<P> {
    ghost degree = { λ p. P.Policy.degree p.below };

    ghost number = { λ p. in_window p.rectangle (P.Policy.degree p.below) (P.Policy.number p.below) };

    ghost keeps = { λ p. window_keeps p.rectangle (P.Policy.degree p.below) (P.Policy.number p.below) (P.Policy.keeps p.below) };

    fn order(&self) -> Order {
        self.below.order()
    }

    fn priority(&self, triangle: u32) -> u32
        ensures value { result ≡ in_window self.now.rectangle (P.Policy.degree self.now.below) (P.Policy.number self.now.below) triangle }
        ensures geometry { Windowed self.now.rectangle (P.Policy.degree self.now.below) (P.Policy.number self.now.below) triangle result }
    {
        let Some(t) = self.below.order().triangle(triangle) else {
            return 0;
        };
        if self.rectangle.touches(t) {
            self.below.priority(triangle)
        } else {
            0
        }
    }
}
