ghost use Rattle.std.specs.Prelude.{◌≡◌};
ghost use Rattle.numbering.specs.Rules.{in_sight};
ghost use Rattle.numbering.specs.Geometry.{Sighted};
ghost use Rattle.numbering.proofs.Keeping.{sight_keeps};

use bintree::order::Order;
use plan::spot::Line;
use policy::policy::Policy;

// A line laid over a policy: a triangle whose closed plan meets the closed line has the highest priority, any other the policy's number. (Not one type with `Window`:
// see there.)
#[derive(Clone, Copy)]
pub struct SightLine<P> {
    pub below: P,
    pub line: Line,
}

impl<P: Policy> Policy for SightLine<P> {
    ghost degree = { λ p. P.Policy.degree p.below };

    ghost number = { λ p. in_sight p.line (P.Policy.degree p.below) (P.Policy.number p.below) };

    ghost keeps = { λ p. sight_keeps p.line (P.Policy.degree p.below) (P.Policy.number p.below) (P.Policy.keeps p.below) };

    fn order(&self) -> Order {
        self.below.order()
    }

    fn priority(&self, triangle: u32) -> u32
        ensures value { result ≡ in_sight self.now.line (P.Policy.degree self.now.below) (P.Policy.number self.now.below) triangle }
        ensures geometry { Sighted self.now.line (P.Policy.degree self.now.below) (P.Policy.number self.now.below) triangle result }
    {
        let Some(t) = self.below.order().triangle(triangle) else {
            return 0;
        };
        if self.line.meets(t) {
            return u32::MAX;
        }
        self.below.priority(triangle)
    }
}
