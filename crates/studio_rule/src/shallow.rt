ghost use Rattle.studio_rule.specs.Shallow.{shallow as shallow_of};
ghost use Rattle.studio_rule.specs.Keeping.{shallow_keeps};

use bintree::order::Order;
use policy::policy::Policy;

// A policy kept shallow: a triangle whose level is below `levels` has the policy's number, any deeper one has 0.
#[derive(Clone, Copy)]
pub struct Shallow<P> {
    pub below: P,
    pub levels: u8,
}

impl<P: Policy> Policy for Shallow<P> {
    ghost degree = { λ p. P.Policy.degree p.below };

    ghost number = { λ p. shallow_of p.levels (P.Policy.degree p.below) (P.Policy.number p.below) };

    ghost keeps = { λ p. shallow_keeps p.levels (P.Policy.degree p.below) (P.Policy.number p.below) (P.Policy.keeps p.below) };

    fn order(&self) -> Order {
        self.below.order()
    }

    fn priority(&self, triangle: u32) -> u32 {
        let Some(t) = self.below.order().triangle(triangle) else {
            return 0;
        };
        if t.level() < u32::from(self.levels) {
            self.below.priority(triangle)
        } else {
            0
        }
    }
}
