// The page for whoever writes a rule.
ghost use Rattle.std.specs.Prelude.{◌≡◌, ℕ};
ghost use Rattle.bintree.specs.Views.{order_value};
ghost use Rattle.policy.specs.Policies.{Lawful};

use bintree::order::Order;

// A priority rule. It means an order, and a number from 0 to 4,294,967,295 for each triangle of that order: the triangle's priority. The ghost
// members say the meaning and hold the proof that it keeps the law; the two calls answer it, alter nothing and are never refused.
pub trait Policy {
    // The order that the policy is for.
    ghost degree: { Self → ℕ };

    // The priority of each triangle of that order; 0 for a number that is none.
    ghost number: { Self → ℕ → ℕ };

    // The order is 1 to 6, the numbers are in their range, and a half's number is never above its parent's.
    ghost keeps: { (p : Self) → Lawful (degree p) (number p) };

    fn order(&self) -> Order
        ensures { order_value result ≡ degree self.now };

    fn priority(&self, triangle: u32) -> u32
        ensures { result ≡ number self.now triangle };
}

// A policy that is lent is a policy with the same meaning.
impl<P: Policy> Policy for &P {
    ghost degree = { λ p. P.Policy.degree p.now };

    ghost number = { λ p. P.Policy.number p.now };

    ghost keeps = { λ p. P.Policy.keeps p.now };

    fn order(&self) -> Order {
        (**self).order()
    }

    fn priority(&self, triangle: u32) -> u32 {
        (**self).priority(triangle)
    }
}
