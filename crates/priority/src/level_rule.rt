ghost use Rattle.std.specs.Prelude.{◌≡◌};
ghost use Rattle.bintree.specs.Refusals.{told, ordering, order_refusal};
ghost use Rattle.bintree.specs.Views.{order_value};
ghost use Rattle.numbering.specs.Rules.{by_level};
ghost use Rattle.numbering.proofs.Keeping.{level_keeps};

use bintree::fault::OrderFault;
use bintree::order::Order;
use policy::policy::Policy;

// The rule by which a triangle's priority is how many levels lie below it: 2n less its level.
#[derive(Clone, Copy)]
pub struct LevelRule {
    order: Order,
}

impl LevelRule {
    // The rule for an order, or refusal 7. (The order is a raw number, since a studio hands it in.)
    pub fn new(order: u8) -> Result<LevelRule, OrderFault>
        ensures { told (λ p. order_value p.order) order_refusal result ≡ ordering order }
    {
        Ok(LevelRule {
            order: Order::new(order)?,
        })
    }
}

impl Policy for LevelRule {
    ghost degree = { λ p. order_value p.order };

    ghost number = { λ p. by_level (order_value p.order) };

    ghost keeps = { λ p. level_keeps (order_value p.order) p.order.low p.order.high };

    fn order(&self) -> Order {
        self.order
    }

    fn priority(&self, triangle: u32) -> u32 {
        match self.order.triangle(triangle) {
            Some(t) => 2 * u32::from(self.order.value()) - t.level(),
            None => 0,
        }
    }
}
