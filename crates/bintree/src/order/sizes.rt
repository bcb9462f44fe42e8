ghost use Rattle.std.specs.Prelude.{◌≡◌, ◌≤◌};
ghost use Rattle.bintree.specs.Orders.{side as side_of, first_finest, end as end_of};
ghost use Rattle.bintree.specs.Views.{order_value};
ghost use Rattle.bintree.specs.Refusals.{told, ordering, order_refusal};

use crate::fault::OrderFault;
use crate::order::Order;

impl Order {
    // The order n, or refusal 7 with n. (A constructor with a test, as that of std's `NonZero`: `try_from` would say no more.)
    pub fn new(n: u8) -> Result<Order, OrderFault>
        ensures { told order_value order_refusal result ≡ ordering n }
    {
        if (1..=6).contains(&n) {
            Ok(Order { n })
        } else {
            Err(OrderFault { order: n })
        }
    }

    pub fn value(self) -> u8
        ensures { result ≡ order_value self }
    {
        self.n
    }

    // How many spacings a side has.
    pub fn side(self) -> u32
        ensures value { result ≡ side_of (order_value self) }
        ensures bound { result ≤ 64 }
    {
        1 << self.n
    }

    // The lowest number of a finest triangle.
    pub fn first_finest(self) -> u32
        ensures value { result ≡ first_finest (order_value self) }
        ensures bound { result ≤ 8192 }
    {
        1 << (2 * self.n + 1)
    }

    // The number past the last triangle: the finest are as many as all others and the two numbers that are no triangle.
    pub fn end(self) -> u32
        ensures value { result ≡ end_of (order_value self) }
        ensures bound { result ≤ 16384 }
    {
        2 * self.first_finest()
    }
}
