ghost use Rattle.std.specs.Prelude.{◌<◌, ◌≤◌};
ghost use Rattle.bintree.specs.Orders.{end};

use crate::order::Order;

pub mod corners;
pub mod family;
pub mod neighbours;
pub mod samples;

// A triangle of a square: the square's order, and the triangle's number there. (No `Model`, as its order has none.)
#[derive(Clone, Copy)]
pub struct Triangle {
    order: Order,
    number: u32,
    ghost low: { 2 ≤ number },
    ghost high: { number < end order.n },
}
