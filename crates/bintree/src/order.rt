ghost use Rattle.std.specs.Prelude.{◌≤◌};

pub mod sizes;

// The order n of a terrain square, 1 to 6: the square has 2^n spacings a side. (It has no `Model`, tried: seen as a number, an order in the logic is any number, and
// a rule could not show that its own is 1 to 6.)
#[derive(Clone, Copy, PartialEq, Eq)]
pub struct Order {
    n: u8,
    ghost low: { 1 ≤ n },
    ghost high: { n ≤ 6 },
}
