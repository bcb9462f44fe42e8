// Triangles by their numbers: levels, parents and halves.
ghost use Rattle.std.specs.Prelude.{◌≡◌, ◌+◌, ◌*◌, ◌/◌, ◌<◌, ◌≤◌, true, false, MatchOption};
ghost use Rattle.bintree.specs.Orders.{end, first_finest, is_triangle};
ghost use Rattle.bintree.specs.Triangles.{level as level_of};
ghost use Rattle.bintree.specs.Laws.{LevelLaws};
ghost use Rattle.bintree.specs.Views.{order_value, order_of, number_of, Is};

use crate::order::Order;
use crate::triangle::Triangle;

impl Order {
    // Triangle `number` of this order, if there is one.
    pub fn triangle(self, number: u32) -> Option<Triangle>
        ensures { MatchOption result
            (is_triangle (order_value self) number ≡ false)
            (λ t. (is_triangle (order_value self) number ≡ true) × Is t (order_value self) number) }
    {
        if number < 2 || number >= self.end() {
            return None;
        }
        Some(self.at(number))
    }

    fn at(self, number: u32) -> Triangle
        requires low { 2 ≤ number }
        requires high { number < end (order_value self) }
        ensures { Is result (order_value self) number }
    {
        Triangle {
            order: self,
            number,
        }
    }
}

impl Triangle {
    pub fn order(self) -> Order
        ensures { order_value result ≡ order_of self }
    {
        self.order
    }

    pub fn number(self) -> u32
        ensures { result ≡ number_of self }
    {
        self.number
    }

    // The level, read off the number's leading zeros: a number of level L has L + 2 binary digits.
    pub fn level(self) -> u32
        ensures value { result ≡ level_of (number_of self) }
        ensures laws { LevelLaws (number_of self) }
    {
        30 - self.number.leading_zeros()
    }

    // The triangle that this one is a half of; a root has none.
    pub fn parent(self) -> Option<Triangle>
        ensures { MatchOption result
            (number_of self < 4)
            (λ t. (4 ≤ number_of self) × Is t (order_of self) (number_of self / 2)) }
    {
        if self.number < 4 {
            return None;
        }
        Some(self.order.at(self.number / 2))
    }

    // The low and the high half; a finest triangle has none.
    pub fn halves(self) -> Option<(Triangle, Triangle)>
        ensures { MatchOption result
            (first_finest (order_of self) ≤ number_of self)
            (λ h. (number_of self < first_finest (order_of self))
            × Is h.0 (order_of self) (2 * number_of self) × Is h.1 (order_of self) (2 * number_of self + 1)) }
    {
        if self.number >= self.order.first_finest() {
            return None;
        }
        let low = self.order.at(2 * self.number);
        let high = self.order.at(2 * self.number + 1);
        Some((low, high))
    }
}
