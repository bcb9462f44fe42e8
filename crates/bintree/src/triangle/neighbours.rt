// The neighbours of a triangle on its own level, and among them its partner.
ghost use Rattle.std.specs.Prelude.{◌≡◌, ◌+◌, ◌*◌, ◌/◌, ◌%◌, ◌<◌, ◌≤◌, ◌==◌, MatchOption};
ghost use Rattle.bintree.specs.Triangles.{partner as partner_of};
ghost use Rattle.bintree.specs.Laws.{PartnerLaws, Bridge};
ghost use Rattle.bintree.specs.Neighbours.{neighbours as neighbours_of, around_root, around_half, BelowTwice};
ghost use Rattle.bintree.specs.Views.{order_of, number_of, Is};

use crate::triangle::Triangle;

// The numbers of the triangles of the same level across the base, the left edge (apex to left) and the right edge (right to apex).
#[derive(Clone, Copy)]
struct Neighbours {
    base: Option<u32>,
    left: Option<u32>,
    right: Option<u32>,
}

impl Neighbours {
    // The two roots have each other across their bases.
    fn of_root(number: u32) -> Neighbours
        requires low { 2 ≤ number }
        requires high { number < 4 }
        ensures value { result ≡ around_root number }
        ensures bound { BelowTwice number result }
    {
        Neighbours {
            base: Some(5 - number),
            left: None,
            right: None,
        }
    }

    // From those of its parent, those of a half: its twin, and halves of its parent's neighbours.
    fn of_half(self, number: u32) -> Neighbours
        requires low { 4 ≤ number }
        requires high { number < 16384 }
        requires bound { BelowTwice (number / 2) self }
        ensures value { result ≡ around_half (number % 2 == 0) number self }
        ensures bound { BelowTwice number result }
    {
        if number % 2 == 0 {
            Neighbours {
                base: self.left.map(|i| 2 * i + 1),
                left: Some(number + 1),
                right: self.base.map(|i| 2 * i + 1),
            }
        } else {
            Neighbours {
                base: self.right.map(|i| 2 * i),
                left: self.base.map(|i| 2 * i),
                right: Some(number - 1),
            }
        }
    }
}

impl Triangle {
    // The way down from the root, half by half, as the number says. (Not by recursion up to it: six words would go through memory at each level.)
    fn neighbours(self) -> Neighbours
        ensures value { result ≡ neighbours_of (number_of self) }
        ensures bound { BelowTwice (number_of self) result }
    {
        let level = self.level();
        let mut near = Neighbours::of_root(self.number >> level);
        for below in (0..level).rev() {
            near = near.of_half(self.number >> below);
        }
        near
    }

    // The other triangle of this level with the same two base ends; none where the base lies on the border.
    pub fn partner(self) -> Option<Triangle>
        ensures value { MatchOption result
            (partner_of (order_of self) (number_of self) ≡ 0)
            (λ p. (0 < partner_of (order_of self) (number_of self)) × Is p (order_of self) (partner_of (order_of self) (number_of self))) }
        ensures laws { PartnerLaws (order_of self) (number_of self) }
        ensures bridge { Bridge (order_of self) }
    {
        self.order.triangle(self.neighbours().base?)
    }
}
