// Working bounds out anew, by recursion into the halves.
ghost use Rattle.std.specs.Prelude.{◌≡◌, ◌+◌, ◌*◌, true, false, length, MatchOption};
ghost use Rattle.bintree.specs.Views.{order_value, order_of, number_of, Is};
ghost use Rattle.terrain.specs.Bounds.{WithinLimit};
ghost use Rattle.terrain.specs.Tables.{bounds_in};
ghost use Rattle.terrain.specs.Working.{due, new_bounds, Mixed, Settles, NamesPassing};

use crate::cover::{LIMIT, offset, triangle};
use crate::relief::Relief;
use crate::table::surface::Surface;
use bintree::order::Order;
use bintree::point::Point;
use bintree::triangle::Triangle;

// What working out a triangle and all that descend from it gives: its new bound, and the highest-numbered of them whose new bound passes
// the limit.
#[derive(Clone, Copy)]
struct Settled {
    bound: u32,
    passing: Option<u32>,
}

// The halves of a triangle whose bound is to be worked out anew: of a splittable one that holds the sample, or of any splittable one where
// no sample is given.
fn due_halves(t: Triangle, around: Option<Point>) -> Option<(Triangle, Triangle)>
    ensures { MatchOption result (due around (order_of t) (number_of t) ≡ false)
        (λ h. (due around (order_of t) (number_of t) ≡ true)
        × Is h.0 (order_of t) (2 * number_of t) × Is h.1 (order_of t) (2 * number_of t + 1)) }
{
    let halves = t.halves()?;
    around
        .is_none_or(|sample| t.holds(sample))
        .then_some(halves)
}

impl Surface<'_> {
    // Works out the bounds of a triangle and of all that descend from it, into `scratch`. Below a triangle that is not due none is, so the
    // recursion stops there.
    fn settle(&self, scratch: &mut [u32], t: Triangle, around: Option<Point>) -> Settled
        requires roomy { length scratch.old ≡ 16384 }
        requires limited { WithinLimit (order_of t) (bounds_in (order_of t) self.now.bounds.now) }
        requires mixed { Mixed (bounds_in (order_of t) self.now.bounds.now)
            (new_bounds around (order_of t) self.now.heights.now self.now.bounds.now) (bounds_in (order_of t) scratch.old) }
        ensures { Settles (new_bounds around (order_of t) self.now.heights.now self.now.bounds.now)
            (bounds_in (order_of t) scratch.old) (bounds_in (order_of t) scratch.new) (number_of t) result.bound result.passing }
    {
        let number = t.number();
        let Some((low, high)) = due_halves(t, around) else {
            return Settled {
                bound: self.bound(number),
                passing: None,
            };
        };
        let low = self.settle(scratch, low, around);
        let high = self.settle(scratch, high, around);
        let bound = offset(self, t) + low.bound.max(high.bound);
        scratch[number as usize] = bound;
        let own = (bound > LIMIT).then_some(number);
        Settled {
            bound,
            passing: own.max(low.passing).max(high.passing),
        }
    }

    // Works out all bounds that are due, into `scratch`; the other bounds stand there as they are. Answers the highest-numbered triangle
    // whose new bound passes the limit.
    pub(crate) fn settle_all(
        &self,
        scratch: &mut [u32],
        order: Order,
        around: Option<Point>,
    ) -> Option<u32>
        requires roomy { length scratch.old ≡ 16384 }
        requires limited { WithinLimit (order_value order) (bounds_in (order_value order) self.now.bounds.now) }
        ensures bounds { bounds_in (order_value order) scratch.new ≡ new_bounds around (order_value order) self.now.heights.now self.now.bounds.now }
        ensures passing { NamesPassing (order_value order) (new_bounds around (order_value order) self.now.heights.now self.now.bounds.now) result }
    {
        scratch.copy_from_slice(self.bounds);
        let low = self.settle(scratch, triangle(order, 2), around);
        let high = self.settle(scratch, triangle(order, 3), around);
        low.passing.max(high.passing)
    }
}
