ghost use Rattle.std.specs.Prelude.{◌≡◌, ℕ, ◌≤◌, length, slice_index};
ghost use Rattle.terrain.specs.Tables.{place};

use crate::relief::Relief;
use crate::table::places::place;
use bintree::point::Point;

// The heights and the bounds of a table, lent to be read: a source like any other. That heights are 16-bit numbers is kept as a fact, since a
// lent list does not say what its numbers fit.
#[derive(Clone, Copy)]
pub(crate) struct Surface<'a> {
    pub(crate) heights: &'a [u16],
    pub(crate) bounds: &'a [u32],
    ghost small: { (k : ℕ) → slice_index heights.now k ≤ 65535 },
    ghost wide: { length bounds.now ≡ 16384 },
}

impl<'a> Surface<'a> {
    pub(crate) fn new(heights: &'a [u16], bounds: &'a [u32]) -> Surface<'a>
        requires { length bounds.now ≡ 16384 }
        ensures heights { result.heights.now ≡ heights.now }
        ensures bounds { result.bounds.now ≡ bounds.now }
    {
        Surface { heights, bounds }
    }
}

impl Relief for Surface<'_> {
    ghost heights = { λ s p. slice_index s.heights.now (place p) };

    ghost bounds = { λ s i. slice_index s.bounds.now i };

    fn height(&self, p: Point) -> u16 {
        self.heights.get(place(p)).copied().unwrap_or(0)
    }

    fn bound(&self, number: u32) -> u32 {
        self.bounds.get(number as usize).copied().unwrap_or(0)
    }
}
