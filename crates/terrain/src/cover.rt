// What a source says of a triangle, and whether its bounds cover its heights. (An order and a source are handed on as two: a source answers at any order, and a
// struct of both would be taken apart again in each of these functions.)
ghost use Rattle.std.specs.Prelude.{◌≡◌, ◌<◌, ◌≤◌, MatchResult};
ghost use Rattle.bintree.specs.Orders.{end, first_finest};
ghost use Rattle.bintree.specs.Views.{order_value, order_of, number_of, Is};
ghost use Rattle.terrain.specs.Bounds.{offset as triangle_offset};
ghost use Rattle.terrain.specs.Filling.{sampled, bounding, described, breaks_rule, lowest_breaking};

use crate::relief::{CoverFault, Relief};
use bintree::order::Order;
use bintree::triangle::Triangle;

// No bound of a map passes this.
pub(crate) const LIMIT: u32 = 16_777_215;

// The triangle of a number that is known to be one. (`bintree` has such a function inside; a public one would have a condition that callers must meet.)
pub(crate) fn triangle(order: Order, number: u32) -> Triangle
    requires low { 2 ≤ number }
    requires high { number < end (order_value order) }
    ensures { Is result (order_value order) number }
{
    order.triangle(number).unwrap()
}

// The bound of a triangle; a finest one has none but 0.
pub(crate) fn bound_of<S: Relief>(source: &S, t: Triangle) -> u32
    ensures { result ≡ bounding (order_of t) (S.bounds source.now) (number_of t) }
{
    match t.halves() {
        None => 0,
        Some(_) => source.bound(t.number()),
    }
}

// The offset of a splittable triangle: how far the sample at its centre stands from its base, in half height units.
pub(crate) fn offset<S: Relief>(source: &S, t: Triangle) -> u32
    requires { number_of t < first_finest (order_of t) }
    ensures value { result ≡ triangle_offset (order_of t) (sampled (order_of t) (S.heights source.now)) (number_of t) }
    ensures bound { result ≤ 131070 }
{
    let ends = t.corners();
    let centre = t.centre().unwrap();
    let twice = 2 * u32::from(source.height(centre));
    let sum = u32::from(source.height(ends.left)) + u32::from(source.height(ends.right));
    twice.abs_diff(sum)
}

// Whether the bound of a splittable triangle breaks a rule.
fn breaks<S: Relief>(order: Order, source: &S, number: u32) -> bool
    requires low { 2 ≤ number }
    requires high { number < first_finest (order_value order) }
    ensures { result ≡ breaks_rule (described (order_value order) (S.heights source.now) (S.bounds source.now)) number }
{
    let t = triangle(order, number);
    let (low, high) = t.halves().unwrap();
    let bound = source.bound(number);
    let greater = bound_of(source, low).max(bound_of(source, high));
    let least = u64::from(offset(source, t)) + u64::from(greater);
    bound > LIMIT || u64::from(bound) < least
}

// Looks for the lowest-numbered triangle whose bound breaks a rule: refusal 6.
pub(crate) fn check<S: Relief>(order: Order, source: &S) -> Result<(), CoverFault>
    ensures { MatchResult result
        (λ _. lowest_breaking (described (order_value order) (S.heights source.now) (S.bounds source.now)) ≡ 0)
        (λ fault. (0 < fault.triangle) × (fault.triangle ≡ lowest_breaking (described (order_value order) (S.heights source.now) (S.bounds source.now)))) }
{
    let broken = (2..order.first_finest()).find(|number| breaks(order, source, *number));
    match broken {
        None => Ok(()),
        Some(triangle) => Err(CoverFault { triangle }),
    }
}
