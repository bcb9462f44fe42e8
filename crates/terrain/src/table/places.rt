// Where a sample's height stands.
ghost use Rattle.std.specs.Prelude.{◌≡◌, ◌<◌, true, false, MatchResult};
ghost use Rattle.bintree.specs.Views.{order_value};
ghost use Rattle.terrain.specs.Heights.{is_sample};
ghost use Rattle.terrain.specs.Tables.{place};

use crate::fault::PointFault;
use crate::table::ROW;
use bintree::order::Order;
use bintree::point::Point;

// Heights stand in rows of one length at every order.
pub(crate) fn place(p: Point) -> usize
    ensures { result ≡ place p }
{
    p.y as usize * ROW + p.x as usize
}

// The place of a sample's height, or refusal 8.
pub(crate) fn place_of(order: Order, p: Point) -> Result<usize, PointFault>
    ensures { MatchResult result
        (λ at. (is_sample (order_value order) p ≡ true) × (at ≡ place p) × (at < 4225))
        (λ fault. (is_sample (order_value order) p ≡ false) × (fault.point ≡ p)) }
{
    let side = order.side();
    if p.x > side || p.y > side {
        return Err(PointFault { point: p });
    }
    Ok(place(p))
}
