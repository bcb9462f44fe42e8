ghost use Rattle.std.specs.Prelude.{◌≡◌};
ghost use Rattle.terrain.specs.Views.{map_view};
ghost use Rattle.terrain.specs.Laws.{Wedge};
ghost use Rattle.numbering.specs.Rules.{stored as stored_of};
ghost use Rattle.numbering.proofs.Keeping.{stored_keeps};

use bintree::order::Order;
use policy::policy::Policy;
use terrain::map::Map;

// The rule by which a triangle's priority is its bound in a map.
#[derive(Clone, Copy)]
pub struct Stored<'a> {
    pub map: &'a Map,
}

impl<'a> Policy for Stored<'a> {
    ghost degree = { λ p. (map_view p.map.now).order };

    ghost number = { λ p. stored_of (map_view p.map.now) };

    ghost keeps = { λ p. stored_keeps (map_view p.map.now) p.map.now.table.order.low p.map.now.table.order.high p.map.now.limited p.map.now.above };

    fn order(&self) -> Order {
        self.map.order()
    }

    // The bound: no sample of the triangle stands further from the plane of its corners than half of it.
    fn priority(&self, triangle: u32) -> u32
        ensures value { result ≡ stored_of (map_view self.now.map.now) triangle }
        ensures wedge { Wedge (map_view self.now.map.now) }
    {
        self.map.bound(triangle).unwrap_or(0)
    }
}
