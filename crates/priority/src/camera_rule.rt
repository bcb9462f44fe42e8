ghost use Rattle.terrain.specs.Views.{map_view};
ghost use Rattle.numbering.specs.Rules.{by_camera};
ghost use Rattle.numbering.proofs.Keeping.{camera_keeps};

use bintree::order::Order;
use optics::lens::Lens;
use policy::policy::Policy;
use terrain::map::Map;

// The rule by which a triangle's priority is its bound in a map, seen through a lens.
#[derive(Clone, Copy)]
pub struct CameraRule<'a> {
    pub map: &'a Map,
    pub lens: Lens,
}

impl<'a> Policy for CameraRule<'a> {
    ghost degree = { λ p. (map_view p.map.now).order };

    ghost number = { λ p. by_camera p.lens (map_view p.map.now) };

    ghost keeps = { λ p. camera_keeps p.lens (map_view p.map.now) p.map.now.table.order.low p.map.now.table.order.high p.map.now.above };

    fn order(&self) -> Order {
        self.map.order()
    }

    fn priority(&self, triangle: u32) -> u32 {
        let Some(t) = self.map.order().triangle(triangle) else {
            return 0;
        };
        // `map_or` was tried: what its closure answers is not found to be what a lens shows.
        match self.map.bound(triangle) {
            Some(bound) => self.lens.seen(bound, t),
            None => 0,
        }
    }
}
