ghost use Rattle.std.specs.Prelude.{◌≡◌};
ghost use Rattle.bintree.specs.Views.{order_value};
ghost use Rattle.terrain.specs.Grounds.{measuring, carving, Does, bound_of, height_of};
ghost use Rattle.terrain.specs.Refusals.{carve_refusal};
ghost use Rattle.terrain.specs.Laws.{Covered, Wedge, MeasureLaws, CarveLaws};
ghost use Rattle.terrain.specs.Views.{map_view, sketch_view};

use crate::fault::CarveFault;
use crate::map::Map;
use crate::table::Table;
use crate::table::places::place_of;
use bintree::order::Order;
use bintree::point::Point;

impl Map {
    // The map of the heights in a table, with the measured bounds.
    pub(crate) fn of_heights(mut table: Table) -> Map
        ensures value { map_view result ≡ measuring (sketch_view table) }
        ensures laws { MeasureLaws (sketch_view table) }
    {
        table.measure();
        Map { table }
    }

    // The order of the map's square.
    pub fn order(&self) -> Order
        ensures { order_value result ≡ (map_view self.now).order }
    {
        self.table.order
    }

    // The height of a sample; none where the point is no sample.
    pub fn height(&self, p: Point) -> Option<u16>
        ensures { result ≡ height_of (map_view self.now) p }
    {
        place_of(self.table.order, p)
            .ok()
            .map(|at| self.table.heights[at])
    }

    // The bound of a triangle; none where the number is no triangle. No sample of the triangle stands further from the plane of its corners
    // than half of it.
    pub fn bound(&self, number: u32) -> Option<u32>
        ensures value { result ≡ bound_of (map_view self.now) number }
        ensures covers { Covered (map_view self.now) }
        ensures wedge { Wedge (map_view self.now) }
    {
        self.table.bound(number)
    }

    // Sets the height of one sample, and gives every splittable triangle that holds it its offset plus the greater bound of its halves; or
    // refusal 8 or 9, and nothing changes.
    pub fn carve(&mut self, p: Point, z: u16) -> Result<(), CarveFault>
        ensures call { Does (carving p z (map_view self.old)) carve_refusal result (map_view self.old) (map_view self.new) }
        ensures laws { CarveLaws p z (map_view self.old) }
    {
        self.table.carve(p, z)
    }
}
