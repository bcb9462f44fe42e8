ghost use Rattle.std.specs.Prelude.{◌≡◌, IfOk};
ghost use Rattle.bintree.specs.Refusals.{order_refusal};
ghost use Rattle.terrain.specs.Grounds.{blank, resetting, setting, measuring, Does};
ghost use Rattle.terrain.specs.Refusals.{point_refusal};
ghost use Rattle.terrain.specs.Laws.{MeasureLaws};
ghost use Rattle.terrain.specs.Views.{draft_view, map_view};

use crate::draft::Draft;
use crate::fault::PointFault;
use crate::map::Map;
use crate::table::Table;
use crate::table::places::place_of;
use bintree::fault::OrderFault;
use bintree::order::Order;
use bintree::point::Point;
use std::alloc::{AllocError, Global};

impl Draft {
    // A draft of order 1 with all heights 0. This takes all the memory that the draft, and the map that it becomes, will ever need; it is the
    // one call that can answer that there is none.
    pub fn new(heap: Global) -> Result<Draft, AllocError>
        ensures { IfOk result (λ d. draft_view d ≡ blank 1) }
    {
        Ok(Draft {
            table: Table::new(heap)?,
        })
    }

    // Makes this a draft of the given order with all heights 0; or refusal 7, and nothing changes. (The order is a raw number, since a script hands it in.)
    pub fn reset(&mut self, order: u8) -> Result<(), OrderFault>
        ensures { Does (resetting order) order_refusal result (draft_view self.old) (draft_view self.new) }
    {
        let order = Order::new(order)?;
        self.table.heights.fill(0);
        self.table.order = order;
        Ok(())
    }

    // Sets the height of one sample; or refusal 8, and nothing changes. (A sample and its height are two things to whoever hands them in.)
    pub fn set(&mut self, p: Point, z: u16) -> Result<(), PointFault>
        ensures { Does (setting p z (draft_view self.old)) point_refusal result (draft_view self.old) (draft_view self.new) }
    {
        let at = place_of(self.table.order, p)?;
        self.table.heights[at] = z;
        Ok(())
    }

    // The map of these heights, with the measured bounds. It uses the draft up.
    pub fn measure(self) -> Map
        ensures value { map_view result ≡ measuring (draft_view self) }
        ensures laws { MeasureLaws (draft_view self) }
    {
        Map::of_heights(self.table)
    }
}
