// What a draft or a map has its table do.
ghost use Rattle.std.specs.Prelude.{◌≡◌, ℕ, ◌≤◌, slice_index, IfOk};
ghost use Rattle.bintree.specs.Views.{order_value};
ghost use Rattle.terrain.specs.Bounds.{WithinLimit, measured};
ghost use Rattle.terrain.specs.Grounds.{blank, measuring, carving, bound_of, Does};
ghost use Rattle.terrain.specs.Laws.{MeasureLaws};
ghost use Rattle.terrain.specs.Refusals.{carve_refusal};
ghost use Rattle.terrain.specs.Tables.{bounds_in};
ghost use Rattle.terrain.specs.Views.{table_view, sketch_view};
ghost use Rattle.terrain.specs.Working.{new_bounds, NamesPassing};

use crate::fault::CarveFault;
use crate::table::places::place_of;
use crate::table::surface::Surface;
use crate::table::{SAMPLES, TRIANGLES, Table};
use bintree::order::Order;
use bintree::point::Point;
use std::alloc::{AllocError, Global};
use std::mem;

impl Table {
    // All the memory that a draft, and the map that it becomes, will ever need; at order 1, with all heights 0.
    pub(crate) fn new(heap: Global) -> Result<Table, AllocError>
        ensures { IfOk result (λ t. sketch_view t ≡ blank 1) }
    {
        let order = Order::new(1).unwrap();
        let heights = vec![in heap; 0; SAMPLES]?;
        let bounds = vec![in heap; 0; TRIANGLES]?;
        let scratch = vec![in heap; 0; TRIANGLES]?;
        Ok(Table {
            order,
            heights,
            bounds,
            scratch,
        })
    }

    // Works all bounds that are due out anew, into the scratch room. Answers the highest-numbered triangle whose new bound passes the limit.
    // That no old bound does is a fact of the bounds and the map's order together, so it is asked for here, and kept by the map.
    fn settle(&mut self, around: Option<Point>) -> Option<u32>
        requires limited { WithinLimit (order_value self.old.order) (bounds_in (order_value self.old.order) self.old.bounds.items) }
        ensures small { (k : ℕ) → slice_index self.old.heights.items k ≤ 65535 }
        ensures order { self.new.order ≡ self.old.order }
        ensures heights { self.new.heights ≡ self.old.heights }
        ensures bounds { self.new.bounds ≡ self.old.bounds }
        ensures new { bounds_in (order_value self.old.order) self.new.scratch.items
            ≡ new_bounds around (order_value self.old.order) self.old.heights.items self.old.bounds.items }
        ensures passing { NamesPassing (order_value self.old.order)
            (new_bounds around (order_value self.old.order) self.old.heights.items self.old.bounds.items) result }
    {
        let surface = Surface::new(self.heights.as_slice(), self.bounds.as_slice());
        surface.settle_all(self.scratch.as_mut_slice(), self.order, around)
    }

    // Puts the measured bounds in the place of whatever bounds there are. None of them passes the limit, so there is nothing to refuse.
    pub(crate) fn measure(&mut self)
        ensures value { table_view self.new ≡ measuring (sketch_view self.old) }
        ensures laws { MeasureLaws (sketch_view self.old) }
    {
        self.bounds.fill(0);
        let _ = self.settle(None);
        mem::swap(&mut self.bounds, &mut self.scratch);
    }

    // The bound of a triangle; none where the number is no triangle.
    pub(crate) fn bound(&self, number: u32) -> Option<u32>
        ensures { result ≡ bound_of (table_view self.now) number }
    {
        self.order
            .triangle(number)
            .map(|_| self.bounds[number as usize])
    }

    // Carves a sample, or refuses and leaves heights and bounds as they are.
    pub(crate) fn carve(&mut self, p: Point, z: u16) -> Result<(), CarveFault>
        requires limited { WithinLimit (order_value self.old.order) (bounds_in (order_value self.old.order) self.old.bounds.items) }
        ensures { Does (carving p z (table_view self.old)) carve_refusal result (table_view self.old) (table_view self.new) }
    {
        let at = place_of(self.order, p)?;
        let before = mem::replace(&mut self.heights[at], z);
        if let Some(triangle) = self.settle(Some(p)) {
            self.heights[at] = before;
            return Err(CarveFault::Passing(triangle));
        }
        mem::swap(&mut self.bounds, &mut self.scratch);
        Ok(())
    }
}
