// Writing the heights and the bounds of a source into a table.
ghost use Rattle.std.specs.Prelude.{◌≡◌, length};
ghost use Rattle.bintree.specs.Views.{order_value};
ghost use Rattle.terrain.specs.Filling.{sampled, bounding, described};
ghost use Rattle.terrain.specs.Tables.{heights_in, bounds_in};
ghost use Rattle.terrain.specs.Views.{table_view};

use crate::cover::{bound_of, triangle};
use crate::relief::Relief;
use crate::table::Table;
use crate::table::places::place;
use bintree::order::Order;
use bintree::point::Point;

// Samples and triangles are counted by their coordinates and numbers, in which a source is asked: their places in memory follow. (The table keeps its lengths, but a
// slice that it lends has to have them asked for.)
fn fill_heights<S: Relief>(rows: &mut [u16], order: Order, source: &S)
    requires { length rows.old ≡ 4225 }
    ensures { heights_in (order_value order) rows.new ≡ sampled (order_value order) (S.heights source.now) }
{
    let end = order.side() + 1;
    for y in 0..end {
        for x in 0..end {
            let p = Point { x, y };
            rows[place(p)] = source.height(p);
        }
    }
}

fn fill_bounds<S: Relief>(table: &mut [u32], order: Order, source: &S)
    requires { length table.old ≡ 16384 }
    ensures { bounds_in (order_value order) table.new ≡ bounding (order_value order) (S.bounds source.now) }
{
    for number in 2..order.end() {
        table[number as usize] = bound_of(source, triangle(order, number));
    }
}

impl Table {
    // Puts the heights and the bounds that a source gives at this order in the place of those that are there.
    pub(crate) fn fill<S: Relief>(&mut self, order: Order, source: &S)
        ensures { table_view self.new ≡ described (order_value order) (S.heights source.now) (S.bounds source.now) }
    {
        fill_heights(self.heights.as_mut_slice(), order, source);
        fill_bounds(self.bounds.as_mut_slice(), order, source);
        self.order = order;
    }
}
