ghost use Rattle.std.specs.Prelude.{◌≡◌};
ghost use Rattle.bintree.specs.Views.{order_value};
ghost use Rattle.terrain.specs.Grounds.{Does};
ghost use Rattle.terrain.specs.Filling.{filling, cover_refusal, FillLaws};
ghost use Rattle.terrain.specs.Views.{map_view};

use crate::cover::check;
use crate::map::Map;
use crate::relief::{CoverFault, Relief};
use bintree::order::Order;

impl Map {
    // Makes this the map of the given order that a source describes, with the source's bounds and not the measured ones; or refusal 6 where
    // they do not cover, and nothing changes.
    pub fn fill<S: Relief>(&mut self, order: Order, source: &S) -> Result<(), CoverFault>
        ensures call { Does (filling (order_value order) (S.heights source.now) (S.bounds source.now)) cover_refusal result (map_view self.old) (map_view self.new) }
        ensures laws { FillLaws (order_value order) (S.heights source.now) (S.bounds source.now) }
    {
        check(order, source)?;
        self.table.fill(order, source);
        Ok(())
    }
}
