ghost use Rattle.bintree.specs.Views.{order_value};
ghost use Rattle.terrain.specs.Bounds.{FinestZero, WithinLimit, AboveHalves};
ghost use Rattle.terrain.specs.Tables.{heights_in, bounds_in};

use crate::table::Table;

pub mod calls;
pub mod fill;

// An order, a height for each of its samples, and a bound for each of its triangles. The bounds cover the heights, from the map's making to
// its end. (It has no `Model`: it stands for heights
// and bounds as functions of points and of numbers. As finite maps, which a value may be, each clause would have to turn them into these functions first.)
#[derive(Drop)]
pub struct Map {
    table: Table,
    ghost finest: { FinestZero (order_value table.order) (bounds_in (order_value table.order) table.bounds.items) },
    ghost limited: { WithinLimit (order_value table.order) (bounds_in (order_value table.order) table.bounds.items) },
    ghost above: { AboveHalves (order_value table.order) (heights_in (order_value table.order) table.heights.items) (bounds_in (order_value table.order) table.bounds.items) },
}
