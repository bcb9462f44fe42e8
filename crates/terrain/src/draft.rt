use crate::table::Table;

pub mod calls;

// Heights in the making: an order and a height for each of its samples. (No `Model`, as a map has none.)
#[derive(Drop)]
pub struct Draft {
    table: Table,
}
