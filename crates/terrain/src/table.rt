ghost use Rattle.std.specs.Prelude.{◌≡◌, vec_len};

use bintree::order::Order;

mod fill;
pub(crate) mod places;
mod settle;
mod steps;
mod surface;

// How many samples a row of the largest square has, how many the whole square, and the number past its last triangle.
const ROW: usize = 65;

const SAMPLES: usize = 4225;

const TRIANGLES: usize = 16384;

// What a draft or a map holds: its order, and memory that is of the same size at every order: heights in rows of 65, bounds by triangle
// number, and room in which new bounds are worked out before they take the place of the old ones.
#[derive(Drop)]
pub(crate) struct Table {
    pub(crate) order: Order,
    pub(crate) heights: Vec<u16>,
    pub(crate) bounds: Vec<u32>,
    pub(crate) scratch: Vec<u32>,
    ghost tall: { vec_len heights ≡ 4225 },
    ghost wide: { vec_len bounds ≡ 16384 },
    ghost roomy: { vec_len scratch ≡ 16384 },
}
