// The first layer: the trailer, the last 12 bytes of a file.
ghost use Rattle.std.specs.Prelude.{◌≡◌};
ghost use Rattle.bintree.specs.Refusals.{told};
ghost use Rattle.baked.specs.Faults.{trailer_refusal};
ghost use Rattle.baked.specs.Reading.{reading_trailer};

use crate::bytes::bytes_at;
use crate::fault::TrailerFault;
use bintree::order::Order;

// How many bytes the trailer has, and how many a file may have.
const TRAILER_BYTES: usize = 12;

const MOST_BYTES: usize = 65536;

// What the trailer says: how far before its first byte the heights and the bounds start, and the order. With it go the bytes in front of it, where
// the sections lie.
#[derive(Clone, Copy)]
pub(crate) struct Trailer<'a> {
    pub(crate) front: &'a [u8],
    pub(crate) heights: u32,
    pub(crate) bounds: u32,
    pub(crate) order: Order,
}

impl<'a> Trailer<'a> {
    ghost use Rattle.baked.specs.Views.{trailer_view};

    // The trailer of a file; or refusal 1, 2 or 3.
    pub(crate) fn read(file: &'a [u8]) -> Result<Trailer<'a>, TrailerFault>
        ensures { told trailer_view trailer_refusal result ≡ reading_trailer file.now }
    {
        let length = file.len();
        let Some((front, trailer)) = file.split_last_chunk::<TRAILER_BYTES>() else {
            return Err(TrailerFault::Length(length));
        };
        if length > MOST_BYTES {
            return Err(TrailerFault::Length(length));
        }
        if trailer[9] != 1 {
            return Err(TrailerFault::Field(front.len() + 9));
        }
        if u16::from_le_bytes(bytes_at(trailer, 10)) != 0 {
            return Err(TrailerFault::Field(front.len() + 10));
        }
        let order = Order::new(trailer[8])?;
        Ok(Trailer {
            front,
            heights: u32::from_le_bytes(bytes_at(trailer, 0)),
            bounds: u32::from_le_bytes(bytes_at(trailer, 4)),
            order,
        })
    }
}
