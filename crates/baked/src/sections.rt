// The second layer: the sections, and where they lie.
ghost use Rattle.std.specs.Prelude.{◌≡◌};
ghost use Rattle.bintree.specs.Refusals.{told};
ghost use Rattle.bintree.specs.Views.{order_value};
ghost use Rattle.terrain.specs.Grounds.{Does};
ghost use Rattle.terrain.specs.Views.{map_view};
ghost use Rattle.baked.specs.Faults.{sections_refusal, section_number};
ghost use Rattle.baked.specs.Format.{heights_length, bounds_length};
ghost use Rattle.baked.specs.Reading.{locating, reading_sections, reading_table};

use crate::fault::{SectionName, SectionsFault};
use crate::trailer::Trailer;
use bintree::order::Order;
use terrain::map::Map;

// A section of a file: a part of the file's own bytes, and its place there.
#[derive(Clone, Copy)]
pub struct Section<'a> {
    pub place: usize,
    pub bytes: &'a [u8],
}

// The order of a file and its two sections, which hold the heights and the bounds of a map.
#[derive(Clone, Copy)]
pub struct Sections<'a> {
    pub order: Order,
    pub heights: Section<'a>,
    pub bounds: Section<'a>,
}

impl<'a> Section<'a> {
    ghost use Rattle.baked.specs.Views.{section_view};

    // The section of `length` bytes that starts `distance` bytes before the end of `front`; or refusal 4.
    fn locate(
        front: &'a [u8],
        name: SectionName,
        distance: u32,
        length: usize,
    ) -> Result<Section<'a>, SectionsFault>
        ensures { told section_view sections_refusal result ≡ locating (section_number name) distance length front.now }
    {
        let distance = distance as usize;
        if distance > front.len() || distance < length {
            return Err(SectionsFault::Distance(name));
        }
        let place = front.len() - distance;
        Ok(Section {
            place,
            bytes: &front[place..place + length],
        })
    }
}

fn heights_length(order: Order) -> usize
    ensures { result ≡ heights_length (order_value order) }
{
    let row = order.side() as usize + 1;
    2 * (row * row)
}

#[tactic(auto, using(bintree::proofs::Sizes::from_two))]
fn bounds_length(order: Order) -> usize
    ensures { result ≡ bounds_length (order_value order) }
{
    4 * (order.first_finest() as usize - 2)
}

impl<'a> Sections<'a> {
    ghost use Rattle.baked.specs.Views.{sections_view, trailer_view};

    // Both sections of a file; or refusal 4 or 5.
    pub(crate) fn locate(trailer: &Trailer<'a>) -> Result<Sections<'a>, SectionsFault>
        ensures { told sections_view sections_refusal result ≡ reading_sections (trailer_view trailer.now) }
    {
        let (front, order) = (trailer.front, trailer.order);
        let heights_length = heights_length(order);
        let bounds_length = bounds_length(order);
        let heights = Section::locate(
            front,
            SectionName::Heights,
            trailer.heights,
            heights_length,
        )?;
        let bounds = Section::locate(front, SectionName::Bounds, trailer.bounds, bounds_length)?;
        if heights.place < bounds.place + bounds_length
            && bounds.place < heights.place + heights_length
        {
            return Err(SectionsFault::Overlap);
        }
        Ok(Sections {
            order,
            heights,
            bounds,
        })
    }

    // Fills a map with what the sections hold; or refusal 6.
    pub(crate) fn load(&self, map: &mut Map) -> Result<(), SectionsFault>
        ensures { Does (reading_table (sections_view self.now)) sections_refusal result (map_view map.old) (map_view map.new) }
    {
        Ok(self.load_table(map)?)
    }
}
