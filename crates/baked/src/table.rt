// The third layer: the table of heights and bounds that the sections of a file hold.
ghost use Rattle.std.specs.Prelude.{◌≡◌};
ghost use Rattle.bintree.specs.Views.{order_value};
ghost use Rattle.terrain.specs.Grounds.{Does};
ghost use Rattle.terrain.specs.Views.{map_view};
ghost use Rattle.baked.specs.Faults.{table_refusal};
ghost use Rattle.baked.specs.Format.{heights_held, bounds_held};
ghost use Rattle.baked.specs.Reading.{reading_table};
ghost use Rattle.baked.specs.Views.{sections_view};

use crate::bytes::bytes_at;
use crate::fault::TableFault;
use crate::sections::Sections;
use bintree::point::Point;
use terrain::map::Map;
use terrain::relief::Relief;

impl Relief for Sections<'_> {
    ghost heights = { λ s. heights_held (order_value s.order) s.heights.bytes.now };

    ghost bounds = { λ s. bounds_held s.bounds.bytes.now };

    fn height(&self, p: Point) -> u16 {
        let row = self.order.side() as usize + 1;
        let at = 2 * (p.y as usize * row + p.x as usize);
        u16::from_le_bytes(bytes_at(self.heights.bytes, at))
    }

    fn bound(&self, number: u32) -> u32 {
        let at = 4 * number.saturating_sub(2) as usize;
        u32::from_le_bytes(bytes_at(self.bounds.bytes, at))
    }
}

impl Sections<'_> {
    // Fills a map with the table of heights and bounds; or refusal 6.
    pub(crate) fn load_table(&self, map: &mut Map) -> Result<(), TableFault>
        ensures { Does (reading_table (sections_view self.now)) table_refusal result (map_view map.old) (map_view map.new) }
    {
        Ok(map.fill(self.order, self)?)
    }
}
