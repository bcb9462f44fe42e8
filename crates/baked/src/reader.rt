// The reader of a baked file, and what it gives: the file's sections, or the map that they hold.
ghost use Rattle.std.specs.Prelude.{◌≡◌};
ghost use Rattle.bintree.specs.Refusals.{told};
ghost use Rattle.terrain.specs.Grounds.{Does};
ghost use Rattle.terrain.specs.Views.{map_view};
ghost use Rattle.baked.specs.Faults.{file_refusal};
ghost use Rattle.baked.specs.Reading.{reading, loading};
ghost use Rattle.baked.specs.Laws.{FileLaws};

use crate::fault::FileFault;
use crate::sections::Sections;
use crate::trailer::Trailer;
use terrain::map::Map;

// A baked file that is lent: the reader holds its bytes alone. (It has no `Model`: one that is copied must give its fields back, and a list of bytes does not give
// the loan of them.)
#[derive(Clone, Copy)]
pub struct Reader<'a> {
    bytes: &'a [u8],
}

impl<'a> Reader<'a> {
    ghost use Rattle.baked.specs.Views.{file_of, sections_view};

    pub fn over(bytes: &'a [u8]) -> Reader<'a>
        ensures { file_of result ≡ bytes.now }
    {
        Reader { bytes }
    }

    // Both sections, each as a part of the file's own bytes, with its place; or refusal 1 to 5.
    pub fn sections(&self) -> Result<Sections<'a>, FileFault>
        ensures { told sections_view file_refusal result ≡ reading (file_of self.now) }
    {
        let trailer = Trailer::read(self.bytes)?;
        Ok(Sections::locate(&trailer)?)
    }

    // Fills a map with the order, the heights and the bounds of the file; or refusal 1 to 6, and the map stays what it was.
    #[tactic(auto, using(crate::proofs::Files::file_laws))]
    pub fn fill(&self, map: &mut Map) -> Result<(), FileFault>
        ensures call { Does (loading (file_of self.now)) file_refusal result (map_view map.old) (map_view map.new) }
        ensures laws { FileLaws (file_of self.now) }
    {
        let sections = self.sections()?;
        Ok(sections.load(map)?)
    }
}
