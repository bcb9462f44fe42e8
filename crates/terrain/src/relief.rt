ghost use Rattle.std.specs.Prelude.{◌≡◌, Some};
ghost use Rattle.terrain.specs.Heights.{Heights};
ghost use Rattle.terrain.specs.Bounds.{Bounds};

use bintree::point::Point;
use std::error::Error;
use std::fmt;

// A source of heights and bounds from which a map can be filled. It answers any question, the same each time: of a point that is no sample of
// the map's order, or a number that is no triangle of it, the answer means nothing.
pub trait Relief {
    ghost heights: { Self → Heights };

    ghost bounds: { Self → Bounds };

    fn height(&self, p: Point) -> u16
        ensures { result ≡ heights self.now p };

    fn bound(&self, number: u32) -> u32
        ensures { result ≡ bounds self.now number };
}

// The bounds of a source do not cover its heights: refusal 6, with the lowest-numbered triangle whose bound breaks a rule. (Its Display is written out, since what
// it prints is stated. A file's reader has a fault of its own for this, as for each of its layers.)
#[derive(Clone, Copy, Debug, PartialEq, Eq)]
pub struct CoverFault {
    pub triangle: u32,
}

impl fmt::Display for CoverFault {
    ghost use Rattle.terrain.specs.Texts.{cover_text};

    ghost output = { λ f. Some (cover_text f) };

    fn fmt<W: fmt::Write>(&self, f: &mut fmt::Formatter<W>) -> fmt::Result {
        write!(f, "refused 6 triangle {}", self.triangle)
    }
}

impl Error for CoverFault {}
