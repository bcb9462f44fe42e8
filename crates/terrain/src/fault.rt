ghost use Rattle.std.specs.Prelude.{◌≡◌, Some};

use bintree::point::Point;
use std::error::Error;
use std::fmt;

// The point is no sample: refusal 8. (The faults' impls are written out, and not derived by thiserror, since each says what it gives.)
#[derive(Clone, Copy, Debug, PartialEq, Eq)]
pub struct PointFault {
    pub point: Point,
}

impl fmt::Display for PointFault {
    ghost use Rattle.terrain.specs.Texts.{point_text};

    ghost output = { λ f. Some (point_text f) };

    fn fmt<W: fmt::Write>(&self, f: &mut fmt::Formatter<W>) -> fmt::Result {
        write!(f, "refused 8 point {} {}", self.point.x, self.point.y)
    }
}

impl Error for PointFault {}

// A carving is refused: the point is no sample (refusal 8), or a new bound would pass the limit (refusal 9, with the highest-numbered
// triangle whose bound would).
#[derive(Clone, Copy, Debug, PartialEq, Eq)]
pub enum CarveFault {
    Outside(PointFault),
    Passing(u32),
}

impl From<PointFault> for CarveFault {
    ghost use Rattle.terrain.specs.declared.fault.CarveFault.TheVariants.{Outside as OutsideCase};

    ghost from_gives = { λ e r. r ≡ OutsideCase e };

    fn from(fault: PointFault) -> CarveFault {
        CarveFault::Outside(fault)
    }
}

impl fmt::Display for CarveFault {
    ghost use Rattle.terrain.specs.Texts.{carve_text};

    ghost output = { λ f. Some (carve_text f) };

    fn fmt<W: fmt::Write>(&self, f: &mut fmt::Formatter<W>) -> fmt::Result {
        match self {
            CarveFault::Outside(fault) => write!(f, "{fault}"),
            CarveFault::Passing(triangle) => write!(f, "refused 9 triangle {triangle}"),
        }
    }
}

impl Error for CarveFault {}
