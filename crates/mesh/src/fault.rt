// Why a call on a mesh is refused. What a fault prints is its refusal: the number, and the values. (The impls are written
// out, and not derived by thiserror, since what they print is stated.)
use std::error::Error;
use std::fmt;

// Why a split was refused, with the triangle's number.
#[derive(Clone, Copy, PartialEq, Eq, Debug)]
pub enum SplitFault {
    // refusal 11: not present
    Absent(u32),
    // refusal 12: a finest one
    Finest(u32),
}

// Refusal 13: the triangle is not one of a mergeable diamond.
#[derive(Clone, Copy, PartialEq, Eq, Debug)]
pub struct MergeFault {
    pub triangle: u32,
}

// Refusal 16: the buffer has fewer places than these.
#[derive(Clone, Copy, PartialEq, Eq, Debug)]
pub struct ListFault {
    pub places: usize,
}

impl fmt::Display for SplitFault {
    ghost use Rattle.std.specs.Prelude.{Some};
    ghost use Rattle.mesh.specs.Faults.{split_text};

    ghost output = { λ f. Some (split_text f) };

    fn fmt<W: fmt::Write>(&self, f: &mut fmt::Formatter<W>) -> fmt::Result {
        match self {
            SplitFault::Absent(i) => write!(f, "refused 11 triangle {i}"),
            SplitFault::Finest(i) => write!(f, "refused 12 triangle {i}"),
        }
    }
}

impl fmt::Display for MergeFault {
    ghost use Rattle.std.specs.Prelude.{Some};
    ghost use Rattle.mesh.specs.Faults.{merge_text};

    ghost output = { λ f. Some (merge_text f) };

    fn fmt<W: fmt::Write>(&self, f: &mut fmt::Formatter<W>) -> fmt::Result {
        write!(f, "refused 13 triangle {}", self.triangle)
    }
}

impl fmt::Display for ListFault {
    ghost use Rattle.std.specs.Prelude.{Some};
    ghost use Rattle.mesh.specs.Faults.{list_text};

    ghost output = { λ f. Some (list_text f) };

    fn fmt<W: fmt::Write>(&self, f: &mut fmt::Formatter<W>) -> fmt::Result {
        write!(f, "refused 16 places {}", self.places)
    }
}

impl Error for SplitFault {}

impl Error for MergeFault {}

impl Error for ListFault {}
