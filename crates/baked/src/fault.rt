// Why a file is refused: a fault for each layer of the reader, those of the inner layers inside those of the outer ones. What a fault prints is its
// refusal: the number, and what comes with it. (The impls are written out, and not derived by thiserror, since each says what it gives.)
ghost use Rattle.std.specs.Prelude.{◌≡◌, Some};
ghost use Rattle.baked.specs.declared.fault.TrailerFault.TheVariants.{Order as OrderCase};
ghost use Rattle.baked.specs.declared.fault.TableFault.TheVariants.{Uncovered as UncoveredCase};
ghost use Rattle.baked.specs.declared.fault.SectionsFault.TheVariants.{Table as TableCase};
ghost use Rattle.baked.specs.declared.fault.FileFault.TheVariants.{Trailer as TrailerCase, Sections as SectionsCase};

use bintree::fault::OrderFault;
use std::error::Error;
use std::fmt;
use terrain::relief::CoverFault;

// The trailer is none: the file's length (refusal 1), a field that does not hold what it must, by its place in the file (refusal 2), or the
// order (refusal 3).
#[derive(Clone, Copy, PartialEq, Eq, Debug)]
pub enum TrailerFault {
    Length(usize),
    Field(usize),
    Order(u8),
}

#[derive(Clone, Copy, PartialEq, Eq, Debug)]
pub enum SectionName {
    Heights,
    Bounds,
}

// The table of bounds does not cover the heights: the lowest-numbered triangle whose bound breaks a rule (refusal 6).
#[derive(Clone, Copy, PartialEq, Eq, Debug)]
pub enum TableFault {
    Uncovered(u32),
}

// The sections do not lie as they must: a distance that leads to no place for its section (refusal 4), two sections that share a byte
// (refusal 5), or a fault of the table that they hold.
#[derive(Clone, Copy, PartialEq, Eq, Debug)]
pub enum SectionsFault {
    Distance(SectionName),
    Overlap,
    Table(TableFault),
}

#[derive(Clone, Copy, PartialEq, Eq, Debug)]
pub enum FileFault {
    Trailer(TrailerFault),
    Sections(SectionsFault),
}

impl fmt::Display for TrailerFault {
    ghost use Rattle.baked.specs.Texts.{trailer_text};

    ghost output = { λ f. Some (trailer_text f) };

    fn fmt<W: fmt::Write>(&self, f: &mut fmt::Formatter<W>) -> fmt::Result {
        match self {
            TrailerFault::Length(length) => write!(f, "refused 1 length {length}"),
            TrailerFault::Field(place) => write!(f, "refused 2 place {place}"),
            TrailerFault::Order(order) => write!(f, "refused 3 order {order}"),
        }
    }
}

impl fmt::Display for SectionName {
    ghost use Rattle.baked.specs.Texts.{section_text};

    ghost output = { λ f. Some (section_text f) };

    fn fmt<W: fmt::Write>(&self, f: &mut fmt::Formatter<W>) -> fmt::Result {
        match self {
            SectionName::Heights => write!(f, "heights"),
            SectionName::Bounds => write!(f, "bounds"),
        }
    }
}

impl fmt::Display for TableFault {
    ghost use Rattle.baked.specs.Texts.{table_text};

    ghost output = { λ f. Some (table_text f) };

    fn fmt<W: fmt::Write>(&self, f: &mut fmt::Formatter<W>) -> fmt::Result {
        match self {
            TableFault::Uncovered(triangle) => write!(f, "refused 6 triangle {triangle}"),
        }
    }
}

impl fmt::Display for SectionsFault {
    ghost use Rattle.baked.specs.Texts.{sections_text};

    ghost output = { λ f. Some (sections_text f) };

    fn fmt<W: fmt::Write>(&self, f: &mut fmt::Formatter<W>) -> fmt::Result {
        match self {
            SectionsFault::Distance(section) => write!(f, "refused 4 section {section}"),
            SectionsFault::Overlap => write!(f, "refused 5"),
            SectionsFault::Table(table) => write!(f, "{table}"),
        }
    }
}

impl fmt::Display for FileFault {
    ghost use Rattle.baked.specs.Texts.{file_text};

    ghost output = { λ f. Some (file_text f) };

    fn fmt<W: fmt::Write>(&self, f: &mut fmt::Formatter<W>) -> fmt::Result {
        match self {
            FileFault::Trailer(trailer) => write!(f, "{trailer}"),
            FileFault::Sections(sections) => write!(f, "{sections}"),
        }
    }
}

impl Error for TrailerFault {}

impl Error for TableFault {}

impl Error for SectionsFault {}

impl Error for FileFault {}

impl From<OrderFault> for TrailerFault {
    ghost from_gives = { λ e r. r ≡ OrderCase e.order };

    fn from(fault: OrderFault) -> TrailerFault {
        TrailerFault::Order(fault.order)
    }
}

impl From<CoverFault> for TableFault {
    ghost from_gives = { λ e r. r ≡ UncoveredCase e.triangle };

    fn from(fault: CoverFault) -> TableFault {
        TableFault::Uncovered(fault.triangle)
    }
}

impl From<TableFault> for SectionsFault {
    ghost from_gives = { λ e r. r ≡ TableCase e };

    fn from(fault: TableFault) -> SectionsFault {
        SectionsFault::Table(fault)
    }
}

impl From<TrailerFault> for FileFault {
    ghost from_gives = { λ e r. r ≡ TrailerCase e };

    fn from(fault: TrailerFault) -> FileFault {
        FileFault::Trailer(fault)
    }
}

impl From<SectionsFault> for FileFault {
    ghost from_gives = { λ e r. r ≡ SectionsCase e };

    fn from(fault: SectionsFault) -> FileFault {
        FileFault::Sections(fault)
    }
}
