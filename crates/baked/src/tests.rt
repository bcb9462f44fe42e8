// Files byte by byte, at the edges of each test.
use crate::fault::{FileFault, SectionName, SectionsFault, TableFault, TrailerFault};
use crate::reader::Reader;
use bintree::point::Point;
use std::alloc::{AllocError, Global};
use std::process::Abort;
use std::test::Fail;
use terrain::draft::Draft;
use terrain::fault::CarveFault;
use terrain::map::Map;

// Order 1: heights 0 but 3 at (1, 0) and 10 at (1, 1), with the measured bounds of the triangles 2 to 7.
const FILE: [u8; 54] = [
    0, 0, 3, 0, 0, 0, 0, 0, 10, 0, 0, 0, 0, 0, 0, 0, 0, 0, // heights
    26, 0, 0, 0, 20, 0, 0, 0, 6, 0, 0, 0, 0, 0, 0, 0, 0, 0, 0, 0, 0, 0, 0, 0, // bounds
    42, 0, 0, 0, 24, 0, 0, 0, 1, 1, 0, 0, // trailer
];

// The same with the bounds in front, and with bytes before, between and behind that are skipped.
const SPREAD: [u8; 60] = [
    238, 238, 238, //
    26, 0, 0, 0, 20, 0, 0, 0, 6, 0, 0, 0, 0, 0, 0, 0, 0, 0, 0, 0, 0, 0, 0, 0, // bounds
    1, 2, //
    0, 0, 3, 0, 0, 0, 0, 0, 10, 0, 0, 0, 0, 0, 0, 0, 0, 0, // heights
    7, //
    19, 0, 0, 0, 45, 0, 0, 0, 1, 1, 0, 0, // trailer
];

// A distance that leads to no place for the section.
const HEIGHTS: SectionsFault = SectionsFault::Distance(SectionName::Heights);

const BOUNDS: SectionsFault = SectionsFault::Distance(SectionName::Bounds);

fn new_map(heap: Global) -> Result<Map, AllocError> {
    Ok(Draft::new(heap)?.measure())
}

// Why a file's sections are not given out; none where they are.
fn refusal(file: &[u8]) -> Option<FileFault> {
    Reader::over(file).sections().err()
}

fn check_map(rt: &impl Abort, map: &Map) {
    for (x, y, z) in [(0, 0, 0), (1, 0, 3), (0, 1, 0), (1, 1, 10)] {
        assert_eq!(rt; map.height(Point { x, y }), Some(z));
    }
    for (triangle, bound) in [(2, 26), (3, 20), (4, 6), (7, 0), (8, 0)] {
        assert_eq!(rt; map.bound(triangle), Some(bound));
    }
}

#[test]
fn sections_in_either_order(rt: HostRuntime) -> Result<(), Fail> {
    let mut map = new_map(rt.alloc())?;
    let sections = Reader::over(&SPREAD).sections()?;
    assert_eq!(rt; (sections.heights.place, sections.bounds.place), (29, 3));
    Reader::over(&SPREAD).fill(&mut map)?;
    check_map(&rt, &map);
    Reader::over(&FILE).fill(&mut map)?;
    check_map(&rt, &map);
    Ok(())
}

#[test]
fn lengths(rt: HostRuntime) -> Result<(), Fail> {
    for (length, fault) in [
        (11, TrailerFault::Length(11)),
        (12, TrailerFault::Field(9)),
        (65536, TrailerFault::Field(65533)),
        (65537, TrailerFault::Length(65537)),
    ] {
        let file = vec![in rt.alloc(); 0; length]?;
        assert_eq!(rt; refusal(&file), Some(FileFault::Trailer(fault)));
    }
    Ok(())
}

#[test]
fn trailers(rt: HostRuntime) {
    for (order, edition, closing, fault) in [
        (0, 2, 1, FileFault::Trailer(TrailerFault::Field(51))),
        (0, 1, 1, FileFault::Trailer(TrailerFault::Field(52))),
        (0, 1, 0, FileFault::Trailer(TrailerFault::Order(0))),
        (7, 1, 0, FileFault::Trailer(TrailerFault::Order(7))),
        (2, 1, 0, FileFault::Sections(HEIGHTS)),
    ] {
        let mut file = FILE;
        file[50] = order;
        file[51] = edition;
        file[53] = closing;
        assert_eq!(rt; refusal(&file), Some(fault));
    }
}

#[test]
fn distances(rt: HostRuntime) {
    for (heights, bounds, fault) in [
        (42, 24, None),
        (18, 42, None),
        (43, 24, Some(HEIGHTS)),
        (17, 43, Some(HEIGHTS)),
        (42, 23, Some(BOUNDS)),
        (42, 43, Some(BOUNDS)),
        (42, 25, Some(SectionsFault::Overlap)),
        (19, 42, Some(SectionsFault::Overlap)),
    ] {
        let mut file = FILE;
        file[42] = heights;
        file[46] = bounds;
        assert_eq!(rt; refusal(&file), fault.map(FileFault::Sections));
    }
}

// The bounds of the triangles 2 and 4, the first by its lowest and its highest byte.
#[test]
fn tables(rt: HostRuntime) -> Result<(), Fail> {
    let mut map = new_map(rt.alloc())?;
    Reader::over(&FILE).fill(&mut map)?;
    for (low, high, four, triangle) in [(25, 0, 6, 2), (26, 0, 5, 4), (26, 1, 6, 2)] {
        let mut file = FILE;
        file[18] = low;
        file[21] = high;
        file[26] = four;
        let fault = SectionsFault::Table(TableFault::Uncovered(triangle));
        assert_eq!(rt;
            Reader::over(&file).fill(&mut map),
            Err(FileFault::Sections(fault))
        );
        check_map(&rt, &map);
    }
    Ok(())
}

// The largest file, of the largest order and with the greatest bounds. Raising the corner (64, 0) would then take bounds past the limit, and
// 3754 is the last triangle that has one half with that corner and one without.
#[test]
fn the_largest(rt: HostRuntime) -> Result<(), Fail> {
    let mut map = new_map(rt.alloc())?;
    let mut file = vec![in rt.alloc(); 0; 32764]?;
    for _ in 0..8190 {
        file.extend_from_slice(&[255, 255, 255, 0])?;
    }
    file.extend_from_slice(&[244, 255, 0, 0, 248, 127, 0, 0, 6, 1, 0, 0])?;
    Reader::over(&file).fill(&mut map)?;
    let carved = map.carve(Point { x: 64, y: 0 }, 1);
    assert_eq!(rt; carved, Err(CarveFault::Passing(3754)));
    assert_eq!(rt; file.len(), 65536);
    assert_eq!(rt; map.bound(8191), Some(16777215));
    Ok(())
}
