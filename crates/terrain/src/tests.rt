// Drafts and maps tried on examples.
use crate::draft::Draft;
use crate::fault::{CarveFault, PointFault};
use crate::map::Map;
use bintree::fault::OrderFault;
use bintree::point::Point;
use std::process::Abort;
use std::test::Fail;

fn bounds_are(rt: &impl Abort, map: &Map, expected: &[(u32, u32)]) {
    for &(number, bound) in expected {
        assert_eq!(rt; map.bound(number), Some(bound));
    }
}

// Order 1, heights 0 but z(1, 1) = 10 and z(1, 0) = 3; then (1, 0) is carved to 0.
#[test]
fn the_small_map(rt: HostRuntime) -> Result<(), Fail> {
    let mut draft = Draft::new(rt.alloc())?;
    draft.set(Point { x: 1, y: 1 }, 10)?;
    draft.set(Point { x: 1, y: 0 }, 3)?;
    let mut map = draft.measure();
    bounds_are(
        &rt,
        &map,
        &[(2, 26), (3, 20), (4, 6), (5, 0), (6, 0), (7, 0)],
    );
    map.carve(Point { x: 1, y: 0 }, 0)?;
    bounds_are(
        &rt,
        &map,
        &[(2, 20), (3, 20), (4, 0), (5, 0), (6, 0), (7, 0)],
    );
    Ok(())
}

#[test]
fn no_order(rt: HostRuntime) -> Result<(), Fail> {
    let mut draft = Draft::new(rt.alloc())?;
    for order in [0, 7, 255] {
        assert_eq!(rt; draft.reset(order), Err(OrderFault { order }));
    }
    Ok(())
}

#[test]
fn no_sample(rt: HostRuntime) -> Result<(), Fail> {
    let mut draft = Draft::new(rt.alloc())?;
    let point = Point { x: 0, y: 3 };
    let outside = PointFault { point };
    assert_eq!(rt; draft.set(point, 9), Err(outside));
    let mut map = draft.measure();
    assert_eq!(rt; map.carve(point, 9), Err(CarveFault::Outside(outside)));
    assert_eq!(rt; map.height(point), None);
    Ok(())
}

// One sample of a flat map of order 6, a corner of the square, on its edge, in its middle, is raised by 100 and put back. Raised, it adds 200
// where it is the centre of a triangle, and 100 for each deeper level at which it is an end of a base.
#[test]
fn the_largest_map(rt: HostRuntime) -> Result<(), Fail> {
    let mut draft = Draft::new(rt.alloc())?;
    draft.reset(6)?;
    let mut map = draft.measure();
    for (x, y, two, three, four) in [
        (0, 0, 1100, 0, 1100),
        (32, 0, 1100, 0, 1100),
        (32, 32, 1200, 1200, 1000),
    ] {
        map.carve(Point { x, y }, 100)?;
        bounds_are(&rt, &map, &[(2, two), (3, three), (4, four)]);
        map.carve(Point { x, y }, 0)?;
        bounds_are(&rt, &map, &[(2, 0), (3, 0), (4, 0)]);
    }
    Ok(())
}
