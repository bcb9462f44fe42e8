// The rules tried on examples.
use crate::camera_rule::CameraRule;
use crate::level_rule::LevelRule;
use crate::sight_line::SightLine;
use crate::stored::Stored;
use crate::window::Window;
use bintree::fault::OrderFault;
use bintree::point::Point;
use optics::camera::Camera;
use optics::lens::Lens;
use plan::spot::{Line, Rectangle, Spot};
use policy::policy::Policy;
use std::alloc::Global;
use std::process::Abort;
use std::test::Fail;
use terrain::draft::Draft;
use terrain::map::Map;

// Order 1, heights 0 but z(1, 1) = 10 and z(1, 0) = 3. The bounds of 2 to 7 are 26, 20, 6, 0, 0, 0.
fn small_map(heap: Global) -> Result<Map, Fail> {
    let mut draft = Draft::new(heap)?;
    draft.set(Point { x: 1, y: 1 }, 10)?;
    draft.set(Point { x: 1, y: 0 }, 3)?;
    Ok(draft.measure())
}

// The numbers of 2 to 9, and 0 for what is no triangle.
fn numbers_are<P: Policy>(rt: &impl Abort, policy: &P, expected: [u32; 8]) {
    for (triangle, number) in (2..10).zip(expected) {
        assert_eq!(rt; policy.priority(triangle), number);
    }
    for none in [0, 1, 16, 4294967295] {
        assert_eq!(rt; policy.priority(none), 0);
    }
    assert_eq!(rt; policy.order().value(), 1);
}

fn spot((x, y): (u8, u8)) -> Spot {
    Spot { x, y }
}

fn line(from: (u8, u8), to: (u8, u8)) -> Line {
    Line {
        from: spot(from),
        to: spot(to),
    }
}

fn rectangle(corner: (u8, u8), opposite: (u8, u8)) -> Rectangle {
    Rectangle {
        corner: spot(corner),
        opposite: spot(opposite),
    }
}

#[test]
fn stored(rt: HostRuntime) -> Result<(), Fail> {
    let map = small_map(rt.alloc())?;
    numbers_are(&rt, &Stored { map: &map }, [26, 20, 6, 0, 0, 0, 0, 0]);
    Ok(())
}

#[test]
fn level(rt: HostRuntime) -> Result<(), Fail> {
    numbers_are(&rt, &LevelRule::new(1)?, [2, 2, 1, 1, 1, 1, 0, 0]);
    for order in [0, 7] {
        assert_eq!(rt; LevelRule::new(order).err(), Some(OrderFault { order }));
    }
    Ok(())
}

#[test]
fn perspective(rt: HostRuntime) -> Result<(), Fail> {
    let map = small_map(rt.alloc())?;
    let camera = Camera::Perspective {
        eye_x: 0.5,
        eye_y: 0.5,
        focal: 2.0,
    };
    let rule = CameraRule {
        map: &map,
        lens: Lens::try_from(camera)?,
    };
    numbers_are(&rt, &rule, [52, 40, 12, 0, 0, 0, 0, 0]);
    Ok(())
}

#[test]
fn overhead(rt: HostRuntime) -> Result<(), Fail> {
    let map = small_map(rt.alloc())?;
    let camera = Camera::Overhead { focal: 0.5 };
    let rule = CameraRule {
        map: &map,
        lens: Lens::try_from(camera)?,
    };
    numbers_are(&rt, &rule, [13, 10, 3, 0, 0, 0, 0, 0]);
    Ok(())
}

// (1, 0) is on an edge of 2, on the base of 4, and the apex of 8 and 9.
#[test]
fn sight_line(rt: HostRuntime) -> Result<(), Fail> {
    let map = small_map(rt.alloc())?;
    let point = SightLine {
        below: Stored { map: &map },
        line: line((1, 0), (1, 0)),
    };
    numbers_are(
        &rt,
        &point,
        [u32::MAX, 20, u32::MAX, 0, 0, 0, u32::MAX, u32::MAX],
    );
    let edge = SightLine {
        below: &point,
        line: line((0, 2), (0, 0)),
    };
    numbers_are(
        &rt,
        &edge,
        [
            u32::MAX,
            u32::MAX,
            u32::MAX,
            u32::MAX,
            u32::MAX,
            0,
            u32::MAX,
            u32::MAX,
        ],
    );
    Ok(())
}

// The box of 4 is that from (0, 0) to (2, 1), those of 2 and 3 the whole square.
#[test]
fn window(rt: HostRuntime) -> Result<(), Fail> {
    let map = small_map(rt.alloc())?;
    let stored = Stored { map: &map };
    let corner = Window {
        below: &stored,
        rectangle: rectangle((2, 2), (2, 2)),
    };
    numbers_are(&rt, &corner, [26, 20, 0, 0, 0, 0, 0, 0]);
    let low = Window {
        below: stored,
        rectangle: rectangle((9, 0), (2, 1)),
    };
    numbers_are(&rt, &low, [26, 20, 6, 0, 0, 0, 0, 0]);
    let out = Window {
        below: low,
        rectangle: rectangle((3, 3), (255, 255)),
    };
    numbers_are(&rt, &out, [0, 0, 0, 0, 0, 0, 0, 0]);
    Ok(())
}
