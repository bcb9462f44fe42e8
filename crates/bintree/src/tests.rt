// Triangles tried on examples.
use crate::order::Order;
use crate::point::{Corners, Point};
use crate::triangle::Triangle;
use std::test::Fail;

fn triangle(order: u8, number: u32) -> Option<Triangle> {
    Order::new(order).ok()?.triangle(number)
}

// The number of a triangle's partner, 0 for none, as the definition has it.
fn partner(order: u8, number: u32) -> Option<u32> {
    let partner = triangle(order, number)?.partner();
    Some(partner.map_or(0, Triangle::number))
}

fn corners(a: (u32, u32), l: (u32, u32), r: (u32, u32)) -> Corners {
    Corners {
        apex: Point { x: a.0, y: a.1 },
        left: Point { x: l.0, y: l.1 },
        right: Point { x: r.0, y: r.1 },
    }
}

#[test]
fn partners_of_order_two(rt: HostRuntime) {
    assert_eq!(rt; partner(2, 8), Some(11));
    assert_eq!(rt; partner(2, 11), Some(8));
    assert_eq!(rt; partner(2, 4), Some(0));
    assert_eq!(rt; partner(2, 9), Some(14));
    assert_eq!(rt; partner(2, 2), Some(3));
}

#[test]
fn corners_of_order_two(rt: HostRuntime) -> Result<(), Fail> {
    let table = [
        (2, corners((0, 0), (4, 0), (0, 4))),
        (3, corners((4, 4), (0, 4), (4, 0))),
        (4, corners((2, 2), (0, 0), (4, 0))),
        (5, corners((2, 2), (0, 4), (0, 0))),
        (6, corners((2, 2), (4, 4), (0, 4))),
        (7, corners((2, 2), (4, 0), (4, 4))),
        (8, corners((2, 0), (2, 2), (0, 0))),
        (9, corners((2, 0), (4, 0), (2, 2))),
        (10, corners((0, 2), (2, 2), (0, 4))),
        (11, corners((0, 2), (0, 0), (2, 2))),
        (16, corners((1, 1), (2, 0), (2, 2))),
        (32, corners((2, 1), (1, 1), (2, 0))),
        (63, corners((3, 2), (4, 2), (3, 3))),
    ];
    for (number, expected) in table {
        let Some(t) = triangle(2, number) else {
            return Err(Fail::new("no triangle"));
        };
        assert_eq!(rt; t.corners(), expected);
    }
    Ok(())
}

#[test]
fn no_triangles(rt: HostRuntime) {
    for number in [0, 1, 64, 4294967295] {
        assert!(rt; triangle(2, number).is_none());
    }
    assert!(rt; triangle(0, 2).is_none());
    assert!(rt; triangle(7, 2).is_none());
}

#[test]
fn samples_of_a_triangle(rt: HostRuntime) -> Result<(), Fail> {
    let Some(four) = triangle(2, 4) else {
        return Err(Fail::new("no triangle"));
    };
    for (x, y) in [(2, 2), (1, 1), (3, 0), (0, 0), (4, 0)] {
        assert!(rt; four.holds(Point { x, y }));
    }
    for (x, y) in [(1, 2), (0, 1), (4294967295, 4294967295)] {
        assert!(rt; !four.holds(Point { x, y }));
    }
    assert_eq!(rt; four.level(), 1);
    assert_eq!(rt; four.centre(), Some(Point { x: 2, y: 0 }));
    Ok(())
}
