// Lines and rectangles tried on the triangles of order 1: 2 is (0, 0), (2, 0), (0, 2) and 4 is (1, 1), (0, 0), (2, 0).
use crate::spot::{Line, Rectangle, Spot};
use bintree::order::Order;
use bintree::triangle::Triangle;

fn triangle(number: u32) -> Option<Triangle> {
    Order::new(1).ok()?.triangle(number)
}

fn spot(at: (u8, u8)) -> Spot {
    Spot { x: at.0, y: at.1 }
}

// Whether the line meets the triangle; it does so from either end.
fn meets(from: (u8, u8), to: (u8, u8), number: u32) -> Option<bool> {
    let there = Line {
        from: spot(from),
        to: spot(to),
    };
    let back = Line {
        from: spot(to),
        to: spot(from),
    };
    let t = triangle(number)?;
    Some(there.meets(t)).filter(|met| back.meets(t) == *met)
}

// Whether the rectangle touches the triangle's box; it does so whichever corners it is given by.
fn touches(corner: (u8, u8), opposite: (u8, u8), number: u32) -> Option<bool> {
    let given = Rectangle {
        corner: spot(corner),
        opposite: spot(opposite),
    };
    let turned = Rectangle {
        corner: spot((opposite.0, corner.1)),
        opposite: spot((corner.0, opposite.1)),
    };
    let t = triangle(number)?;
    Some(given.touches(t)).filter(|touched| turned.touches(t) == *touched)
}

#[test]
fn lines_that_meet(rt: HostRuntime) {
    // One point: a corner, on an edge, inside; a corner and an edge from afar; along an edge; across; from within.
    assert_eq!(rt; meets((0, 0), (0, 0), 2), Some(true));
    assert_eq!(rt; meets((1, 1), (1, 1), 2), Some(true));
    assert_eq!(rt; meets((1, 0), (1, 0), 4), Some(true));
    assert_eq!(rt; meets((2, 0), (255, 0), 4), Some(true));
    assert_eq!(rt; meets((0, 4), (4, 0), 7), Some(true));
    assert_eq!(rt; meets((0, 0), (2, 0), 4), Some(true));
    assert_eq!(rt; meets((0, 2), (2, 0), 4), Some(true));
    assert_eq!(rt; meets((1, 0), (200, 3), 4), Some(true));
}

#[test]
fn lines_that_miss(rt: HostRuntime) {
    // Beyond an edge; past a corner, beyond no edge with both ends; one point outside; along an edge's line, beside it.
    assert_eq!(rt; meets((2, 1), (1, 2), 2), Some(false));
    assert_eq!(rt; meets((1, 2), (3, 0), 4), Some(false));
    assert_eq!(rt; meets((0, 1), (2, 2), 4), Some(false));
    assert_eq!(rt; meets((2, 2), (2, 2), 2), Some(false));
    assert_eq!(rt; meets((3, 0), (255, 0), 4), Some(false));
}

#[test]
fn rectangles(rt: HostRuntime) {
    assert_eq!(rt; touches((2, 2), (2, 2), 2), Some(true));
    assert_eq!(rt; touches((2, 1), (9, 9), 4), Some(true));
    assert_eq!(rt; touches((0, 0), (255, 255), 15), Some(true));
    assert_eq!(rt; touches((2, 2), (2, 2), 4), Some(false));
    assert_eq!(rt; touches((3, 0), (9, 9), 4), Some(false));
    assert_eq!(rt; touches((0, 2), (9, 9), 4), Some(false));
}
