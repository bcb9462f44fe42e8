// Answers, and how they are written.
use bintree::order::Order;
use bintree::triangle::Triangle;
use mesh::mesh::Mesh;
use std::fmt;

// What a line is answered where it is done: that it is, or what it asked for.
#[derive(Clone, Copy)]
pub enum Answer<'a> {
    Done,
    // A triangle, if the number that was asked for is one.
    Triangle(Option<Triangle>),
    // The order of a baked file, and the places of its sections.
    Loaded {
        order: Order,
        heights: usize,
        bounds: usize,
    },
    Shown(&'a Mesh),
    // The vertex numbers of each triangle: apex, left, right.
    Listed(&'a [[u16; 3]]),
}

impl fmt::Display for Answer<'_> {
    fn fmt<W: fmt::Write>(&self, f: &mut fmt::Formatter<W>) -> fmt::Result {
        match self {
            Answer::Done => write!(f, "ok"),
            Answer::Triangle(None) => write!(f, "no triangle"),
            Answer::Triangle(Some(t)) => write_triangle(f, *t),
            Answer::Loaded {
                order,
                heights,
                bounds,
            } => write!(
                f,
                "ok order {} heights at {heights} bounds at {bounds}",
                order.value()
            ),
            Answer::Shown(mesh) => write_mesh(f, mesh),
            Answer::Listed(triangles) => write_list(f, triangles),
        }
    }
}

fn write_triangle<W: fmt::Write>(f: &mut fmt::Formatter<W>, t: Triangle) -> fmt::Result {
    let corners = t.corners();
    let (a, l, r) = (corners.apex, corners.left, corners.right);
    write!(
        f,
        "level {} apex {} {} left {} {} right {} {} partner {}",
        t.level(),
        a.x,
        a.y,
        l.x,
        l.y,
        r.x,
        r.y,
        // A script reads 0 where there is none.
        t.partner().map_or(0, Triangle::number)
    )
}

// The present triangles by rising number, parted by one space.
fn write_mesh<W: fmt::Write>(f: &mut fmt::Formatter<W>, mesh: &Mesh) -> fmt::Result {
    let mut present = (2..mesh.order().end()).filter(|&i| mesh.contains(i));
    if let Some(first) = present.next() {
        write!(f, "{first}")?;
    }
    for i in present {
        write!(f, " {i}")?;
    }
    Ok(())
}

// How many triangles an index list has, and each on a line of its own.
fn write_list<W: fmt::Write>(f: &mut fmt::Formatter<W>, triangles: &[[u16; 3]]) -> fmt::Result {
    write!(f, "{} triangles", triangles.len())?;
    for [apex, left, right] in triangles {
        write!(f, "\n{apex} {left} {right}")?;
    }
    Ok(())
}
