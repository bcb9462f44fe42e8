// Which triangles a line meets.
ghost use Rattle.std.specs.Prelude.{◌≡◌, Decides};
ghost use Rattle.std.specs.List.{list_all};
ghost use Rattle.bintree.specs.Samples.{way};
ghost use Rattle.bintree.specs.Views.{corners_of};
ghost use Rattle.plan.specs.Lines.{line_way, Meets, beyond as beyond_of, meets as meets_of};

use crate::spot::Line;
use bintree::point::{Corners, Point, Way};
use bintree::triangle::Triangle;

// Whether all points lie strictly to the right of the way.
fn beyond(way: Way, points: &[Point]) -> bool
    ensures { result ≡ list_all (beyond_of way.from way.to) points.now }
{
    points.iter().all(|point| !way.beside(*point))
}

// The way back.
fn back(there: Way) -> Way
    ensures { result ≡ way there.to there.from }
{
    Way {
        from: there.to,
        to: there.from,
    }
}

// Whether neither an edge of the triangle nor the way along the line parts the two.
fn unparted(line: Way, t: Corners) -> bool
    ensures { result ≡ meets_of line.from line.to t }
{
    let ends = [line.from, line.to];
    let corners = [t.apex, t.left, t.right];
    let cut_off = t.edges().iter().any(|edge| beyond(*edge, &ends));
    !(cut_off || beyond(line, &corners) || beyond(back(line), &corners))
}

impl Line {
    // Whether the closed line and the closed triangle have a point in common.
    pub fn meets(self, triangle: Triangle) -> bool
        ensures value { result ≡ meets_of (line_way self).from (line_way self).to (corners_of triangle) }
        ensures geometry { Decides result (Meets (line_way self).from (line_way self).to (corners_of triangle)) }
    {
        unparted(Way::from(self), triangle.corners())
    }
}
