ghost use Rattle.std.specs.Prelude.{◌≡◌, ℕ, ◌<◌, ◌≤◌, true};
ghost use Rattle.bintree.specs.Views.{order_value};
ghost use Rattle.bintree.specs.Orders.{end};
ghost use Rattle.mesh.specs.Invariant.{Hole, Overlap, Crack};
ghost use Rattle.mesh.specs.TriangleSet.{triangles_in};

use bintree::order::Order;
use bintree::triangle::Triangle;
use triangle_set::TriangleSet;

mod changes;
mod listing;
mod reading;
mod triangle_set;

// A crack-free mesh of a terrain square: the square's order, and the triangles that are present. They cover the square, do not overlap, and no corner of one
// lies within an edge of another. (It has no `Model`: it stands for a set as a function of numbers, the words of the
// geometry. As a finite set, which a value may be, each clause would have to turn it into that function first.)
#[derive(Drop)]
pub struct Mesh {
    order: Order,
    present: TriangleSet,
    ghost inside: { (i : ℕ) → triangles_in present i ≡ true → (2 ≤ i) × (i < end (order_value order)) },
    ghost no_hole: { Hole (order_value order) (triangles_in present) → ⊥ },
    ghost no_overlap: { Overlap (order_value order) (triangles_in present) → ⊥ },
    ghost no_crack: { Crack (order_value order) (triangles_in present) → ⊥ },
}

impl Mesh {
    ghost use Rattle.std.specs.Prelude.{◌≡◌, true, false, MatchOption};
    ghost use Rattle.bintree.specs.Views.{Is};
    ghost use Rattle.mesh.specs.Sets.{mergeable as mergeable_in};
    ghost use Rattle.mesh.specs.Views.{order_of, triangles_of};

    // Triangle i, if it is present.
    fn triangle(&self, i: u32) -> Option<Triangle>
        ensures { MatchOption result
            (triangles_of self.now i ≡ false)
            (λ t. (triangles_of self.now i ≡ true) × Is t (order_of self.now) i) }
    {
        self.order.triangle(i).filter(|_| self.contains(i))
    }

    // Triangle i, if it is one of a mergeable diamond.
    fn mergeable(&self, i: u32) -> Option<Triangle>
        ensures { MatchOption result
            (mergeable_in (order_of self.now) i (triangles_of self.now) ≡ false)
            (λ t. (mergeable_in (order_of self.now) i (triangles_of self.now) ≡ true) × Is t (order_of self.now) i) }
    {
        self.order
            .triangle(i)
            .filter(|t| self.present.can_merge(*t))
    }
}
