// Sets of triangles by their numbers, and what splits and merges do to them.
ghost use Rattle.std.specs.Prelude.{◌≡◌, vec_len};

use bintree::order::Order;
use bintree::triangle::Triangle;
use std::alloc::{AllocError, Global};

// How many flags a set has: as many as order 6, the greatest, has triangle numbers.
const FLAGS: usize = 16384;

// A set of triangles of one square: a flag for each triangle number. (A set of std's takes memory as it grows, and a mesh takes its memory once. That a triangle is
// splittable stays a condition of the steps: a type for one inequality would have all of Triangle's methods again.)
#[derive(Drop)]
pub(super) struct TriangleSet {
    flags: Vec<bool>,
    ghost room: { vec_len flags ≡ 16384 },
}

impl TriangleSet {
    ghost use Rattle.std.specs.Prelude.{◌≡◌, ◌<◌, true, IfOk};
    ghost use Rattle.bintree.specs.Orders.{first_finest};
    ghost use Rattle.bintree.specs.Views.{order_value, order_of, number_of};
    ghost use Rattle.mesh.specs.Sets.{roots, halve as halved, rejoin as rejoined, split, halves_in, mergeable, merge as merged, count as count_of};
    ghost use Rattle.mesh.specs.Laws.{CrackFreeMesh};
    ghost use Rattle.mesh.specs.TriangleSet.{triangles_in};

    // The two roots. All the memory that a set ever needs is taken here.
    pub(super) fn new(heap: Global) -> Result<TriangleSet, AllocError>
        ensures { IfOk result (λ s. triangles_in s ≡ roots) }
    {
        let flags = vec![in heap; false; FLAGS]?;
        let mut set = TriangleSet { flags };
        set.reset();
        Ok(set)
    }

    // Back to the two roots.
    pub(super) fn reset(&mut self)
        ensures { triangles_in self.new ≡ roots }
    {
        self.flags.fill(false);
        self.flags[2] = true;
        self.flags[3] = true;
    }

    // Whether triangle i is present; no number past the flags is.
    pub(super) fn contains(&self, i: u32) -> bool
        ensures { result ≡ triangles_in self.now i }
    {
        self.flags.get(i as usize).is_some_and(|present| *present)
    }

    // How many triangles of this order are present. (A sum of the flags: `filter` and `count` branch at each, and took three times as long.)
    pub(super) fn count(&self, order: Order) -> usize
        ensures { result ≡ count_of (order_value order) (triangles_in self.now) }
    {
        let flags = &self.flags[..order.end() as usize];
        flags.iter().map(|present| usize::from(*present)).sum()
    }

    // Puts the halves of t in its place. (`rejoin` is the step back: one function with a flag that says which would be no plainer.)
    #[tactic(auto, using(crate::proofs::Flags::halves_fit))]
    fn halve(&mut self, t: Triangle)
        requires splittable { number_of t < first_finest (order_of t) }
        ensures { triangles_in self.new ≡ halved (number_of t) (triangles_in self.old) }
    {
        let i = t.number() as usize;
        self.flags[i] = false;
        self.flags[2 * i] = true;
        self.flags[2 * i + 1] = true;
    }

    // Puts t in the place of its halves.
    #[tactic(auto, using(crate::proofs::Flags::halves_fit))]
    fn rejoin(&mut self, t: Triangle)
        requires splittable { number_of t < first_finest (order_of t) }
        ensures { triangles_in self.new ≡ rejoined (number_of t) (triangles_in self.old) }
    {
        let i = t.number() as usize;
        self.flags[2 * i] = false;
        self.flags[2 * i + 1] = false;
        self.flags[i] = true;
    }

    // Splits the present triangle t, and its partner if it has one. If the partner is not present, its parent holds it, and is split first, by this same rule: the
    // parent's level is above that of t.
    pub(super) fn split_forced(&mut self, t: Triangle)
        requires whole { CrackFreeMesh (order_of t) (triangles_in self.old) }
        requires there { triangles_in self.old (number_of t) ≡ true }
        requires splittable { number_of t < first_finest (order_of t) }
        ensures { triangles_in self.new ≡ split (order_of t) (number_of t) (triangles_in self.old) }
    {
        if let Some(partner) = t.partner() {
            if !self.contains(partner.number()) {
                self.split_forced(partner.parent().unwrap());
            }
            self.halve(partner);
        }
        self.halve(t);
    }

    // Whether both halves of t are present.
    fn has_halves(&self, t: Triangle) -> bool
        ensures { result ≡ halves_in (triangles_in self.now) (number_of t) }
    {
        let low = 2 * t.number();
        self.contains(low) && self.contains(low + 1)
    }

    // Whether the diamond of t is mergeable: all halves of its triangles are present.
    pub(super) fn can_merge(&self, t: Triangle) -> bool
        ensures { result ≡ mergeable (order_of t) (number_of t) (triangles_in self.now) }
    {
        self.has_halves(t) && t.partner().is_none_or(|partner| self.has_halves(partner))
    }

    // Puts the triangles of the diamond of t back.
    pub(super) fn merge(&mut self, t: Triangle)
        requires splittable { number_of t < first_finest (order_of t) }
        ensures { triangles_in self.new ≡ merged (order_of t) (number_of t) (triangles_in self.old) }
    {
        if let Some(partner) = t.partner() {
            self.rejoin(partner);
        }
        self.rejoin(t);
    }
}
