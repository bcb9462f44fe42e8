// The calls that make and change a mesh.
ghost use Rattle.std.specs.Prelude.{◌≡◌, true, is_ok, IfOk};
ghost use Rattle.bintree.specs.Refusals.{told, order_refusal};
ghost use Rattle.mesh.specs.Faults.{split_refusal, merge_refusal};
ghost use Rattle.mesh.specs.Calls.{new_mesh, done, outcome, reset_call, split_call, merge_call};
ghost use Rattle.mesh.specs.Laws.{RunsSound, SplitLaws, MergeLaws};
ghost use Rattle.mesh.specs.Views.{order_of, triangles_of, state_of};

use crate::fault::{MergeFault, SplitFault};
use crate::mesh::Mesh;
use crate::mesh::triangle_set::TriangleSet;
use bintree::fault::OrderFault;
use bintree::order::Order;
use std::alloc::{AllocError, Global};

impl Mesh {
    // A new mesh: order 1, and the triangles 2 and 3. All the memory that a mesh ever needs is taken here.
    #[tactic(auto, using(crate::proofs::Runs::runs_sound))]
    pub fn new(heap: Global) -> Result<Mesh, AllocError>
        ensures made { IfOk result (λ m. state_of m ≡ new_mesh) }
        ensures runs { RunsSound }
    {
        let present = TriangleSet::new(heap)?;
        let order = Order::new(1).unwrap();
        Ok(Mesh { order, present })
    }

    // Makes the mesh the two roots of a square of this order. (The order is a raw number, since a script hands it in.)
    pub fn reset(&mut self, order: u8) -> Result<(), OrderFault>
        ensures { outcome (told (λ _. done) order_refusal result) (state_of self.new) ≡ reset_call (state_of self.old) order }
    {
        self.order = Order::new(order)?;
        self.present.reset();
        Ok(())
    }

    // Splits triangle i, and first what that forces.
    pub fn split(&mut self, i: u32) -> Result<(), SplitFault>
        ensures gives { outcome (told (λ _. done) split_refusal result) (state_of self.new) ≡ split_call (state_of self.old) i }
        ensures laws { is_ok result ≡ true → SplitLaws (order_of self.old) i (triangles_of self.old) (triangles_of self.new) }
    {
        let t = self.triangle(i).ok_or(SplitFault::Absent(i))?;
        if i >= self.order.first_finest() {
            return Err(SplitFault::Finest(i));
        }
        self.present.split_forced(t);
        Ok(())
    }

    // Merges the diamond of triangle i: puts its triangles back in the place of their halves.
    pub fn merge(&mut self, i: u32) -> Result<(), MergeFault>
        ensures gives { outcome (told (λ _. done) merge_refusal result) (state_of self.new) ≡ merge_call (state_of self.old) i }
        ensures laws { is_ok result ≡ true → MergeLaws (order_of self.old) i (triangles_of self.old) (triangles_of self.new) }
    {
        let t = self.mergeable(i).ok_or(MergeFault { triangle: i })?;
        self.present.merge(t);
        Ok(())
    }
}
