// The calls that read a mesh.
ghost use Rattle.std.specs.Prelude.{◌≡◌};
ghost use Rattle.bintree.specs.Views.{order_value};
ghost use Rattle.mesh.specs.Sets.{count as count_of};
ghost use Rattle.mesh.specs.Laws.{Sound, CountLaw};
ghost use Rattle.mesh.specs.Views.{order_of, triangles_of, state_of};

use crate::mesh::Mesh;
use bintree::order::Order;

impl Mesh {
    // The order of the square. Every mesh is a crack-free mesh of its order.
    pub fn order(&self) -> Order
        ensures value { order_value result ≡ order_of self.now }
        ensures sound { Sound (state_of self.now) }
    {
        self.order
    }

    // Whether triangle i is in the mesh.
    pub fn contains(&self, i: u32) -> bool
        ensures { result ≡ triangles_of self.now i }
    {
        self.present.contains(i)
    }

    // How many triangles the mesh has: two more than it splits.
    pub fn count(&self) -> usize
        ensures value { result ≡ count_of (order_of self.now) (triangles_of self.now) }
        ensures law { CountLaw (order_of self.now) (triangles_of self.now) }
    {
        self.present.count(self.order)
    }
}
