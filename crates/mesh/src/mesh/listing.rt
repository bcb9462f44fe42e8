// The index list of a mesh, for the graphics card: three vertex numbers a triangle.
ghost use Rattle.std.specs.Prelude.{◌≡◌, ◌*◌, ◌≤◌, length};
ghost use Rattle.bintree.specs.Orders.{side as side_of};
ghost use Rattle.bintree.specs.Refusals.{told};
ghost use Rattle.bintree.specs.Views.{order_value, order_of as triangle_order, corners_of};
ghost use Rattle.mesh.specs.Sets.{count as count_of};
ghost use Rattle.mesh.specs.Faults.{list_refusal};
ghost use Rattle.mesh.specs.IndexList.{vertex as vertex_of, vertices as vertices_of, index_list as list_of, listing as listed, list_call};
ghost use Rattle.mesh.specs.Views.{order_of, triangles_of};

use crate::fault::ListFault;
use crate::mesh::Mesh;
use bintree::order::Order;
use bintree::point::Point;
use bintree::triangle::Triangle;

// The number of the vertex at p, a point of the square: row by row, x rising.
fn vertex(order: Order, p: Point) -> u16
    requires across { p.x ≤ side_of (order_value order) }
    requires along { p.y ≤ side_of (order_value order) }
    ensures { result ≡ vertex_of (order_value order) p }
{
    (p.y * (order.side() + 1) + p.x) as u16
}

// The vertices of t: apex, left, right.
fn vertices(t: Triangle) -> [u16; 3]
    ensures { result ≡ vertices_of (triangle_order t) (corners_of t) }
{
    let order = t.order();
    let corners = t.corners();
    [
        vertex(order, corners.apex),
        vertex(order, corners.left),
        vertex(order, corners.right),
    ]
}

impl Mesh {
    // Fills the places with the index list. (Of places that `chunks_exact_mut` hands out no proof knows what they hold afterwards, so they are counted.)
    fn write_list(&self, places: &mut [u16])
        requires { length places.old ≡ 3 * count_of (order_of self.now) (triangles_of self.now) }
        ensures { places.new ≡ list_of (order_of self.now) (triangles_of self.now) }
    {
        let mut at: usize = 0;
        for i in 0..self.order.end() {
            if let Some(t) = self.triangle(i) {
                places[at..at + 3].copy_from_slice(&vertices(t));
                at += 3;
            }
        }
    }

    // Lists the triangles by rising number, three vertex numbers each: apex, left, right. The answer is how many triangles there are, since
    // the buffer is the caller's and may have more places.
    pub fn index_list(&self, buffer: &mut [u16]) -> Result<usize, ListFault>
        ensures { listed (told (λ k. k) list_refusal result) buffer.new ≡ list_call (order_of self.now) (triangles_of self.now) buffer.old }
    {
        let count = self.count();
        let places = 3 * count;
        if buffer.len() < places {
            return Err(ListFault { places });
        }
        self.write_list(&mut buffer[..places]);
        Ok(count)
    }
}
