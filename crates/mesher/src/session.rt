// What a script works on, and the calls that its lines make on the library.
use crate::answer::Answer;
use crate::lines::Request;
use crate::refusal::Refusal;
use baked::reader::Reader;
use bintree::order::Order;
use bintree::triangle::Triangle;
use mesh::mesh::Mesh;
use std::alloc::{AllocError, Global};
use std::{fs, mem};
use terrain::draft::Draft;
use terrain::map::Map;

// How many triangles the largest mesh has.
const MOST_TRIANGLES: usize = 8192;

// One draft, one map (at first that of a new draft), one mesh, and room for its index list.
#[derive(Drop)]
pub struct Session {
    draft: Draft,
    map: Map,
    mesh: Mesh,
    vertices: Vec<[u16; 3]>,
}

impl Session {
    pub(crate) fn new(heap: Global) -> Result<Session, AllocError> {
        Ok(Session {
            draft: Draft::new(heap)?,
            map: Draft::new(heap)?.measure(),
            mesh: Mesh::new(heap)?,
            vertices: vec![in heap; [0; 3]; MOST_TRIANGLES]?,
        })
    }

    // Makes the call that a line asks for.
    pub(crate) fn answer<'s, 'a>(
        &'s mut self,
        rt: &HostRuntime,
        request: Request<'a>,
    ) -> Result<Answer<'s>, Refusal<'a>> {
        match request {
            Request::Triangle { order, number } => {
                return Ok(Answer::Triangle(triangle(order, number)));
            }
            Request::Draft { order } => self.draft.reset(order)?,
            Request::Set { point, height } => self.draft.set(point, height)?,
            Request::Measure => self.measure(rt.alloc())?,
            Request::Carve { point, height } => self.map.carve(point, height)?,
            Request::Load { path } => return self.load(rt, path),
            Request::Reset { order } => self.mesh.reset(order)?,
            Request::Split { triangle } => self.mesh.split(triangle)?,
            Request::Merge { triangle } => self.mesh.merge(triangle)?,
            Request::Show => return Ok(Answer::Shown(&self.mesh)),
            Request::List => return self.list(),
        }
        Ok(Answer::Done)
    }

    // The draft becomes the map, and a new one takes its place.
    fn measure(&mut self, heap: Global) -> Result<(), AllocError> {
        let draft = mem::replace(&mut self.draft, Draft::new(heap)?);
        self.map = draft.measure();
        Ok(())
    }

    // Fills the map from a baked file.
    fn load<'s, 'a>(
        &'s mut self,
        rt: &HostRuntime,
        path: &'a str,
    ) -> Result<Answer<'s>, Refusal<'a>> {
        let Ok(bytes) = fs::read(rt, path) else {
            return Err(Refusal::Unreadable(path));
        };
        let reader = Reader::over(&bytes);
        let sections = reader.sections()?;
        reader.fill(&mut self.map)?;
        Ok(Answer::Loaded {
            order: sections.order,
            heights: sections.heights.place,
            bounds: sections.bounds.place,
        })
    }

    fn list<'s, 'a>(&'s mut self) -> Result<Answer<'s>, Refusal<'a>> {
        let count = self.mesh.index_list(self.vertices.as_flattened_mut())?;
        // There is room for each triangle that is listed: an index list that has none is refused.
        let listed = count.min(self.vertices.len());
        Ok(Answer::Listed(&self.vertices[..listed]))
    }
}

// A number that is no order has no triangle.
fn triangle(order: u8, number: u32) -> Option<Triangle> {
    Order::new(order).ok()?.triangle(number)
}
