// Terrain: drafts of heights, maps with the bounds of their triangles, and carving.
#![tactic(auto)]

mod cover;
pub mod draft;
pub mod fault;
pub mod map;
pub mod relief;
mod table;
#[cfg(test)]
mod tests;
