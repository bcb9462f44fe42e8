// Crack-free triangle meshes of a terrain square: forced splits, merges, and the index list.
#![tactic(auto)]

pub mod fault;
pub mod mesh;
#[cfg(test)]
mod tests;
