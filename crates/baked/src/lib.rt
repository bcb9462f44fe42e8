// Baked files: a map from the bytes of a file, read in three layers: trailer, sections, table.
#![tactic(auto)]

mod bytes;
pub mod fault;
pub mod reader;
pub mod sections;
mod table;
#[cfg(test)]
mod tests;
mod trailer;
