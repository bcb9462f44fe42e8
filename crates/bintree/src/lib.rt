// The triangle bintree of a terrain square: numbers, levels, corners, partners, samples.
#![tactic(auto)]

pub mod fault;
pub mod order;
pub mod point;
#[cfg(test)]
mod tests;
pub mod triangle;
