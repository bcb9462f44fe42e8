// Cameras, from their records of floats to whole sixteenths, and what a triangle's bound comes to when it is seen through one.
#![tactic(auto)]

pub mod camera;
pub mod lens;
#[cfg(test)]
mod tests;
