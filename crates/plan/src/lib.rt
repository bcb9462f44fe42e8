// The plan of a terrain square, seen from above: lines and rectangles on it, and which triangles they meet.
#![tactic(auto)]

pub mod line;
pub mod rectangle;
pub mod spot;
#[cfg(test)]
mod tests;
