// Five priority rules.
#![tactic(auto)]

pub mod camera_rule;
pub mod level_rule;
pub mod sight_line;
pub mod stored;
#[cfg(test)]
mod tests;
pub mod window;
