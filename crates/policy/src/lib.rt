// The interface that every priority rule stands behind.
#![tactic(auto)]

pub mod policy;
