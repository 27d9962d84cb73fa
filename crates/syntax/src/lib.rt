// Items that begin with a HASH (`syntax.rs`).
#![tactic(auto)]

pub mod section;
