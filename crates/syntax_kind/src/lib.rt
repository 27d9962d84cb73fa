// The kinds of tokens and nodes, gluing and pasting two of them (`syntax_kind.rs`).
#![tactic(auto)]

pub mod kind;
pub mod number;
pub mod operators;
pub mod paste;
