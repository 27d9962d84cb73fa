#![tactic(auto)]

// The definition of the reading stands in specs/; no code belongs to it.
