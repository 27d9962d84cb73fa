#![tactic(auto)]

// What is proved of the definition: statements in specs/, proofs in proofs/. No code belongs to it.
