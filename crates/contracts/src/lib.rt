#![tactic(auto)]

// The contract of each public call is an equation with `step` and no more (proofs). No code.
