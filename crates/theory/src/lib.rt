#![tactic(auto)]

// What holds of every register that landing leaves (proofs/): the theorems, and what they stand on. No code.
