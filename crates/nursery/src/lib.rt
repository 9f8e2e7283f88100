#![tactic(auto)]

// Document 02's eight houses on one licence, and taking pipes out, as definitions (specs/): what is lent to a call, what it leaves and answers,
// and series of calls. What holds of them, demand 3 among it (proofs/). No code.
