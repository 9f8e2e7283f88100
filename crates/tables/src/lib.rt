// The lent tables: reads and writes that ask nothing of their callers, by index and by kind, single steps, and walks along a
// chain.
// Contracts are equations with the definitions of specs/. No function has a
// `requires`. A written table that could be any is called narrow where it has 16-bit numbers, and wide where it has 32-bit ones.
#![tactic(auto)]

pub mod access;
pub mod kinds;
pub mod rings;
pub mod steps;
pub mod walks;
