// Whole tables: cleared, and compared.
#![tactic(auto)]

pub mod whole;
