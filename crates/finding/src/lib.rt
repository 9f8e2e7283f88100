// Find in one of eight houses. A call looks at the other seven and at the sum first (licence), then at its own house, on its part of the tables.
#![tactic(auto)]

pub mod find;
