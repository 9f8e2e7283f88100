// A sheet of one of eight houses, opened and fetched line by line. A call looks at the other seven and at the sum first (licence), then at its
// own house, on its part of the tables.
#![tactic(auto)]

pub mod opened;
