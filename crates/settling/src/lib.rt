// A removal settled, once the other pipes stand landed in scratch: 9, or the report and the register.
#![tactic(auto)]

pub mod settling;
