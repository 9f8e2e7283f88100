// Chains found by walking over the lent tables: names, and rows of the sheet.
#![tactic(auto)]

pub mod marks;
pub mod names;
pub mod rows;
pub mod volumes;
pub mod walks;
