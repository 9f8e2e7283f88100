// Refusal 21: whether lent tables and counts hold a register. replay: edges landed again; held: what that leaves, compared.
#![tactic(auto)]

pub mod held;
pub mod replay;
