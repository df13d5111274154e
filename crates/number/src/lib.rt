#![tactic(auto)]
// Little-endian numbers, rotations, sums that wrap, and the numbers of refusals.
pub mod number;
pub mod refusal;
