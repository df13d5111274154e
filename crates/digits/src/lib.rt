#![tactic(auto)]
// Digits, decimal and hexadecimal: a number and some bytes as digits, and the numbers that digits are.
pub mod read;
pub mod write;
