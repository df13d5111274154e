#![tactic(auto)]
// lookup3 and SipHash-2-4.
pub mod lookup3;
pub mod siphash;
