// The target of an HTTP request: the rules it obeys, its path and query.
#![tactic(auto)]

pub mod target; // a target as a whole
pub mod escape; // the escapes of a target: whether they are right, and what they stand for
