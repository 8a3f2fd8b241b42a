// From an HTTP request to SCGI bytes.
#![tactic(auto)]

pub mod body; // where a request's body ends
pub mod write; // a request's SCGI bytes
pub mod step; // the step
