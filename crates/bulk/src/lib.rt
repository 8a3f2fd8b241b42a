// Scans, comparisons and copies of octets by shapes that the compiler makes one instruction for many bytes.
#![tactic(auto)]

pub mod scan; // the end of a run of value bytes
pub mod compare; // whether eight bytes stand at a place
pub mod copy; // copies
