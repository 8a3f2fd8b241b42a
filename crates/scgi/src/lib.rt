// SCGI requests: what is asked of their block, the reader, the writer, requests end to end.
#![tactic(auto)]

pub mod netstring; // the length digits of a netstring
pub mod check; // what is asked of a whole block
pub mod read; // the reader of requests
pub mod write; // the writer of requests
pub mod spool; // requests that stand end to end
pub mod window; // a spool of any length through a window
