// The SCGI reader for bytes that come in runs, as a socket gives them.
#![tactic(auto)]

pub mod reader; // the state, and what each run makes of it
