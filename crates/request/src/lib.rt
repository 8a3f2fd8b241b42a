// The head of a request: its parts, and the rules over all its fields.
#![tactic(auto)]

pub mod stored; // the fields of a request, by their stored places
pub mod rules; // the rules over all fields
pub mod read; // the parts of a head
