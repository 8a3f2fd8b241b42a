// The layer that everything else stands on: kinds of bytes, scans, comparisons, decimal numbers, copying.
#![tactic(auto)]

pub mod refusal; // why a call refuses
pub mod span; // a part of a slice, by its place
pub mod kind_table; // the table of byte kinds
pub mod kinds; // the kinds, and the question whether a byte is of a kind
pub mod scan; // where a run of bytes ends, where a byte first stands
pub mod trim; // spaces and tabs at both ends
pub mod compare; // equal bytes, exactly and letter case aside
pub mod decimal; // numbers in decimal: read, counted, written
pub mod copy; // bytes copied into a lent buffer at a place
