// Blocks of headers: from header to header, looking names up, whether the names differ.
#![tactic(auto)]

pub mod block; // from header to header of a block
pub mod lookup; // the value of a name in a block
pub mod setting; // the value of a name in the first of two blocks that has it
pub mod names; // the names of a block, by their stored places
