// The variables of a request, and their bytes.
#![tactic(auto)]

pub mod sources; // what they are made of
pub mod writer; // a writer to a lent buffer, of variables one after the other
pub mod fixed_variables; // the variables before the fields
pub mod field_variables; // the variables of a request's fields
pub mod block; // the variables as one block
