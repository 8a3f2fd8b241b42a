// The calls of the C boundary, each over one proved call. `capi_c` exports them.
//
// Every call but those of `feed` returns 0, or the number of the refusal. The numbers that it gives go to the front of the lent list
// `answer`; a list too short for them is 21, last of all. Where a call does not return 0, nothing that was lent is changed. The socket
// reader's state and answer are structs by value, and its buffer holds what has come of a block, also where it refuses.
//
// Numbers and not the types of the calls below: C has them alone.
#![tactic(auto)]

pub mod answer; // the numbers that a call gives, stored in the lent list
pub mod read; // oy_scgi_read
pub mod write; // oy_scgi_write
pub mod find; // oy_scgi_find
pub mod setting; // oy_setting
pub mod spool; // oy_spool
pub mod feed; // oy_socket_new, oy_socket_feed
pub mod respond; // oy_response
pub mod forward; // oy_gateway
