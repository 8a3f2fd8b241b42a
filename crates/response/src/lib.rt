// The head of a script's response, and the action that it asks of the server.
//
// How often a head is passed over: once for its LFs, and once line by line for its fields (http_head::fields::field_line). A name is
// compared with three names, and of the three fields the values are judged at the end.
#![tactic(auto)]

pub mod lines; // where a line of the head ends
pub mod fields; // the three fields that the server looks at
pub mod head; // the fields of the head, and where it ends
pub mod status; // the value of Status
pub mod location; // the value of Location
pub mod table; // the table of actions
pub mod respond; // the call: a script's whole output in, the action out
