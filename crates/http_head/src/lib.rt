// The head of an HTTP request: where it ends, its lines, the request line, the field lines.
//
// How often a head is passed over: once for its end, by head_end. Then the request line once for its end, by line_end, once for its spaces,
// and for their bytes its method once and its version at most three times; a field line once, by field_lines, but the spaces and tabs at
// both ends of its value twice.
#![tactic(auto)]

pub mod head; // where the head ends
pub mod lines; // where a line ends
pub mod request_line; // method, target and version of the first line
pub mod fields; // field lines, and the places of the fields
