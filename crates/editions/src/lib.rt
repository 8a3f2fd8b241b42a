// Script responses under two editions of the Location rule.
//
// `response` reads a script's output as RFC 3875 has it. Here the reader is told the edition and the method, and of what `response` accepts
// the draft of 1996 refuses a Location for a method other than GET and HEAD.
#![tactic(auto)]

pub mod edition; // the call: edition, method and a script's whole output in, the action out
