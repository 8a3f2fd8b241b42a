// Runs the proved calls on the byte cases of the scope paper and of the SCGI text of 2008, and prints what each gives.
// The file stdout holds what they must give.
#![tactic(auto)]

mod scgi_cases; // the reader and the writer
mod lookup_cases; // the lookups in one block and in two
mod http_cases; // the parts of an HTTP head
mod response_cases; // script response heads
mod gateway_cases; // the step: whole outputs, mounts, fields, room
mod gateway_lent; // the step: what it is lent
mod gateway_order; // the step: the order of its refusals
mod gateway_limits; // the step: its largest inputs
mod digits; // decimal numbers of ten and of eleven digits, in each call that reads one
mod mount_limits; // the step: a limit of the body for each mount
mod edition_cases; // script response heads under both editions

fn main(rt: HostRuntime) {
    scgi_cases::all(&rt);
    lookup_cases::all(&rt);
    http_cases::all(&rt);
    response_cases::all(&rt);
    gateway_cases::all(&rt);
    gateway_lent::all(&rt);
    gateway_order::all(&rt);
    gateway_limits::all(&rt);
    digits::all(&rt);
    mount_limits::all(&rt);
    edition_cases::all(&rt);
}
