// Runs the proved reader for bytes that come in runs on known bytes, cut in many places, and prints what each call gives.
// The file stdout holds what they must give.
#![tactic(auto)]

mod cases; // the reader for bytes that come in runs

fn main(rt: HostRuntime) {
    cases::all(&rt);
}
