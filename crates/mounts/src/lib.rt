// The mounts that the gateway is lent, and what holds of every lent block.
#![tactic(auto)]

pub mod blocks; // whether a lent block is what it must be
pub mod value; // a mount's value: its pool and its limit
pub mod check; // whether mounts are what they must be
pub mod search; // the mount that a path goes to
