//! Tests of the public calls on transaction blocks.
#![tactic(auto)]

#[cfg(test)]
mod block;
#[cfg(test)]
mod read;
