//! Tests of the state machine and of what it is made of, by the calls that servers make: each scene has what happens and the
//! entries that the journal has for it, written out by hand from the manual's description of shutdowns and of the restart after a
//! crash.
#![tactic(auto)]

#[cfg(test)]
mod admission;
#[cfg(test)]
mod crashes;
#[cfg(test)]
mod lines;
#[cfg(test)]
mod runs;
#[cfg(test)]
mod scene;
#[cfg(test)]
mod server;
#[cfg(test)]
mod shutdowns;
#[cfg(test)]
mod startups;
