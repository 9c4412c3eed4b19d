//! Tests of a client: what it shows of a server that goes by a script, how each of its talks ends, whose turn it is, and a talk
//! over TCP. What is sent and shown is written out by hand, from the documents of the protocol.
#![tactic(auto)]

#[cfg(test)]
mod bytes;
#[cfg(test)]
mod scripted;
#[cfg(test)]
mod talks;
#[cfg(test)]
mod tcp;
#[cfg(test)]
mod turns;
