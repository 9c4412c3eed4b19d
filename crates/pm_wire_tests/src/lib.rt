//! Tests of the public calls of `pm_wire`, `pm_wire_back` and `pm_startup` against bytes that were written down outside of
//! them: captured conversations, and lengths counted by hand.
#![tactic(auto)]

#[cfg(test)]
mod conditions;
#[cfg(test)]
mod longest;
#[cfg(test)]
mod outbox;
#[cfg(test)]
mod read;
#[cfg(test)]
mod startup;
