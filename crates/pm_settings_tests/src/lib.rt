//! Tests of the public calls of a session's settings.
#![tactic(auto)]

#[cfg(test)]
mod settings;
