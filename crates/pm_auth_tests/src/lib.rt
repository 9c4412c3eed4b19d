//! Tests of the public calls of `pm_hmac` and `pm_auth`, with values of the RFCs and of Python's hashlib.
#![tactic(auto)]

#[cfg(test)]
mod digests;
#[cfg(test)]
mod exchange;
#[cfg(test)]
mod rules;
#[cfg(test)]
mod words;
