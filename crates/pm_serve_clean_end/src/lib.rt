//! Where a server of many connections has ended clean, its files are left clean.
//!
//! `specs/CleanEnd` says when and how, and `specs/CleanEndLaws` has the law; the other files are steps towards it.
#![tactic(auto)]
