//! What the crew of a server leaves, its supervisor and its joined workers: their runs, what these noted, and the book.
//!
//! `specs/Left` says what the workers leave, slot by slot; `specs/Uses` what each run is to its store; `specs/Redos` which ends of redo
//! the supervisor told of; `specs/Renewals` whom it gave up before each generation.
#![tactic(auto)]
