//! Tests of the public calls of the store: one script of visits.

mod scenes;
mod told;
mod visit;
