//! Tests of a store that threads share.

mod batch;
mod beside;
mod crowd;
mod left;
mod pieces;
mod world;
