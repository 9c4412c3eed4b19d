//! Tests of the workers: a pool of 47 real threads over one board and one store, with children of each kind, and sessions that are
//! killed, told to quit and told to terminate in between.

mod clients;
mod crew;
mod pool;
mod tally;
