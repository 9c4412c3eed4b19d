//! Tests of the children of a server: sessions over memory, each one connection over a link, a life and a store in memory; the children that
//! serve no connection; and workers, in which children live.
#![tactic(auto)]

#[cfg(test)]
mod bytes;
#[cfg(test)]
mod cases;
#[cfg(test)]
mod child_ends;
#[cfg(test)]
mod child_stops;
#[cfg(test)]
mod children;
#[cfg(test)]
mod connection;
#[cfg(test)]
mod limits;
#[cfg(test)]
mod lives;
#[cfg(test)]
mod noting_clock;
#[cfg(test)]
mod psql;
#[cfg(test)]
mod short_book;
#[cfg(test)]
mod signals;
#[cfg(test)]
mod slow;
#[cfg(test)]
mod stepping;
#[cfg(test)]
mod worker;
