//! Tests of the outside: the disks in memory and the other forms in memory, through their public calls; and the real forms, with what no
//! clause says of them.
#![tactic(auto)]

#[cfg(test)]
mod disks;
#[cfg(test)]
mod net;
#[cfg(test)]
mod scenes;
#[cfg(test)]
mod times;
