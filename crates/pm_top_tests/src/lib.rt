//! Tests of the top call, over memory: scenes as lines of a text, of commands without threads, and of `serve` with real ones. What
//! is sent, stored and noted is written out by hand, from the documents of the formats.
#![tactic(auto)]

#[cfg(test)]
mod answers;
#[cfg(test)]
mod commands;
#[cfg(test)]
mod crashes;
#[cfg(test)]
mod cycles;
#[cfg(test)]
mod ends;
#[cfg(test)]
mod faults;
#[cfg(test)]
mod logs;
#[cfg(test)]
mod names;
#[cfg(test)]
mod noted;
#[cfg(test)]
mod past;
#[cfg(test)]
mod play;
#[cfg(test)]
mod runs;
#[cfg(test)]
mod scripts;
#[cfg(test)]
mod sessions;
