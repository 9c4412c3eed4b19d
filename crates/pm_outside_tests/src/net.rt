//! Tests of what no clause says of a program's outside: what a server's waits end by, and what its client sees; the log's files; the
//! streams and the clock of the system; and works for its threads.

mod consoles;
mod files;
mod ports;
mod scenes;
mod squares;
mod streams;
mod world;
