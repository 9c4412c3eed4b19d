//! Tests of the gate's public calls: a session that dies there, places that are reserved, and many workers
//! at once.

mod crowd;
mod death;
mod progress;
mod reserved;
mod scene;
mod worker;
