//! The outside of the server as traits: the port that gives links, a link, the operator's console, the sink for log lines,
//! the clock and the chronicles. Beside each stands a form in memory, which tells what it has given and taken, and may
//! wait for what the others have seen.
#![tactic(auto)]

mod chronicle;
mod clock;
mod console;
mod failing_calls;
mod forgotten;
mod held;
mod holds;
mod kept;
mod link;
mod link_script;
mod mem_clock;
mod mem_console;
mod mem_link;
mod mem_port;
mod mem_sink;
mod port;
mod scene;
mod sink;

pub use chronicle::Chronicle;
pub use clock::Clock;
pub use console::{Asked, Console};
pub use forgotten::Forgotten;
pub use held::{Held, Withheld};
pub use holds::Hold;
pub use kept::Kept;
pub use link::{Got, Link, Put};
pub use link_script::LinkScript;
pub use mem_clock::MemClock;
pub use mem_console::{MemConsole, ScriptLine};
pub use mem_link::MemLink;
pub use mem_port::MemPort;
pub use mem_sink::MemSink;
pub use port::{Accepted, Port};
pub use scene::{Cue, Scene};
pub use sink::Sink;
