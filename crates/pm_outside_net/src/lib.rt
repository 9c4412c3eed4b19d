//! The outside of a server that waits for its clients: its port over TCP, its console over standard input, and its clock.
//! What these wait for ends by bells, which supervisor and children ring. They tell nothing of what passes, and nothing is
//! claimed of how long a wait is: tests show it.
#![tactic(auto)]

mod bells;
mod clock;
mod console;
mod input;
mod link;
mod mailbox;
mod port;

pub use bells::{Bell, Bells};
pub use clock::ServerClock;
pub use console::{ConsoleFault, StandardConsole, standard_console};
pub use input::{ForegroundInput, read_lines};
pub use link::TcpLink;
pub use mailbox::Mailbox;
pub use port::{AcceptFault, BindFault, TcpPort};
