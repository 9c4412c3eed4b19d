//! What may lie at a board's home: one value, which the seats of the board share, one at a time.
//!
//! A [`Home`] is such a value. It says what each seat knows of it, and the rule of its own word and slot. Its laws say what a
//! board needs of that rule: so a board is proved once, whatever lies there. [`NoHome`] is the home of a board with nothing there.
#![tactic(auto)]

mod home;
mod none;
mod steps;
mod views;

pub use home::Home;
pub use none::NoHome;
pub use steps::{AtHome, Deals, Founds, Gathers, Given, Gives, Takes};
pub use views::HomeView;
