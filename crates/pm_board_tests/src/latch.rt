//! Tests of latches and cancels: what a child is given, a cancel that comes late, and ten thousand children that are sent signals
//! and cancels as they come and go.

mod children;
mod given;
mod late_cancel;
mod races;
