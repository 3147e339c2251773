// The opened phases of a book, and whether the watch holds a position.

#![tactic(auto)]

mod missing;
mod nodes;
pub mod opening;
pub mod position;
pub mod refusal;
pub mod table;
pub mod watch;
