// Rows as a table holds them: what working out fills in, and what asking and following read.

#![tactic(auto)]

pub mod blank;
pub mod row;
