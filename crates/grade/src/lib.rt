// Tolls, what a move costs, and grades, which the tolls of a run are joined into.

#![tactic(auto)]

pub mod class;
pub mod grade;
pub mod minutes;
pub mod order;
pub mod plain;
pub mod theorems;
pub mod toll;
pub mod upto;
pub mod waiting;
