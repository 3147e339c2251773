// The order book: a record of tables that takes lines as text and writes them out in order.

#![tactic(auto)]

pub mod refusal;
mod rows;
pub mod tables;
