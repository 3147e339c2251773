// Best-first saturation of a book's rows over a lent row table and lent waiting places. Rows stay at their places: a row that
// waits gets better or is settled where it stands, and the queue holds its place with its grade.

#![tactic(auto)]

pub mod book_rows;
mod bring;
mod keys;
mod offer;
mod pair_order;
mod premise;
pub mod refusal;
mod rules;
mod saturate;
pub mod saturated;
mod setting;
mod start;
mod turn;
mod work;
