// Paths over the rows of a table: the best grade that the rows tell of a lane, and laying out a path of that grade.

#![tactic(auto)]

pub mod best;
pub mod cell;
pub mod laid;
mod lay;
mod layer;
mod layers;
pub mod refusal;
mod sound;
mod start;
mod stops;
pub mod theorems;
