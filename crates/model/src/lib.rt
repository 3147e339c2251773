// The model that every answer is judged by: moves, runs, opened phases and the watch.

#![tactic(auto)]

pub mod laws;
