// One move as a call, for a simulator: a line as text, a position in plain numbers, and the number to carry out.

#![tactic(auto)]

pub mod export;
pub mod lane;
pub mod moving;
pub mod phase;
pub mod refusal;
pub mod stage;
