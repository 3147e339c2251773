// Unfolding a path that was laid out: its moves one at a time, by the reasons of its rows. A run can have exponentially many more
// moves than the table has rows; the list of what is left to unfold stays short all the same.

#![tactic(auto)]

mod list;
mod lookup;
mod show;
pub mod stage;
pub mod theorems;
pub mod unfold;
