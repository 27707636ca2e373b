// What `settle` writes of a call and of a closed month, for people and for programs.
#![tactic(auto)]

pub mod answers;
mod days;
pub mod months;
mod wording;
