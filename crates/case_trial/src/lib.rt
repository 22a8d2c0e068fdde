// What a line expects, against what is found. Nothing is read or written here: the room is lent.
#![tactic(auto)]

pub mod judge;
pub mod limit;
