// The lines that make the tables.
#![tactic(auto)]

pub mod build;
pub mod table;
