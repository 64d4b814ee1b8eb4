#![tactic(auto)]

pub mod code;
pub mod kind;
pub mod laws;
pub mod name;
pub mod spelling;
