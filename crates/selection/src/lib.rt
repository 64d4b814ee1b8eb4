#![tactic(auto)]

pub mod both;
pub mod refusal;
pub mod select;
