#![tactic(auto)]

pub mod input;
pub mod question;
pub mod refusal;
pub mod report;
