#![tactic(auto)]

pub mod call;
pub mod edges;
pub mod journal;
pub mod laws;
mod levels;
pub mod node_set;
pub mod refusal;
pub mod run;
pub mod search;
