#![tactic(auto)]

pub mod drain;
pub mod event;
pub mod fault;
pub mod record;
pub mod source;
mod table;
