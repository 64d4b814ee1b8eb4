#![tactic(auto)]

pub mod fault;
mod look;
mod markup;
pub mod reader;
mod scan;
mod skip;
mod source;
mod tags;
