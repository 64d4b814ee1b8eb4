#![tactic(auto)]

pub mod laws;
mod lexer;
pub mod node;
mod reader;
pub mod records;
pub mod refusal;
pub mod rule;
mod syntax;
pub mod text;
