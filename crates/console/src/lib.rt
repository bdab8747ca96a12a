// The program and what is around it: the words that it was started with, files, and what it ends with.
#![tactic(auto)]

pub mod arguments;
pub mod command;
mod failure;
pub mod input;
pub mod option;
pub mod output;
pub mod status;
pub mod typed;
mod value;
