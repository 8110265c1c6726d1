// The text form of paper 01, "Samples", and of paper 02, M-108: a file's bytes read as words, and a result written as lines.
#![tactic(auto)]

pub mod lent;
pub mod names;
pub mod number;
mod parts;
pub mod placed;
pub mod read;
mod reader;
pub mod version;
pub mod write;
