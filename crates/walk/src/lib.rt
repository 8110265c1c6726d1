// The statement walk, recursive over a lent state as the Rust's is: an arm is one function.
#![tactic(auto)]

// The statements around a block, the innermost first.
mod around;
/// What the statement walk refuses.
pub mod refusal;
// The state of the walk, and the steps that change one part of it.
mod state;
// What the walk puts out: rows, lines and values.
mod out;
// Where a jump goes.
mod jump;
// traverse_block and visit_block, and which arm a terminal has.
mod visit;
// The arms, in the Rust's order. If.
mod if_else;
// Switch.
mod switch;
// DoWhile, While, For, ForOf and ForIn.
mod loops;
// Label.
mod label;
// Logical, Ternary, Optional and Sequence.
mod value_statement;
// Goto.
mod goto;
// Try.
mod try_catch;
// Scope and PrunedScope.
mod scope;
// Return and Throw.
mod leaf;
// Branch.
mod branch;
/// What the walk answers.
pub mod answer;
/// The whole walk, of any words.
pub mod entry;
