// Values: rows in the lent buffer, what a block's own instructions make, and the value walk.
#![tactic(auto)]

// The ops of tree rows.
pub mod op;
// Tree rows in a lent buffer: six words each, written where a whole place is left, and counted in any case.
pub mod rows;
// The results of the value walk's steps, and the rows that they put.
pub mod steps;
// What the steps of the value walk take and give.
pub mod result;
// What a value walk refuses.
pub mod refusal;
// A block's instructions: their rows.
pub mod instructions;
// The value of a block's instructions: the last of them, with the others in a sequence before it.
pub mod extract;
// Flattening: a value of a For, ForOf or ForIn as one sequence that ends in UNDEF.
pub mod sequence;
// The walk: value blocks, test blocks and value terminals call one another, each value visit one deeper.
pub mod value_walk;
