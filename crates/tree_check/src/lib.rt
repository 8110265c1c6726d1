// M-100: checks that rows read as one tree.
#![tactic(auto)]

pub mod file;
pub mod ops;
mod parts;
mod ranges;
mod scan;
mod words;

ghost use Rattle.std.specs.Prelude.{◌≡◌, ◌*◌, ◌≤◌, length};
ghost use Rattle.tree_grammar.specs.Needs.{code_of, at_of};
ghost use Rattle.tree_check.specs.Found.{verdict_of, checked_of, one_root, no_begins, read_from, tree_read, tree_checked};

use crate::ops::BLOCK;
use crate::ranges::in_range;
use crate::words::{Rows, read_so_far, word};
use text::placed::{Coded, tell_code};

// Why words are not the rows of one tree; with the row, where one is at fault.
#[derive(Clone, Copy, Debug, PartialEq, Eq)]
pub enum TreeError {
    RowOutOfRange(u32),
    PartsMissing(u32),
    NotOneTree,
}

impl Coded for TreeError {
    ghost code_of = { λ error. code_of (verdict_of error) };

    ghost place_of = { λ error. at_of (verdict_of error) };

    fn code(self) -> u32 {
        match self {
            TreeError::RowOutOfRange(_) => 60,
            TreeError::PartsMissing(_) => 61,
            TreeError::NotOneTree => 62,
        }
    }

    // M-100: "At is the row, or 0 for 62".
    fn place(self) -> u32 {
        match self {
            TreeError::RowOutOfRange(row) | TreeError::PartsMissing(row) => row,
            TreeError::NotOneTree => 0,
        }
    }
}

// Whether just one BLOCK is left.
#[tactic(auto, unfolding(crate::specs::Found::one_root))]
fn one_root(rows: Rows<'_>) -> bool
    requires { 1 ≤ rows.count }
    ensures { result ≡ one_root rows.entry.words.now rows.entry.begin.now rows.entry.count }
{
    let last = rows.count - 1;
    rows.begin[last as usize] == 0 && word(rows.words, last, 0) == BLOCK
}

// Checks the rows one by one, and both of a row's faults before the next row. The beginnings are lent, since a Result that holds the array is
// copied on its way out.
fn read_rows(tree: &[u32], rows: u32, begin: &mut [u32]) -> Result<(), TreeError>
    requires tree_len { length tree.now ≡ rows * 6 }
    requires le_rows { 1 ≤ rows }
    requires rows_bound { rows ≤ 2048 }
    requires zeros { begin.old ≡ no_begins }
    ensures { record { answer = result; begin = begin.new } ≡ read_from tree.now no_begins 0 rows }
{
    for row in 0..rows {
        if !in_range(tree, row) {
            return Err(TreeError::RowOutOfRange(row));
        }
        let first = read_so_far(tree, begin, row)
            .next_begin()
            .ok_or(TreeError::PartsMissing(row))?;
        begin[row as usize] = first;
    }
    if one_root(read_so_far(tree, begin, rows)) {
        Ok(())
    } else {
        Err(TreeError::NotOneTree)
    }
}

// The check, with the beginnings in an array of zeros.
fn read_into(tree: &[u32], begin: &mut [u32]) -> Result<(), TreeError>
    requires { begin.old ≡ no_begins }
    ensures { record { answer = result; begin = begin.new } ≡ tree_read tree.now }
{
    let rows = tree.len() / 6;
    if tree.len() != rows * 6 || rows == 0 || rows > 2048 {
        return Err(TreeError::NotOneTree);
    }
    read_rows(tree, rows as u32, begin)
}

// The check, with what it finds: for each row read the first row of the part that it closes, the rows before a refused one included. Zeros
// follow, whatever `begin` held before.
pub fn read_tree(tree: &[u32], begin: &mut [u32; 2048]) -> Result<(), TreeError>
    ensures { record { answer = result; begin = begin.new } ≡ tree_read tree.now }
{
    begin.fill(0);
    read_into(tree, begin)
}

// Whether any words are the rows of one tree.
pub fn check_tree(tree: &[u32]) -> Result<(), TreeError>
    ensures { checked_of result ≡ tree_checked tree.now }
{
    let mut begin = [0u32; 2048];
    read_into(tree, &mut begin)
}

// The same for callers in C or Rust: the code, and its row in `at`.
pub fn tree_check(tree: &[u32], at: &mut u32) -> u32
    ensures { record { code = result; at = at.new } ≡ tree_checked tree.now }
{
    tell_code(check_tree(tree), at)
}
