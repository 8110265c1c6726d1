// M-103: runs a tree on paper. Which instruction rows does it perform for given answers, and why does it stop?
#![tactic(auto)]

mod completions;
pub mod file;
mod links;
mod performed;
mod row_walk;
mod rows;
mod turns;

ghost use Rattle.std.specs.Prelude.{◌≡◌, ◌≤◌, length};
ghost use Rattle.tree_runs.specs.Ran.{not_run};
ghost use Rattle.tree_runs.specs.Given.{run_of};
ghost use Rattle.tree_run.specs.declared.RunError.TheVariants.{NotATree};
ghost use Rattle.tree_run.specs.Answer.{reason_number, code_of, at_of};
ghost use Rattle.tree_run.specs.Holds.{not_run_from, kept, number_of, outcome_of};

use crate::links::{Link, link_rows};
use crate::row_walk::walk;
use crate::rows::{Tree, word};
use text::placed::{Coded, tell_code};
use tree_check::ops::{COND, FORIN, FOROF, LOGICAL, OPTIONAL, TRY};
use tree_check::{TreeError, read_tree};
use values::rows::clear;

// Why a run stopped.
#[derive(Clone, Copy, Debug, PartialEq, Eq)]
pub enum Reason {
    Return = 1,
    Throw = 2,
    End = 3,
    NoAnswer = 4,
}

impl Reason {
    pub fn number(self) -> u32
        ensures { result ≡ reason_number self }
    {
        self as u32
    }
}

// The run performed so many rows.
#[derive(Clone, Copy, Debug, PartialEq, Eq)]
pub struct Run {
    pub number: usize,
    pub reason: Reason,
}

// Why a tree is not run, or not to its end; with the row of the tree.
#[derive(Clone, Copy, Debug, PartialEq, Eq)]
pub enum RunError {
    NotATree(TreeError),
    NoTarget(u32),
    NotRun(u32),
    NoRoom(u32),
}

impl From<TreeError> for RunError {
    ghost from_gives = { λ refused error. error ≡ NotATree refused };

    fn from(refused: TreeError) -> RunError {
        RunError::NotATree(refused)
    }
}

impl Coded for RunError {
    ghost code_of = { code_of };

    ghost place_of = { at_of };

    fn code(self) -> u32 {
        match self {
            RunError::NotATree(error) => error.code(),
            RunError::NoTarget(_) => 63,
            RunError::NotRun(_) => 64,
            RunError::NoRoom(_) => 65,
        }
    }

    fn place(self) -> u32 {
        match self {
            RunError::NotATree(error) => error.place(),
            RunError::NoTarget(row) | RunError::NotRun(row) | RunError::NoRoom(row) => row,
        }
    }
}

fn not_run(op: u32) -> bool
    ensures { result ≡ not_run op }
{
    matches!(op, LOGICAL | COND | OPTIONAL | FOROF | FORIN | TRY)
}

// The first row that is not run.
fn first_not_run(tree: &[u32], rows: u32) -> Option<u32>
    ensures { result ≡ not_run_from tree.now 0 rows }
{
    (0..rows).find(|row| not_run(word(tree, *row, 0)))
}

// The run, before what is left of the buffer is cleared.
fn run_rows(words: &[u32], answers: &[u32], performed: &mut [u32]) -> Result<Run, RunError>
    ensures number { number_of result ≤ length performed.new }
    ensures run { outcome_of result (kept (number_of result) performed.new) ≡ run_of words.now answers.now (length performed.old) }
{
    let mut begin = [0u32; 2048];
    read_tree(words, &mut begin)?;
    let rows = (words.len() / 6) as u32;
    if let Some(row) = first_not_run(words, rows) {
        return Err(RunError::NotRun(row));
    }
    let mut links = [Link::default(); 2048];
    link_rows(&begin, rows, &mut links);
    let tree = Tree {
        words,
        begin: &begin,
        links: &links,
        rows,
    };
    walk(&tree, answers, performed)
}

// Runs the tree whose rows are in the words, which may be any words. Writes the rows performed, then zeros: of a refused run zeros alone. The
// tree and the answers stay as they are.
pub fn run_tree(tree: &[u32], answers: &[u32], performed: &mut [u32]) -> Result<Run, RunError>
    ensures { outcome_of result performed.new ≡ run_of tree.now answers.now (length performed.old) }
{
    let ran = run_rows(tree, answers, performed);
    let number = ran.map_or(0, |run| run.number);
    clear(performed, number);
    ran
}

// The same for callers in C or Rust: the code, and the other numbers behind `at`, `number` and `reason`.
pub fn tree_run(
    tree: &[u32],
    answers: &[u32],
    performed: &mut [u32],
    at: &mut u32,
    number: &mut usize,
    reason: &mut u32,
) -> u32
    ensures { record { code = result; at = at.new; number = number.new; reason = reason.new; buffer = performed.new } ≡ run_of tree.now answers.now (length performed.old) }
{
    let ran = run_tree(tree, answers, performed);
    *number = ran.map_or(0, |run| run.number);
    *reason = ran.map_or(0, |run| run.reason.number());
    tell_code(ran, at)
}
