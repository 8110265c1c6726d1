// The rows that a run performs, in the buffer that the caller lends.
ghost use Rattle.std.specs.Prelude.{◌++◌};
ghost use Rattle.tree_check.specs.Found.{row_at};
ghost use Rattle.tree_runs.specs.Links.{plains, plains_from};
ghost use Rattle.tree_run.specs.Holds.{Performs};

use crate::RunError;
use crate::rows::Tree;
use crate::turns::Turn;
use std::ops::Range;
use tree_check::ops::PLAIN;

// The first `number` words of the lent buffer are the instructions of the rows performed so far.
// (No Model: its view would hide the reference, and a caller could not tell what is left in its buffer.)
#[derive(Drop)]
pub struct Performed<'a> {
    pub rows: &'a mut [u32],
    pub number: usize,
}

impl Performed<'_> {
    // A PLAIN performs its row.
    fn perform_row(&mut self, tree: &Tree, row: u32) -> Result<(), RunError>
        ensures { Performs tree.now.words.now self.old self.new result (plains_from (row_at tree.now.words.now) row 1) }
    {
        if tree.word(row, 0) != PLAIN {
            return Ok(());
        }
        if self.rows.len() <= self.number {
            return Err(RunError::NoRoom(row));
        }
        self.rows[self.number] = tree.word(row, 1);
        self.number += 1;
        Ok(())
    }

    // The PLAINs among these rows, in their order.
    pub fn perform(&mut self, tree: &Tree, rows: Range<u32>) -> Result<(), RunError>
        ensures { Performs tree.now.words.now self.old self.new result (plains (row_at tree.now.words.now) rows.start rows.end) }
    {
        for row in rows {
            self.perform_row(tree, row)?;
        }
        Ok(())
    }

    // Both stretches of a turn.
    pub fn perform_turn(&mut self, tree: &Tree, turn: Turn) -> Result<(), RunError>
        ensures { Performs tree.now.words.now self.old self.new result
            (plains (row_at tree.now.words.now) turn.rows.start turn.rows.end ++ plains (row_at tree.now.words.now) turn.more.start turn.more.end) }
    {
        let Turn { rows, more, .. } = turn;
        self.perform(tree, rows)?;
        self.perform(tree, more)
    }
}
