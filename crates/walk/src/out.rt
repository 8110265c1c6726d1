// What the walk puts out: rows of the tree, lines of the index, and values.
ghost use Rattle.std.specs.Prelude.{◌≡◌, ◌+◌, ◌≤◌, ◌<◌, IfSome};
ghost use Rattle.table.specs.Words.{block_count, instruction_count};
ghost use Rattle.table.specs.Columns.{maybe_of};
ghost use Rattle.definition.specs.Tree as tree_rows;
ghost use Rattle.definition.specs.Statement.{visit_update};
ghost use Rattle.values.specs.Ops.{number_of};
ghost use Rattle.values.specs.WalkOutcome.{visit, terminal_outcome};
ghost use Rattle.walk.specs.Out.{line_placed, ValueMade, TerminalMade, RowMade, Closes, InstructionsMade, Budget};
ghost use Rattle.walk.specs.Out.{FlatMade, UpdateMade};

use crate::refusal::Refused;
use crate::state::Walk;
use table::Table;
use table::columns::Span;
use values::instructions::put_instructions;
use values::op::Op;
use values::result::ValueBlockResult;
use values::rows::put;
use values::sequence::value_block_result_to_sequence;
use values::value_walk::{visit_value_block, visit_value_block_terminal};

/// A label as a row's word: 65,535 where there is none.
pub fn or_none(label: Option<u32>) -> u32
    ensures { result ≡ tree_rows.or_none (maybe_of label) }
{
    label.unwrap_or(65535)
}

// A line is written after those that are out, if a whole place is left.
fn write_line(index: &mut [u32], lines: u32, label: u32, first: u32, closing: u32)
    ensures { index.new ≡ line_placed index.old lines label first closing }
{
    let at = lines as usize;
    if at < index.len() / 3 {
        index[at * 3..at * 3 + 3].copy_from_slice(&[label, first, closing]);
    }
}

impl Walk<'_> {
    /// A row.
    pub fn put(&mut self, op: Op, a: u32, b: u32, c: u32, d: u32, e: u32)
        requires { self.old.tally.rows < 4000000000 }
        ensures { RowMade (tree_rows.row (number_of op) a b c d e) self.old self.new }
    {
        self.tally.rows = put(self.tree, self.tally.rows, op, a, b, c, d, e);
    }

    /// The closing row of a statement, and its line if it has a label. The statement's rows begin at row `first`.
    pub fn close(
        &mut self,
        label: Option<u32>,
        first: u32,
        op: Op,
        a: u32,
        b: u32,
        c: u32,
        d: u32,
        e: u32,
    )
        requires rows { self.old.tally.rows < 4000000000 }
        requires lines { self.old.lines < 1025 }
        ensures { Closes (maybe_of label) first (tree_rows.row (number_of op) a b c d e) self.old self.new }
    {
        let closing = self.tally.rows;
        self.tally.rows = put(self.tree, self.tally.rows, op, a, b, c, d, e);
        if let Some(label) = label {
            write_line(self.index, self.lines, label, first, closing);
            self.lines += 1;
        }
    }

    /// The rows of a block's own instructions.
    pub fn put_instructions(&mut self, table: Table<'_>, first: u32, count: u32)
        requires there { first + count ≤ instruction_count table.words.now }
        requires rows { self.old.tally.rows < 3000000000 }
        ensures { InstructionsMade table.entry.words.now first count self.old self.new }
    {
        self.tally.rows = put_instructions(table, self.tree, self.tally.rows, first, count);
    }

    /// The value of a block, from its rows on.
    pub fn visit_value(
        &mut self,
        table: Table<'_>,
        levels: u32,
        block: u32,
        span: Span,
    ) -> Result<ValueBlockResult, Refused>
        requires there { block < block_count table.words.now }
        requires budget { Budget self.old }
        ensures { ValueMade table.entry.words.now
            (visit table.entry.words.now levels block (maybe_of None) span self.old.tally.visits)
            self.old result self.new }
    {
        let value = visit_value_block(table, self.tree, self.tally, levels, block, None, span)?;
        self.tally = value.tally;
        Ok(value)
    }

    /// The value of the value terminal at the end of a block.
    pub fn visit_value_terminal(
        &mut self,
        table: Table<'_>,
        levels: u32,
        block: u32,
    ) -> Result<ValueBlockResult, Refused>
        requires there { block < block_count table.words.now }
        requires budget { Budget self.old }
        ensures { TerminalMade table.entry.words.now
            (terminal_outcome table.entry.words.now levels block self.old.tally.visits) self.old result self.new }
    {
        let value = visit_value_block_terminal(table, self.tree, self.tally, levels, block)?;
        self.tally = value.tally;
        Ok(value)
    }

    /// The value of a block as one sequence: an init, or ForOf's test.
    pub fn visit_flat(
        &mut self,
        table: Table<'_>,
        levels: u32,
        block: u32,
        span: Span,
    ) -> Result<(), Refused>
        requires there { block < block_count table.words.now }
        requires budget { Budget self.old }
        ensures { FlatMade table.entry.words.now span
            (visit table.entry.words.now levels block (maybe_of None) span self.old.tally.visits)
            self.old result self.new }
    {
        let value = self.visit_value(table, levels, block, span)?;
        self.tally.rows = value_block_result_to_sequence(table, self.tree, value, span);
        Ok(())
    }

    /// A For's update, if it has one. Gives 1 if it has one, else 0.
    pub fn visit_update(
        &mut self,
        table: Table<'_>,
        levels: u32,
        update: Option<u32>,
        span: Span,
    ) -> Result<u32, Refused>
        requires there { IfSome update (λ block. block < block_count table.words.now) }
        requires budget { Budget self.old }
        ensures { UpdateMade
            (visit_update (visit table.entry.words.now levels) (maybe_of update) span self.old.tally.visits)
            self.old result self.new }
    {
        match update {
            None => Ok(0),
            Some(block) => {
                self.visit_value(table, levels, block, span)?;
                Ok(1)
            }
        }
    }
}
