// The arms Return and Throw.
ghost use Rattle.std.specs.Prelude.{◌<◌, ℕ, Ok};
ghost use Rattle.table.specs.Words.{block_count};
ghost use Rattle.table.specs.Promise.{Ends};
ghost use Rattle.table.specs.Table.{throw, return};
ghost use Rattle.walk.specs.Met.{terminal_outcome, Ended};
ghost use Rattle.walk.specs.State.{state, Fine};
ghost use Rattle.definition.specs.Around as definition;

use crate::state::Walk;
use crate::visit::{TerminalResult, statement};
use table::Table;
use table::terminals::{Return, Throw};
use values::op::Op;

impl Walk<'_> {
    /// A Return and its row.
    pub fn visit_return(&mut self, table: Table<'_>, block: u32, end: Return) -> TerminalResult
        requires there { block < block_count table.words.now }
        requires ends { Ends table.words.now block (return end.value) }
        requires fine { Fine self.old 1 18 }
        ensures { (levels : ℕ) (around : definition.Around) → Ended table.entry.words.now
            (terminal_outcome table.entry.words.now levels around block (state self.old))
            self.old (Ok result) self.new }
    {
        let id = table.block(block).id;
        self.put(Op::Return, end.value, id, 0, 0, 0);
        statement(None)
    }

    /// A Throw and its row.
    pub fn visit_throw(&mut self, table: Table<'_>, block: u32, end: Throw) -> TerminalResult
        requires there { block < block_count table.words.now }
        requires ends { Ends table.words.now block (throw end.value) }
        requires fine { Fine self.old 1 18 }
        ensures { (levels : ℕ) (around : definition.Around) → Ended table.entry.words.now
            (terminal_outcome table.entry.words.now levels around block (state self.old))
            self.old (Ok result) self.new }
    {
        let id = table.block(block).id;
        self.put(Op::Throw, end.value, id, 0, 0, 0);
        statement(None)
    }
}
