// The arm Goto.
ghost use Rattle.std.specs.Prelude.{◌<◌, ℕ};
ghost use Rattle.table.specs.Words.{block_count};
ghost use Rattle.table.specs.Columns.{goto_variant};
ghost use Rattle.table.specs.Promise.{Ends};
ghost use Rattle.table.specs.Table.{goto};
ghost use Rattle.walk.specs.Around.{around_of};
ghost use Rattle.walk.specs.Met.{terminal_outcome, Ended};
ghost use Rattle.walk.specs.State.{state, Fine};

use crate::around::Around;
use crate::refusal::Refused;
use crate::state::Walk;
use crate::visit::{TerminalResult, nothing, statement};
use table::Table;
use table::terminals::{Goto, GotoVariant};

impl Walk<'_> {
    /// A break, a continue, or no row for the Goto of a Try.
    pub fn visit_goto(
        &mut self,
        table: Table<'_>,
        around: &Around<'_>,
        block: u32,
        end: Goto,
    ) -> Result<TerminalResult, Refused>
        requires there { block < block_count table.words.now }
        requires ends { Ends table.words.now block (goto end.block (goto_variant end.variant)) }
        requires fine { Fine self.old 1 18 }
        ensures { (levels : ℕ) → Ended table.entry.words.now
            (terminal_outcome table.entry.words.now levels (around_of around.now) block (state self.old))
            self.old result self.new }
    {
        let id = table.block(block).id;
        match end.variant {
            GotoVariant::Break => {
                let count = self.visit_break(around, block, end.block, id)?;
                Ok(TerminalResult { count, next: None })
            }
            GotoVariant::Continue => {
                self.visit_continue(around, block, end.block, id)?;
                Ok(statement(None))
            }
            GotoVariant::Try => Ok(nothing(None)), // no row
        }
    }
}
