// The arm Try.
ghost use Rattle.std.specs.Prelude.{◌<◌};
ghost use Rattle.table.specs.Words.{block_count};
ghost use Rattle.table.specs.Promise.{Ends};
ghost use Rattle.table.specs.Table.{try, unless_none};
ghost use Rattle.walk.specs.Around.{around_of};
ghost use Rattle.walk.specs.Met.{terminal_outcome, Ended};
ghost use Rattle.walk.specs.State.{state, Fine};

use crate::around::{Around, Enclosing, rule};
use crate::out::or_none;
use crate::refusal::Refused;
use crate::state::Walk;
use crate::visit::{TerminalResult, statement};
use table::Table;
use table::terminals::Try;
use values::op::Op;

impl Walk<'_> {
    /// A Try: its block and its handler.
    #[cycle(walk)]
    pub fn visit_try(
        &mut self,
        table: Table<'_>,
        around: &Around<'_>,
        levels: u32,
        block: u32,
        end: Try,
    ) -> Result<TerminalResult, Refused>
        requires there { block < block_count table.words.now }
        requires ends { Ends table.words.now block
            (try end.block end.handler end.fallthrough (unless_none end.binding)) }
        requires fine { Fine self.old 1 18 }
        ensures { Ended table.entry.words.now
            (terminal_outcome table.entry.words.now levels (around_of around.now) block (state self.old))
            self.old result self.new }
    {
        let first = self.tally.rows;
        let head = table.block(block);
        let label = self.unless_unreachable(table, end.fallthrough)?;
        let id = self.cx.next_schedule_id;
        self.schedule_if(label)?;
        let inside = Around::Within {
            rule: rule(around),
            statement: Enclosing::Another(label),
            outer: &*around,
        };
        self.schedule_catch_handler(end.handler);
        self.traverse_block(table, &inside, levels, end.block)?;
        self.traverse_block(table, &inside, levels, end.handler)?;
        self.unschedule_if(label, id)?;
        self.close(
            label,
            first,
            Op::Try,
            head.id,
            or_none(label),
            end.binding,
            0,
            0,
        );
        Ok(statement(label))
    }
}
