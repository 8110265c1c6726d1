// The arm Label.
ghost use Rattle.std.specs.Prelude.{◌<◌};
ghost use Rattle.table.specs.Words.{block_count};
ghost use Rattle.table.specs.Promise.{Ends};
ghost use Rattle.table.specs.Table.{label};
ghost use Rattle.walk.specs.Around.{around_of};
ghost use Rattle.walk.specs.Met.{terminal_outcome, Ended};
ghost use Rattle.walk.specs.State.{state, Fine};

use crate::around::{Around, Enclosing, rule};
use crate::out::or_none;
use crate::refusal::{Refusal, Refused};
use crate::state::Walk;
use crate::visit::{TerminalResult, statement};
use table::Table;
use table::terminals::Label;
use values::op::Op;

impl Walk<'_> {
    /// A Label and its block.
    #[cycle(walk)]
    pub fn visit_label(
        &mut self,
        table: Table<'_>,
        around: &Around<'_>,
        levels: u32,
        block: u32,
        end: Label,
    ) -> Result<TerminalResult, Refused>
        requires there { block < block_count table.words.now }
        requires ends { Ends table.words.now block (label end.block end.fallthrough) }
        requires fine { Fine self.old 1 18 }
        ensures { Ended table.entry.words.now
            (terminal_outcome table.entry.words.now levels (around_of around.now) block (state self.old))
            self.old result self.new }
    {
        let first = self.tally.rows;
        let head = table.block(block);
        let label = self.unless_unreachable(table, end.fallthrough)?;
        let id = self.cx.next_schedule_id;
        self.schedule_if(label)?;
        let inside = Around::Within {
            rule: rule(around),
            statement: Enclosing::Another(label),
            outer: &*around,
        };
        self.refuse_scheduled(end.block, Refusal::LabelBlockScheduled(block))?;
        self.traverse_block(table, &inside, levels, end.block)?;
        self.unschedule_if(label, id)?;
        self.close(label, first, Op::Label, head.id, or_none(label), 0, 0, 0);
        Ok(statement(label))
    }
}
