// The arm If.
ghost use Rattle.std.specs.Prelude.{◌<◌};
ghost use Rattle.table.specs.Words.{block_count};
ghost use Rattle.table.specs.Promise.{Ends};
ghost use Rattle.table.specs.Table.{if};
ghost use Rattle.definition.specs.Statement.{traverse_alternate};
ghost use Rattle.walk.specs.Around.{around_of};
ghost use Rattle.walk.specs.Met.{traverse_outcome, terminal_outcome, Ended, Alternated};
ghost use Rattle.walk.specs.State.{state, Fine};

use crate::around::{Around, Enclosing, rule};
use crate::out::or_none;
use crate::refusal::{Refusal, Refused};
use crate::state::Walk;
use crate::visit::{TerminalResult, statement};
use table::Table;
use table::terminals::If;
use values::op::Op;

impl Walk<'_> {
    /// An If: its consequent, and its alternate if that is not the fallthrough.
    #[cycle(walk)]
    pub fn visit_if(
        &mut self,
        table: Table<'_>,
        around: &Around<'_>,
        levels: u32,
        block: u32,
        end: If,
    ) -> Result<TerminalResult, Refused>
        requires there { block < block_count table.words.now }
        requires ends { Ends table.words.now block (if end.test end.consequent end.alternate end.fallthrough) }
        requires fine { Fine self.old 1 18 }
        ensures { Ended table.entry.words.now
            (terminal_outcome table.entry.words.now levels (around_of around.now) block (state self.old))
            self.old result self.new }
    {
        let first = self.tally.rows;
        let head = table.block(block);
        let label = self.unless_unreachable(table, end.fallthrough)?;
        let id = self.cx.next_schedule_id;
        self.schedule_if(label)?;
        let inside = Around::Within {
            rule: rule(around),
            statement: Enclosing::Another(label),
            outer: &*around,
        };
        self.refuse_scheduled(end.consequent, Refusal::ConsequentScheduled(end.consequent))?;
        self.traverse_block(table, &inside, levels, end.consequent)?;
        let present = self.traverse_alternate(
            table,
            &inside,
            levels,
            end.alternate,
            end.fallthrough,
        )?;
        self.unschedule_if(label, id)?;
        self.close(
            label,
            first,
            Op::If,
            end.test,
            present,
            head.id,
            or_none(label),
            0,
        );
        Ok(statement(label))
    }

    // An alternate that is the fallthrough is none. Gives whether it is present.
    #[cycle(walk)]
    fn traverse_alternate(
        &mut self,
        table: Table<'_>,
        around: &Around<'_>,
        levels: u32,
        block: u32,
        fallthrough: u32,
    ) -> Result<u32, Refused>
        requires there { block < block_count table.words.now }
        requires fine { Fine self.old 0 0 }
        ensures { Alternated
            (traverse_alternate (traverse_outcome table.entry.words.now levels (around_of around.now))
            block fallthrough (state self.old))
            self.old result self.new }
    {
        if block == fallthrough {
            return Ok(0);
        }
        self.refuse_scheduled(block, Refusal::AlternateScheduled(block))?;
        self.traverse_block(table, around, levels, block)?;
        Ok(1)
    }
}
