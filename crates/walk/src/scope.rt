// The arms Scope and PrunedScope.
ghost use Rattle.std.specs.Prelude.{◌<◌};
ghost use Rattle.table.specs.Words.{block_count};
ghost use Rattle.walk.specs.Around.{around_of};
ghost use Rattle.walk.specs.Met.{terminal_outcome, Ended, Scoped};
ghost use Rattle.walk.specs.State.{state, Fine};

use crate::around::{Around, Enclosing, rule};
use crate::refusal::{Refusal, Refused};
use crate::state::Walk;
use crate::visit::{TerminalResult, statement};
use table::Table;
use table::terminals::Scope;
use values::op::Op;

impl Walk<'_> {
    /// A Scope or a PrunedScope, by its op, and its block. Inlined into the visit of a terminal, where it takes no
    /// frame of its own.
    #[cycle(walk)]
    #[inline(always)]
    pub fn visit_scope(
        &mut self,
        table: Table<'_>,
        around: &Around<'_>,
        levels: u32,
        block: u32,
        end: Scope,
        op: Op,
    ) -> Result<TerminalResult, Refused>
        requires there { block < block_count table.words.now }
        requires ends { Scoped table.words.now block end op }
        requires fine { Fine self.old 1 18 }
        ensures { Ended table.entry.words.now
            (terminal_outcome table.entry.words.now levels (around_of around.now) block (state self.old))
            self.old result self.new }
    {
        let first = self.tally.rows;
        let next = self.unless_scheduled(end.fallthrough);
        let id = self.cx.next_schedule_id;
        self.schedule_if(next)?;
        self.mark_scope_fallthrough_if(next);
        let inside = Around::Within {
            rule: rule(around),
            statement: Enclosing::Another(None),
            outer: &*around,
        };
        self.refuse_scheduled(end.block, Refusal::ScopeBlockScheduled(block))?;
        self.traverse_block(table, &inside, levels, end.block)?;
        self.unschedule_if(next, id)?;
        self.close(None, first, op, end.scope, 0, 0, 0, 0);
        Ok(statement(next))
    }
}
