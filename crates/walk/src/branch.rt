// The arm Branch.
ghost use Rattle.std.specs.Prelude.{◌<◌};
ghost use Rattle.table.specs.Words.{block_count};
ghost use Rattle.table.specs.Promise.{Ends};
ghost use Rattle.table.specs.Table.{branch};
ghost use Rattle.walk.specs.Around.{around_of};
ghost use Rattle.walk.specs.Met.{terminal_outcome, Ended, Consequent, consequent_outcome};
ghost use Rattle.walk.specs.State.{state, Fine};

use crate::around::{Around, Enclosing, rule};
use crate::out::or_none;
use crate::refusal::{Refusal, Refused};
use crate::state::Walk;
use crate::visit::{TerminalResult, statement};
use table::Table;
use table::terminals::Branch;
use values::op::Op;

impl Walk<'_> {
    /// The If of a Branch: its consequent and its alternate.
    #[cycle(walk)]
    pub fn visit_branch(
        &mut self,
        table: Table<'_>,
        around: &Around<'_>,
        levels: u32,
        block: u32,
        end: Branch,
    ) -> Result<TerminalResult, Refused>
        requires there { block < block_count table.words.now }
        requires ends { Ends table.words.now block (branch end.test end.consequent end.alternate) }
        requires fine { Fine self.old 1 18 }
        ensures { Ended table.entry.words.now
            (terminal_outcome table.entry.words.now levels (around_of around.now) block (state self.old))
            self.old result self.new }
    {
        let first = self.tally.rows;
        let head = table.block(block);
        let inside = Around::Within {
            rule: rule(around),
            statement: Enclosing::Another(None),
            outer: &*around,
        };
        self.traverse_consequent(table, around, levels, block, end.consequent)?;
        self.refuse_scheduled(end.alternate, Refusal::BranchAlternateScheduled(block))?;
        self.traverse_block(table, &inside, levels, end.alternate)?;
        self.close(None, first, Op::If, end.test, 1, head.id, or_none(None), 0);
        Ok(statement(None))
    }

    // A Branch's consequent: a break where it is scheduled.
    #[cycle(walk)]
    fn traverse_consequent(
        &mut self,
        table: Table<'_>,
        around: &Around<'_>,
        levels: u32,
        block: u32,
        consequent: u32,
    ) -> Result<(), Refused>
        requires there { block < block_count table.words.now }
        requires consequent_bound { consequent < block_count table.words.now }
        requires fine { Fine self.old 1 18 }
        ensures { Consequent
            (consequent_outcome table.entry.words.now levels (around_of around.now) block consequent (state self.old))
            self.old result self.new }
    {
        if self.is_scheduled(consequent) {
            let id = table.block(block).id;
            let count = self.visit_break(around, block, consequent, id)?;
            self.put(Op::Block, count, 0, 0, 0, 0);
            return Ok(());
        }
        let inside = Around::Within {
            rule: rule(around),
            statement: Enclosing::Another(None),
            outer: &*around,
        };
        self.traverse_block(table, &inside, levels, consequent)
    }
}
