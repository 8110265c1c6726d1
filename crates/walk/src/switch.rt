// The arm Switch: its cases from the last to the first.
ghost use Rattle.std.specs.Prelude.{◌<◌, ℕ, List};
ghost use Rattle.table.specs.Words.{block_count};
ghost use Rattle.table.specs.Promise.{Ends};
ghost use Rattle.table.specs.Table.{switch};
ghost use Rattle.walk.specs.Around.{around_of};
ghost use Rattle.walk.specs.Met.{terminal_outcome, Ended, Cased, cases_outcome};
ghost use Rattle.walk.specs.State.{state, Fine};

use crate::around::{Around, Enclosing, rule};
use crate::out::or_none;
use crate::refusal::{Refusal, Refused};
use crate::state::{Walk, entries_if};
use crate::visit::{TerminalResult, statement};
use control::{ControlFlowTarget, block_id};
use table::Table;
use table::terminals::Switch;
use values::op::Op;

impl Walk<'_> {
    /// A Switch and its cases.
    #[cycle(walk)]
    pub fn visit_switch(
        &mut self,
        table: Table<'_>,
        around: &Around<'_>,
        levels: u32,
        block: u32,
        end: Switch,
    ) -> Result<TerminalResult, Refused>
        requires there { block < block_count table.words.now }
        requires ends { Ends table.words.now block (switch end.test end.first end.number end.fallthrough) }
        requires fine { Fine self.old 1 18 }
        ensures { Ended table.entry.words.now
            (terminal_outcome table.entry.words.now levels (around_of around.now) block (state self.old))
            self.old result self.new }
    {
        let first = self.tally.rows;
        let head = table.block(block);
        let label = self.unless_unreachable(table, end.fallthrough)?;
        self.schedule_switch(label)?;
        let inside = Around::Within {
            rule: rule(around),
            statement: Enclosing::Switch(label),
            outer: &*around,
        };
        let built = self.traverse_cases(table, &inside, levels, block, end)?;
        self.unschedule_all(built + entries_if(label));
        self.close(
            label,
            first,
            Op::Switch,
            end.test,
            built,
            head.id,
            or_none(label),
            0,
        );
        Ok(statement(label))
    }

    // The cases, the last first, each scheduled after it is built. Gives the number of those built, whose entries stay
    // on the stack.
    #[cycle(walk)]
    fn traverse_cases(
        &mut self,
        table: Table<'_>,
        around: &Around<'_>,
        levels: u32,
        block: u32,
        end: Switch,
    ) -> Result<u32, Refused>
        requires there { block < block_count table.words.now }
        requires ends { Ends table.words.now block (switch end.test end.first end.number end.fallthrough) }
        requires fine { Fine self.old 0 0 }
        ensures { (own : List ℕ) → Cased end.number own
            (cases_outcome table.entry.words.now levels (around_of around.now)
            block end.fallthrough end.first end.number own (state self.old))
            self.old result self.new }
    {
        let mut left = end.number;
        let mut built: u32 = 0;
        while left > 0 {
            left -= 1;
            let case = table.case(end.first + left);
            if self.is_scheduled(case.block) {
                if case.block != end.fallthrough {
                    return Err(Refusal::CaseScheduled(block).after(self.tally.visits));
                }
                continue;
            }
            self.traverse_block(table, around, levels, case.block)?;
            self.put(Op::Case, case.test, 0, 0, 0, 0);
            self.schedule(ControlFlowTarget::Case {
                block: block_id(case.block),
            })?;
            built += 1;
        }
        Ok(built)
    }
}
