// The arms of the value terminals: Logical, Ternary, Optional and Sequence.
ghost use Rattle.std.specs.Prelude.{◌<◌};
ghost use Rattle.table.specs.Words.{block_count};
ghost use Rattle.walk.specs.Met.{terminal_outcome, Ended, ValueEnds};
ghost use Rattle.walk.specs.State.{state, Fine};
ghost use Rattle.definition.specs.Around as definition;

use crate::refusal::Refused;
use crate::state::Walk;
use crate::visit::{TerminalResult, statement};
use table::Table;
use values::op::Op;

impl Walk<'_> {
    /// The value of a value terminal, as an instruction with the terminal's own span.
    pub fn visit_value_statement(
        &mut self,
        table: Table<'_>,
        levels: u32,
        block: u32,
        fallthrough: u32,
    ) -> Result<TerminalResult, Refused>
        requires there { block < block_count table.words.now }
        requires ends { ValueEnds table.words.now block fallthrough }
        requires fine { Fine self.old 1 18 }
        ensures { (around : definition.Around) → Ended table.entry.words.now
            (terminal_outcome table.entry.words.now levels around block (state self.old)) self.old result self.new }
    {
        let head = table.block(block);
        let next = self.unless_scheduled(fallthrough);
        let id = self.cx.next_schedule_id;
        self.schedule_if(next)?;
        let value = self.visit_value_terminal(table, levels, block)?;
        self.unschedule_if(next, id)?;
        self.put(
            Op::Instr,
            value.id,
            value.place,
            head.span.from,
            head.span.to,
            0,
        );
        Ok(statement(next))
    }
}
