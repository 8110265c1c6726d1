// The arms DoWhile, While, For, ForOf and ForIn.
ghost use Rattle.std.specs.Prelude.{◌≡◌, ◌<◌};
ghost use Rattle.table.specs.Words.{block_count};
ghost use Rattle.table.specs.Columns.{maybe_of};
ghost use Rattle.table.specs.Promise.{Ends};
ghost use Rattle.table.specs.Table.{do_while, while, for, for_of, for_in};
ghost use Rattle.definition.specs.Statement.{continue_block_of};
ghost use Rattle.walk.specs.Around.{around_of};
ghost use Rattle.walk.specs.Met.{terminal_outcome, Traversed, Ended, body_outcome};
ghost use Rattle.walk.specs.State.{state, Fine};

use crate::around::{Around, Enclosing, rule};
use crate::out::or_none;
use crate::refusal::{Refusal, Refused};
use crate::state::Walk;
use crate::visit::{TerminalResult, statement};
use table::Table;
use table::terminals::{DoWhile, For, ForIn, ForOf, While};
use values::op::Op;

// Where a For continues: its update, or its test where it has none.
fn continue_block_of(update: Option<u32>, test: u32) -> u32
    ensures { result ≡ continue_block_of (maybe_of update) test }
{
    match update {
        None => test,
        Some(update) => update,
    }
}

impl Walk<'_> {
    /// A DoWhile: its body, and then its test.
    #[cycle(walk)]
    pub fn visit_do_while(
        &mut self,
        table: Table<'_>,
        around: &Around<'_>,
        levels: u32,
        block: u32,
        end: DoWhile,
    ) -> Result<TerminalResult, Refused>
        requires there { block < block_count table.words.now }
        requires ends { Ends table.words.now block (do_while end.loop_block end.test end.fallthrough) }
        requires fine { Fine self.old 1 18 }
        ensures { Ended table.entry.words.now
            (terminal_outcome table.entry.words.now levels (around_of around.now) block (state self.old))
            self.old result self.new }
    {
        let first = self.tally.rows;
        let head = table.block(block);
        let label = self.unless_scheduled(end.fallthrough);
        let taken = self.loop_is_taken(end.loop_block, end.fallthrough);
        let id = self.cx.next_schedule_id;
        self.schedule_loop(end.fallthrough, end.test, end.loop_block)?;
        self.traverse_loop(table, around, levels, block, label, end.loop_block, taken)?;
        self.visit_value(table, levels, end.test, head.span)?;
        self.unschedule(id)?;
        self.close(label, first, Op::DoWhile, head.id, or_none(label), 0, 0, 0);
        Ok(statement(label))
    }

    /// A While: its test, and then its body.
    #[cycle(walk)]
    pub fn visit_while(
        &mut self,
        table: Table<'_>,
        around: &Around<'_>,
        levels: u32,
        block: u32,
        end: While,
    ) -> Result<TerminalResult, Refused>
        requires there { block < block_count table.words.now }
        requires ends { Ends table.words.now block (while end.test end.loop_block end.fallthrough) }
        requires fine { Fine self.old 1 18 }
        ensures { Ended table.entry.words.now
            (terminal_outcome table.entry.words.now levels (around_of around.now) block (state self.old))
            self.old result self.new }
    {
        let first = self.tally.rows;
        let head = table.block(block);
        let label = self.unless_unreachable(table, end.fallthrough)?;
        let taken = self.loop_is_taken(end.loop_block, end.fallthrough);
        let id = self.cx.next_schedule_id;
        self.schedule_loop(end.fallthrough, end.test, end.loop_block)?;
        self.visit_value(table, levels, end.test, head.span)?; // the line begins with these rows
        self.traverse_loop(table, around, levels, block, label, end.loop_block, taken)?;
        self.unschedule(id)?;
        self.close(label, first, Op::While, head.id, or_none(label), 0, 0, 0);
        Ok(statement(label))
    }

    /// A For: its init, test and update, and then its body.
    #[cycle(walk)]
    pub fn visit_for(
        &mut self,
        table: Table<'_>,
        around: &Around<'_>,
        levels: u32,
        block: u32,
        end: For,
    ) -> Result<TerminalResult, Refused>
        requires there { block < block_count table.words.now }
        requires ends { Ends table.words.now block
            (for end.init end.test (maybe_of end.update) end.loop_block end.fallthrough) }
        requires fine { Fine self.old 1 18 }
        ensures { Ended table.entry.words.now
            (terminal_outcome table.entry.words.now levels (around_of around.now) block (state self.old))
            self.old result self.new }
    {
        let first = self.tally.rows;
        let head = table.block(block);
        let label = self.unless_scheduled(end.fallthrough);
        let taken = self.loop_is_taken(end.loop_block, end.fallthrough);
        let id = self.cx.next_schedule_id;
        let continue_block = continue_block_of(end.update, end.test);
        self.schedule_loop(end.fallthrough, continue_block, end.loop_block)?;
        self.visit_flat(table, levels, end.init, head.span)?;
        self.visit_value(table, levels, end.test, head.span)?;
        let present = self.visit_update(table, levels, end.update, head.span)?;
        self.traverse_loop(table, around, levels, block, label, end.loop_block, taken)?;
        self.unschedule(id)?;
        self.close(
            label,
            first,
            Op::For,
            head.id,
            or_none(label),
            present,
            0,
            0,
        );
        Ok(statement(label))
    }

    /// A ForOf: its init and its test, and then its body.
    #[cycle(walk)]
    pub fn visit_for_of(
        &mut self,
        table: Table<'_>,
        around: &Around<'_>,
        levels: u32,
        block: u32,
        end: ForOf,
    ) -> Result<TerminalResult, Refused>
        requires there { block < block_count table.words.now }
        requires ends { Ends table.words.now block (for_of end.init end.test end.loop_block end.fallthrough) }
        requires fine { Fine self.old 1 18 }
        ensures { Ended table.entry.words.now
            (terminal_outcome table.entry.words.now levels (around_of around.now) block (state self.old))
            self.old result self.new }
    {
        let first = self.tally.rows;
        let head = table.block(block);
        let label = self.unless_scheduled(end.fallthrough);
        let taken = self.loop_is_taken(end.loop_block, end.fallthrough);
        let id = self.cx.next_schedule_id;
        self.schedule_loop(end.fallthrough, end.init, end.loop_block)?;
        self.visit_flat(table, levels, end.init, head.span)?;
        self.visit_flat(table, levels, end.test, head.span)?;
        self.traverse_loop(table, around, levels, block, label, end.loop_block, taken)?;
        self.unschedule(id)?;
        self.close(
            label,
            first,
            Op::ForOf,
            head.id,
            or_none(label),
            head.span.from,
            head.span.to,
            0,
        );
        Ok(statement(label))
    }

    /// A ForIn: its init, and then its body.
    #[cycle(walk)]
    pub fn visit_for_in(
        &mut self,
        table: Table<'_>,
        around: &Around<'_>,
        levels: u32,
        block: u32,
        end: ForIn,
    ) -> Result<TerminalResult, Refused>
        requires there { block < block_count table.words.now }
        requires ends { Ends table.words.now block (for_in end.init end.loop_block end.fallthrough) }
        requires fine { Fine self.old 1 18 }
        ensures { Ended table.entry.words.now
            (terminal_outcome table.entry.words.now levels (around_of around.now) block (state self.old))
            self.old result self.new }
    {
        let first = self.tally.rows;
        let head = table.block(block);
        let label = self.unless_scheduled(end.fallthrough);
        let taken = self.loop_is_taken(end.loop_block, end.fallthrough);
        let id = self.cx.next_schedule_id;
        self.schedule_loop(end.fallthrough, end.init, end.loop_block)?;
        self.visit_flat(table, levels, end.init, head.span)?;
        self.traverse_loop(table, around, levels, block, label, end.loop_block, taken)?;
        self.unschedule(id)?;
        self.close(
            label,
            first,
            Op::ForIn,
            head.id,
            or_none(label),
            head.span.from,
            head.span.to,
            0,
        );
        Ok(statement(label))
    }

    // The body of a loop, refused where the loop block is taken.
    #[cycle(walk)]
    fn traverse_loop(
        &mut self,
        table: Table<'_>,
        around: &Around<'_>,
        levels: u32,
        block: u32,
        label: Option<u32>,
        loop_block: u32,
        taken: bool,
    ) -> Result<(), Refused>
        requires there { block < block_count table.words.now }
        requires loop_bound { loop_block < block_count table.words.now }
        requires fine { Fine self.old 0 0 }
        ensures { Traversed
            (body_outcome table.entry.words.now levels (around_of around.now)
            block (maybe_of label) loop_block taken (state self.old))
            self.old result self.new }
    {
        if taken {
            return Err(Refusal::LoopScheduled(block).after(self.tally.visits));
        }
        let inside = Around::Within {
            rule: rule(around),
            statement: Enclosing::Loop(label),
            outer: &*around,
        };
        self.traverse_block(table, &inside, levels, loop_block)
    }
}
