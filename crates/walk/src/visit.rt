// The statement walk: traverse_block and visit_block, and which arm a terminal has. `levels` is the number of levels of
// depth that nested blocks have left.
ghost use Rattle.std.specs.Prelude.{◌≡◌, ◌<◌, false};
ghost use Rattle.table.specs.Words.{block_count};
ghost use Rattle.table.specs.Table.{table_of, terminal_at, is_absent};
ghost use Rattle.walk.specs.Around.{around_of};
ghost use Rattle.walk.specs.Met.{traverse_outcome, visit_outcome, terminal_outcome, Traversed, Listed, Ended};
ghost use Rattle.walk.specs.State.{state, Fine};

use crate::around::Around;
use crate::refusal::{Refusal, Refused};
use crate::state::Walk;
use table::Table;
use table::terminals::Terminal;
use values::op::Op;

/// What a terminal gives: the number of its statements, 0 or 1, and the block to go on with at the same depth, if any.
#[derive(Clone, Copy, Drop)]
pub struct TerminalResult {
    pub count: u32,
    pub next: Option<u32>,
}

/// No statement, and the block to go on with.
pub fn nothing(next: Option<u32>) -> TerminalResult
    ensures { result ≡ record { count = 0; next = next } }
{
    TerminalResult { count: 0, next }
}

/// One statement, and the block to go on with.
pub fn statement(next: Option<u32>) -> TerminalResult
    ensures { result ≡ record { count = 1; next = next } }
{
    TerminalResult { count: 1, next }
}

impl Walk<'_> {
    /// A nested block, one level deeper, and its BLOCK row. Refuses 30 where no level is left.
    #[cycle(walk)]
    pub fn traverse_block(
        &mut self,
        table: Table<'_>,
        around: &Around<'_>,
        levels: u32,
        block: u32,
    ) -> Result<(), Refused>
        requires there { block < block_count table.words.now }
        requires fine { Fine self.old 0 0 }
        ensures { Traversed
            (traverse_outcome table.entry.words.now levels (around_of around.now) block (state self.old))
            self.old result self.new }
    {
        if levels == 0 {
            return Err(Refusal::TooDeep(block).after(self.tally.visits));
        }
        let count = self.visit_block(table, around, levels - 1, block)?;
        self.put(Op::Block, count, 0, 0, 0, 0);
        Ok(())
    }

    // A block, and then the fallthroughs and continuations at the same depth. Gives the number of statements.
    #[cycle(walk)]
    fn visit_block(
        &mut self,
        table: Table<'_>,
        around: &Around<'_>,
        levels: u32,
        block: u32,
    ) -> Result<u32, Refused>
        requires there { block < block_count table.words.now }
        requires fine { Fine self.old 0 0 }
        ensures { Listed (visit_outcome table.entry.words.now levels (around_of around.now) block (state self.old))
            self.old result self.new }
    {
        let mut block = block;
        let mut count: u32 = 0;
        loop {
            self.enter_block(table, block)?;
            let head = table.block(block);
            self.put_instructions(table, head.first, head.count);
            let terminal = self.visit_terminal(table, around, levels, block)?;
            count += head.count + terminal.count;
            match terminal.next {
                None => break Ok(count),
                Some(next) => block = next,
            }
        }
    }

    // The terminal of a block that was entered.
    #[cycle(walk)]
    fn visit_terminal(
        &mut self,
        table: Table<'_>,
        around: &Around<'_>,
        levels: u32,
        block: u32,
    ) -> Result<TerminalResult, Refused>
        requires there { block < block_count table.words.now }
        requires present { is_absent (terminal_at (table_of table.words.now) block) ≡ false }
        requires fine { Fine self.old 1 18 }
        ensures { Ended table.entry.words.now
            (terminal_outcome table.entry.words.now levels (around_of around.now) block (state self.old))
            self.old result self.new }
    {
        match table.terminal(block) {
            Terminal::Absent => unreachable!(), // a block that was entered is there
            Terminal::Unreachable => Ok(nothing(None)),
            Terminal::Throw(end) => Ok(self.visit_throw(table, block, end)),
            Terminal::Return(end) => Ok(self.visit_return(table, block, end)),
            Terminal::Goto(end) => self.visit_goto(table, around, block, end),
            Terminal::If(end) => self.visit_if(table, around, levels, block, end),
            Terminal::Branch(end) => self.visit_branch(table, around, levels, block, end),
            Terminal::Switch(end) => self.visit_switch(table, around, levels, block, end),
            Terminal::DoWhile(end) => self.visit_do_while(table, around, levels, block, end),
            Terminal::While(end) => self.visit_while(table, around, levels, block, end),
            Terminal::For(end) => self.visit_for(table, around, levels, block, end),
            Terminal::ForOf(end) => self.visit_for_of(table, around, levels, block, end),
            Terminal::ForIn(end) => self.visit_for_in(table, around, levels, block, end),
            Terminal::Label(end) => self.visit_label(table, around, levels, block, end),
            Terminal::Try(end) => self.visit_try(table, around, levels, block, end),
            Terminal::Scope(end) => self.visit_scope(table, around, levels, block, end, Op::Scope),
            Terminal::PrunedScope(end) => self.visit_scope(
                table,
                around,
                levels,
                block,
                end,
                Op::Pruned,
            ),
            Terminal::Logical(end) => self.visit_value_statement(
                table,
                levels,
                block,
                end.fallthrough,
            ),
            Terminal::Ternary(end) => self.visit_value_statement(
                table,
                levels,
                block,
                end.fallthrough,
            ),
            Terminal::Optional(end) => self.visit_value_statement(
                table,
                levels,
                block,
                end.fallthrough,
            ),
            Terminal::Sequence(end) => self.visit_value_statement(
                table,
                levels,
                block,
                end.fallthrough,
            ),
            Terminal::MaybeThrow(end) => Ok(nothing(self.unless_scheduled(end.continuation))),
        }
    }
}
