// What the conditions ask of a terminal, each by the definition's own word for it.
ghost use Rattle.std.specs.Prelude.{◌≡◌, not};
ghost use Rattle.table.specs.Table.{table_of, terminal_at, is_unreachable};
ghost use Rattle.table.specs.Columns.{maybe_of};
ghost use Rattle.table.specs.Ending.{ending};
ghost use Rattle.table.specs.Promise.{Ends};
ghost use Rattle.definition.specs.Value.{is_fallthrough};
ghost use Rattle.definition.specs.Plain.{fallthrough_of, is_branch, other_names};
ghost use Rattle.definition.specs.PlainLoops.{loop_of, entered_by, may_be_open};
ghost use Rattle.definition.specs.PlainTest.{shape_of, is_while, is_branch_to, not_of_loop, goto_block, not_in_loop, not_named, no_branches, all_reached};
ghost use Rattle.plain.specs.Loops.{maybe_loop};

use table::Table;
use table::terminals::Terminal;

// The block's terminal. A block beyond the table is absent. The hints here and below halve the time of `table_plain`, which asks each block of
// each block: what a test does not ask for is not read.
#[tactic(auto, using(crate::proofs::TerminalLaws::beyond_ends))]
#[inline(always)]
pub fn terminal_or_absent(table: Table<'_>, block: u32) -> Terminal
    ensures { Ends table.entry.words.now block (ending result) }
{
    if block < table.block_count() {
        table.terminal(block)
    } else {
        Terminal::Absent
    }
}

#[inline]
pub fn fallthrough_of(end: Terminal) -> Option<u32>
    ensures { maybe_of result ≡ fallthrough_of (ending end) }
{
    match end {
        Terminal::If(end) => Some(end.fallthrough),
        Terminal::Switch(end) => Some(end.fallthrough),
        Terminal::DoWhile(end) => Some(end.fallthrough),
        Terminal::While(end) => Some(end.fallthrough),
        Terminal::For(end) => Some(end.fallthrough),
        Terminal::ForOf(end) => Some(end.fallthrough),
        Terminal::ForIn(end) => Some(end.fallthrough),
        Terminal::Logical(end) => Some(end.fallthrough),
        Terminal::Ternary(end) => Some(end.fallthrough),
        Terminal::Optional(end) => Some(end.fallthrough),
        Terminal::Label(end) => Some(end.fallthrough),
        Terminal::Sequence(end) => Some(end.fallthrough),
        Terminal::Try(end) => Some(end.fallthrough),
        Terminal::Scope(end) | Terminal::PrunedScope(end) => Some(end.fallthrough),
        _ => None,
    }
}

#[inline]
pub fn falls_to(end: Terminal, fallthrough: u32) -> bool
    ensures { result ≡ is_fallthrough (fallthrough_of (ending end)) fallthrough }
{
    fallthrough_of(end) == Some(fallthrough)
}

// A loop's test, loop block and fallthrough, and the block that continues it: a For's update, if any, else its test.
#[derive(Clone, Copy)]
pub struct Loop {
    pub test: u32,
    pub body: u32,
    pub fallthrough: u32,
    pub again: u32,
}

pub fn loop_of(end: Terminal) -> Option<Loop>
    ensures { maybe_loop result ≡ loop_of (ending end) }
{
    match end {
        Terminal::DoWhile(end) => Some(Loop {
            test: end.test,
            body: end.loop_block,
            fallthrough: end.fallthrough,
            again: end.test,
        }),
        Terminal::While(end) => Some(Loop {
            test: end.test,
            body: end.loop_block,
            fallthrough: end.fallthrough,
            again: end.test,
        }),
        Terminal::For(end) => Some(Loop {
            test: end.test,
            body: end.loop_block,
            fallthrough: end.fallthrough,
            again: end.update.unwrap_or(end.test),
        }),
        _ => None,
    }
}

// The block is no loop's loop block, and continues none.
pub fn not_in_loop(end: Terminal, named: u32) -> bool
    ensures { result ≡ not_in_loop named (loop_of (ending end)) }
{
    loop_of(end).is_none_or(|end| named != end.body && named != end.again)
}

pub fn is_while(end: Terminal, test: u32, body: u32, fallthrough: u32) -> bool
    ensures { result ≡ is_while test body fallthrough (shape_of (ending end)) }
{
    match end {
        Terminal::While(end) => {
            end.test == test && end.loop_block == body && end.fallthrough == fallthrough
        }
        _ => false,
    }
}

// The block is no While's loop block or test.
#[inline]
pub fn not_of_loop(end: Terminal, named: u32) -> bool
    ensures { result ≡ not_of_loop named (shape_of (ending end)) }
{
    match end {
        Terminal::While(end) => named != end.loop_block && named != end.test,
        _ => true,
    }
}

pub fn goes_to(end: Terminal, target: u32) -> bool
    ensures { result ≡ is_fallthrough (goto_block (ending end)) target }
{
    match end {
        Terminal::Goto(end) => end.block == target,
        _ => false,
    }
}

// The block is no fallthrough, no While's loop block or test, and no Goto's block.
pub fn not_named(end: Terminal, named: u32) -> bool
    ensures { result ≡ not_named named (ending end) }
{
    !falls_to(end, named) && not_of_loop(end, named) && !goes_to(end, named)
}

pub fn is_branch_to(end: Terminal, consequent: u32, alternate: u32) -> bool
    ensures { result ≡ is_branch_to consequent alternate (shape_of (ending end)) }
{
    match end {
        Terminal::Branch(end) => end.consequent == consequent && end.alternate == alternate,
        _ => false,
    }
}

// An If, a Switch, a Label or a scope.
pub fn may_be_open(end: Terminal) -> bool
    ensures { result ≡ may_be_open (ending end) }
{
    matches!(
        end,
        Terminal::If(_)
            | Terminal::Switch(_)
            | Terminal::Label(_)
            | Terminal::Scope(_)
            | Terminal::PrunedScope(_)
    )
}

pub fn no_branch(table: Table<'_>, block: u32) -> bool
    ensures { result ≡ not (is_branch (terminal_at (table_of table.entry.words.now) block)) }
{
    !matches!(terminal_or_absent(table, block), Terminal::Branch(_))
}

pub fn reached(table: Table<'_>, block: u32) -> bool
    ensures { result ≡ not (is_unreachable (terminal_at (table_of table.entry.words.now) block)) }
{
    !matches!(terminal_or_absent(table, block), Terminal::Unreachable)
}

// No Branch among the blocks that a terminal names.
pub fn no_branches(table: Table<'_>, end: Terminal) -> bool
    ensures { result ≡ no_branches (table_of table.entry.words.now) (other_names (ending end)) }
{
    match end {
        Terminal::If(end) => {
            no_branch(table, end.consequent)
                && no_branch(table, end.alternate)
                && no_branch(table, end.fallthrough)
        }
        Terminal::Branch(end) => no_branch(table, end.consequent)
            && no_branch(table, end.alternate),
        Terminal::Switch(end) => no_branch(table, end.fallthrough),
        Terminal::While(end) => no_branch(table, end.loop_block)
            && no_branch(table, end.fallthrough),
        Terminal::Label(end) => no_branch(table, end.block) && no_branch(table, end.fallthrough),
        Terminal::Scope(end) | Terminal::PrunedScope(end) => {
            no_branch(table, end.block) && no_branch(table, end.fallthrough)
        }
        _ => true,
    }
}

// The blocks that a terminal enters are reached.
pub fn all_reached(table: Table<'_>, end: Terminal) -> bool
    ensures { result ≡ all_reached (table_of table.entry.words.now) (entered_by (ending end)) }
{
    match end {
        Terminal::Goto(end) => reached(table, end.block),
        Terminal::If(end) => reached(table, end.consequent) && reached(table, end.alternate),
        Terminal::Branch(end) => reached(table, end.consequent) && reached(table, end.alternate),
        Terminal::DoWhile(end) => reached(table, end.loop_block),
        Terminal::While(end) => reached(table, end.loop_block),
        Terminal::For(end) => reached(table, end.loop_block),
        Terminal::Label(end) => reached(table, end.block),
        Terminal::Scope(end) | Terminal::PrunedScope(end) => reached(table, end.block),
        _ => true,
    }
}
