// The conditions beyond the papers, block by block: one function for each definition of definition/specs/PlainTest.
ghost use Rattle.std.specs.Prelude.{◌≡◌};
ghost use Rattle.table.specs.Table.{table_of, terminal_at, code_of, switch};
ghost use Rattle.table.specs.Columns.{maybe_of};
ghost use Rattle.table.specs.Ending.{ending};
ghost use Rattle.table.specs.Promise.{Ends};
ghost use Rattle.definition.specs.Completion.{contains};
ghost use Rattle.definition.specs.Plain.{with_switch, fallthrough_of};
ghost use Rattle.definition.specs.PlainLoops.{loop_codes, loop_of, proper_blocks_of};
ghost use Rattle.definition.specs.PlainTest.{all_of, goes_on, update_test, part_of, part_for, part_switch, part_test, loop_test, end_test, proper_test, loop_block_test, is_plain_loops};

use crate::asked::{every_block, only_of};
use crate::cases::cases_of;
use crate::facts::{
    all_reached, falls_to, fallthrough_of, goes_to, is_branch_to, loop_of, may_be_open, no_branch,
    no_branches, not_in_loop, reached, terminal_or_absent,
};
use crate::tail::tail_at;
use crate::tests::paper_code;
use table::Table;
use table::terminals::{For, GotoVariant, Switch, Terminal};

fn loop_code(end: Terminal) -> bool
    ensures { result ≡ contains (loop_codes with_switch) (code_of (ending end)) }
{
    matches!(
        end,
        Terminal::Unreachable | Terminal::Switch(_) | Terminal::DoWhile(_) | Terminal::For(_)
    ) || paper_code(end)
}

// A For's init or update.
fn goes_on(table: Table<'_>, block: u32, test: u32) -> bool
    ensures { result ≡ goes_on (table_of table.entry.words.now) block test }
{
    goes_to(terminal_or_absent(table, block), test) && !tail_at(table, block).stores_unnamed()
}

fn update_test(table: Table<'_>, test: u32, update: Option<u32>) -> bool
    ensures { result ≡ update_test (table_of table.entry.words.now) test (maybe_of update) }
{
    match update {
        Some(update) => goes_on(table, update, test),
        None => true,
    }
}

fn for_part(table: Table<'_>, end: For) -> bool
    ensures { result ≡ part_test (table_of table.entry.words.now) 0 (part_for end.init end.test (maybe_of end.update)) }
{
    goes_on(table, end.init, end.test)
        && !tail_at(table, end.init).loads_own()
        && update_test(table, end.test, end.update)
}

fn switch_part(table: Table<'_>, block: u32, end: Switch) -> bool
    requires { Ends table.words.now block (switch end.test end.first end.number end.fallthrough) }
    ensures { result ≡ part_test (table_of table.entry.words.now) 0 (part_switch end.first end.number end.fallthrough) }
{
    reached(table, end.fallthrough) || !cases_of(table, block, end).last_is(end.fallthrough)
}

fn part_test(table: Table<'_>, block: u32, end: Terminal) -> bool
    requires { Ends table.words.now block (ending end) }
    ensures { result ≡ part_test (table_of table.entry.words.now) block (part_of (ending end)) }
{
    match end {
        Terminal::Goto(end) => end.variant != GotoVariant::Try,
        Terminal::Branch(_) => !tail_at(table, block).stores_unnamed(),
        Terminal::Switch(end) => switch_part(table, block, end),
        Terminal::For(end) => for_part(table, end),
        _ => true,
    }
}

// A loop's test goes to its loop block and its fallthrough, which are no Branch blocks.
fn loop_test(table: Table<'_>, end: Terminal) -> bool
    ensures { result ≡ loop_test (table_of table.entry.words.now) (loop_of (ending end)) }
{
    match loop_of(end) {
        Some(end) => {
            let test = terminal_or_absent(table, end.test);
            is_branch_to(test, end.body, end.fallthrough)
                && no_branch(table, end.body)
                && no_branch(table, end.fallthrough)
        }
        None => true,
    }
}

// A fallthrough is no other block's, is no loop block and continues no loop, and is reached unless its terminal asks.
fn end_test(table: Table<'_>, block: u32, end: Terminal) -> bool
    ensures { result ≡ end_test (table_of table.entry.words.now) block (ending end) (fallthrough_of (ending end)) }
{
    match fallthrough_of(end) {
        Some(fallthrough) => {
            only_of(table, block, fallthrough)
                && every_block(table, |_, end| not_in_loop(end, fallthrough))
                && (reached(table, fallthrough) || may_be_open(end))
        }
        None => true,
    }
}

// A case block that is not the Switch's own fallthrough: no Branch, reached, no fallthrough.
fn proper_test(table: Table<'_>, block: u32) -> bool
    ensures { result ≡ proper_test (table_of table.entry.words.now) block }
{
    no_branch(table, block)
        && reached(table, block)
        && every_block(table, |_, end| !falls_to(end, block))
}

#[tactic(auto, using(crate::proofs::CaseLaws::either_order))]
fn propers_test(table: Table<'_>, block: u32, end: Terminal) -> bool
    requires { Ends table.words.now block (ending end) }
    ensures { result ≡ all_of (proper_blocks_of (table_of table.entry.words.now) (ending end)) (proper_test (table_of table.entry.words.now)) }
{
    match end {
        Terminal::Switch(end) => {
            let cases = cases_of(table, block, end).proper(end.fallthrough);
            cases.all(|case| proper_test(table, case))
        }
        _ => true,
    }
}

fn loop_block_test(table: Table<'_>, block: u32) -> bool
    ensures { result ≡ loop_block_test (table_of table.entry.words.now) with_switch block (terminal_at (table_of table.entry.words.now) block) }
{
    let end = terminal_or_absent(table, block);
    loop_code(end)
        && no_branches(table, end)
        && all_reached(table, end)
        && part_test(table, block, end)
        && loop_test(table, end)
        && end_test(table, block, end)
        && propers_test(table, block, end)
}

// The entry is no Branch, and is reached.
#[tactic(auto, using(crate::proofs::NumberLaws::entry_is))]
pub fn is_plain_loops(table: Table<'_>) -> bool
    ensures { result ≡ is_plain_loops (table_of table.entry.words.now) with_switch }
{
    let entry = table.entry();
    no_branch(table, entry)
        && reached(table, entry)
        && every_block(table, |block, _| loop_block_test(table, block))
}
