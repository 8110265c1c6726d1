// Paper 01's conditions and M-113's, block by block: one function for each definition of definition/specs/PlainTest.
ghost use Rattle.std.specs.Prelude.{◌≡◌};
ghost use Rattle.table.specs.Table.{table_of, terminal_at, code_of};
ghost use Rattle.table.specs.Columns.{maybe_of};
ghost use Rattle.table.specs.Ending.{ending};
ghost use Rattle.table.specs.Promise.{Ends};
ghost use Rattle.definition.specs.Completion.{contains};
ghost use Rattle.definition.specs.Plain.{Width, plain_codes, paper_01, with_switch, fallthrough_of, case_blocks_of};
ghost use Rattle.definition.specs.PlainTest.{every_of, not_named, shape_of, shape_test, fallthrough_test, cases_test, block_test, is_plain};
ghost use Rattle.plain.specs.Asked.{AnswersCode};
ghost use Rattle.plain.specs.Laws.{branch_test};

use crate::asked::{every_block, only_of, some_while};
use crate::cases::cases_of;
use crate::facts::{
    fallthrough_of, is_branch_to, no_branch, no_branches, not_named, not_of_loop,
    terminal_or_absent,
};
use crate::tail::tail_at;
use table::Table;
use table::terminals::{GotoVariant, Terminal};

// The terminals of paper 01's list.
pub fn paper_code(end: Terminal) -> bool
    ensures { result ≡ contains (plain_codes paper_01) (code_of (ending end)) }
{
    matches!(
        end,
        Terminal::Absent
            | Terminal::Throw(_)
            | Terminal::Return(_)
            | Terminal::Goto(_)
            | Terminal::If(_)
            | Terminal::Branch(_)
            | Terminal::While(_)
            | Terminal::Label(_)
            | Terminal::Scope(_)
            | Terminal::PrunedScope(_)
    )
}

// And Switch.
pub fn switch_code(end: Terminal) -> bool
    ensures { result ≡ contains (plain_codes with_switch) (code_of (ending end)) }
{
    matches!(end, Terminal::Switch(_)) || paper_code(end)
}

// A Branch is some While's test, and does not end in a store.
fn branch_test(table: Table<'_>, block: u32, consequent: u32, alternate: u32) -> bool
    ensures { result ≡ branch_test (table_of table.entry.words.now) block consequent alternate }
{
    some_while(table, block, consequent, alternate) && !tail_at(table, block).stores()
}

fn shape_test(table: Table<'_>, block: u32, end: Terminal) -> bool
    ensures { result ≡ shape_test (table_of table.entry.words.now) block (shape_of (ending end)) }
{
    match end {
        Terminal::Goto(end) => end.variant != GotoVariant::Try,
        Terminal::Branch(end) => branch_test(table, block, end.consequent, end.alternate),
        // A While's test goes to its loop and its fallthrough.
        Terminal::While(end) => {
            let test = terminal_or_absent(table, end.test);
            is_branch_to(test, end.loop_block, end.fallthrough)
        }
        _ => true,
    }
}

// A fallthrough is no other block's, and no loop's.
fn fallthrough_test(table: Table<'_>, block: u32, fallthrough: Option<u32>) -> bool
    ensures { result ≡ fallthrough_test (table_of table.entry.words.now) block (maybe_of fallthrough) }
{
    match fallthrough {
        Some(fallthrough) => {
            only_of(table, block, fallthrough)
                && every_block(table, |_, end| not_of_loop(end, fallthrough))
        }
        None => true,
    }
}

// Nothing but a Switch names the block.
fn named_by_none(table: Table<'_>, block: u32) -> bool
    ensures { result ≡ every_of (table_of table.entry.words.now).blocks (λ w m. not_named block m) }
{
    every_block(table, |_, end| not_named(end, block))
}

// A Switch's case blocks differ, and nothing else names them.
fn cases_test(table: Table<'_>, block: u32, end: Terminal) -> bool
    requires { Ends table.words.now block (ending end) }
    ensures { result ≡ cases_test (table_of table.entry.words.now) (case_blocks_of (table_of table.entry.words.now) (ending end)) }
{
    match end {
        Terminal::Switch(end) => {
            let cases = cases_of(table, block, end);
            cases.differ() && cases.all(|case| named_by_none(table, case))
        }
        _ => true,
    }
}

pub fn block_test<F: Fn(Terminal) -> bool>(table: Table<'_>, block: u32, plain_code: &F) -> bool
    requires { F.IsAlwaysCallable plain_code.now }
    ensures { (width : Width) → AnswersCode (F.post plain_code.now) width → result ≡ block_test (table_of table.entry.words.now) width block (terminal_at (table_of table.entry.words.now) block) }
{
    let end = terminal_or_absent(table, block);
    plain_code(end)
        && no_branches(table, end)
        && shape_test(table, block, end)
        && fallthrough_test(table, block, fallthrough_of(end))
        && cases_test(table, block, end)
}

// The entry is no Branch.
pub fn is_plain<F: Fn(Terminal) -> bool>(table: Table<'_>, plain_code: F) -> bool
    requires { F.IsAlwaysCallable plain_code }
    ensures { (width : Width) → AnswersCode (F.post plain_code) width → result ≡ is_plain (table_of table.entry.words.now) width }
{
    no_branch(table, table.entry())
        && every_block(table, |block, _| block_test(table, block, &plain_code))
}
