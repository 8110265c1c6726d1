// The walk: value blocks, test blocks and value terminals call one another, each value visit one deeper.
// `levels` is the number of levels of depth that are left, 128 minus the depth. It falls with each call.
// Table, buffer, tally and levels stay four parameters. The tally is the state: it goes in by value, and the next one comes back in the result. The
// levels are the measure. So of a struct of the four, two fields would be new at each call.
// `Fit` is of the tally and the block of one call, so it stands in the contracts and not in a struct.
ghost use Rattle.table.specs.Columns.{maybe_of};
ghost use Rattle.table.specs.Promise.{Ends};
ghost use Rattle.table.specs.Table.{logical, maybe_throw, optional, sequence, ternary};
ghost use Rattle.values.specs.Met.{block_result, terminal_result, Fit, Met};
ghost use Rattle.values.specs.Tested.{TestMet};
ghost use Rattle.values.specs.WalkOutcome.{visit, block_outcome, terminal_outcome, fallthrough_outcome, test_outcome};

use crate::extract::{branch_value, extract_or_refuse, is_empty_goto, wrap_with_sequence};
use crate::instructions::put_instructions;
use crate::op::Op;
use crate::refusal::{Refusal, Refused};
use crate::result::{Tally, ValueBlockResult};
use crate::steps::{loading, put_instr, put_row};
use table::Table;
use table::columns::Span;
use table::terminals::{Logical, MaybeThrow, Optional, Sequence, Terminal, Ternary};

// The value of a block. `fallthrough` is the block that must not be reached, if there is one. `span` is the one that was passed down.
// An arm for each terminal, so it is longer than other functions.
#[cycle(walk)]
#[tactic(auto, using(crate::proofs::WalkLaws::visit_full))]
pub fn visit_value_block(
    table: Table<'_>,
    buffer: &mut [u32],
    tally: Tally,
    levels: u32,
    block: u32,
    fallthrough: Option<u32>,
    span: Span,
) -> Result<ValueBlockResult, Refused>
    requires { Fit table.words.now tally 0 block }
    ensures { Met table.entry.words.now block_result (visit table.entry.words.now levels block (maybe_of fallthrough) span tally.visits) tally 0 buffer.old result buffer.new }
{
    if levels == 0 {
        return Err(Refusal::TooDeep(block).after(tally.visits));
    }
    if tally.visits == 8192 {
        return Err(Refusal::TooManyVisits(block).after(tally.visits));
    }
    let begun = Tally {
        visits: tally.visits + 1,
        ..tally
    };
    if table.is_absent(block) {
        return Err(Refusal::MissingBlock(block).after(begun.visits));
    }
    if fallthrough == Some(block) {
        return Err(Refusal::FallthroughReached(block).after(begun.visits));
    }
    match table.terminal(block) {
        Terminal::Goto(_) => extract_or_refuse(
            table,
            buffer,
            begun,
            block,
            block,
            Refusal::EmptyGoto(block),
        ),
        Terminal::Branch(end) => Ok(branch_value(table, buffer, begun, block, end.test)),
        Terminal::MaybeThrow(end) => maybe_throw_value(
            table,
            buffer,
            begun,
            levels - 1,
            block,
            end,
            fallthrough,
            span,
        ),
        Terminal::Absent
        | Terminal::Unreachable
        | Terminal::Throw(_)
        | Terminal::Return(_)
        | Terminal::If(_)
        | Terminal::Switch(_)
        | Terminal::DoWhile(_)
        | Terminal::While(_)
        | Terminal::For(_)
        | Terminal::ForOf(_)
        | Terminal::ForIn(_)
        | Terminal::Logical(_)
        | Terminal::Ternary(_)
        | Terminal::Optional(_)
        | Terminal::Label(_)
        | Terminal::Sequence(_)
        | Terminal::Try(_)
        | Terminal::Scope(_)
        | Terminal::PrunedScope(_) => {
            then_fallthrough(table, buffer, begun, levels - 1, block, span)
        }
    }
}

// MaybeThrow: the continuation is looked up first. If it is an empty Goto block, the value is the block's own last instruction.
// Inline, as the two of `extract` that the visit calls: else each value visit copies its result once more (1 % to 3 % of a build).
#[cycle(walk)]
#[inline(always)]
fn maybe_throw_value(
    table: Table<'_>,
    buffer: &mut [u32],
    tally: Tally,
    levels: u32,
    block: u32,
    end: MaybeThrow,
    fallthrough: Option<u32>,
    span: Span,
) -> Result<ValueBlockResult, Refused>
    requires fit { Fit table.words.now tally 8200 block }
    requires ends { Ends table.words.now block (maybe_throw end.continuation) }
    ensures { Met table.entry.words.now block_result (block_outcome table.entry.words.now levels block fallthrough span tally.visits) tally 8200 buffer.old result buffer.new }
{
    let continuation = end.continuation;
    if table.is_absent(continuation) {
        return Err(Refusal::MissingBlock(continuation).after(tally.visits));
    }
    if is_empty_goto(table, continuation) {
        let none = Refusal::NoInstruction(block);
        return extract_or_refuse(table, buffer, tally, block, continuation, none);
    }
    let head = table.block(block);
    let rows = put_instructions(table, buffer, tally.rows, head.first, head.count);
    let own = Tally { rows, ..tally };
    let value = visit_value_block(table, buffer, own, levels, continuation, fallthrough, span)?;
    Ok(wrap_with_sequence(buffer, head.count, value))
}

// Any other end is a value terminal: its value becomes an instruction, and the value is that of its fallthrough.
#[cycle(walk)]
fn then_fallthrough(
    table: Table<'_>,
    buffer: &mut [u32],
    tally: Tally,
    levels: u32,
    block: u32,
    span: Span,
) -> Result<ValueBlockResult, Refused>
    requires { Fit table.words.now tally 8200 block }
    ensures { Met table.entry.words.now block_result (fallthrough_outcome table.entry.words.now levels block span tally.visits) tally 8200 buffer.old result buffer.new }
{
    let head = table.block(block);
    let rows = put_instructions(table, buffer, tally.rows, head.first, head.count);
    let own = Tally { rows, ..tally };
    let init = visit_value_block_terminal(table, buffer, own, levels, block)?;
    let instr = put_instr(buffer, init.tally, init.id, init.place, span);
    let value = visit_value_block(table, buffer, instr, levels, init.block, None, span)?;
    Ok(wrap_with_sequence(buffer, head.count + 1, value))
}

// The value of the value terminal at the end of a block.
#[cycle(walk)]
pub fn visit_value_block_terminal(
    table: Table<'_>,
    buffer: &mut [u32],
    tally: Tally,
    levels: u32,
    block: u32,
) -> Result<ValueBlockResult, Refused>
    requires { Fit table.words.now tally 4 block }
    ensures { Met table.entry.words.now terminal_result (terminal_outcome table.entry.words.now levels block tally.visits) tally 3 buffer.old result buffer.new }
{
    match table.terminal(block) {
        Terminal::Logical(end) => logical_value(table, buffer, tally, levels, block, end),
        Terminal::Ternary(end) => ternary_value(table, buffer, tally, levels, block, end),
        Terminal::Optional(end) => optional_value(table, buffer, tally, levels, block, end),
        Terminal::Label(_) => Err(Refusal::LabelInValueBlock(block).after(tally.visits)),
        Terminal::Sequence(end) => sequence_value(table, buffer, tally, levels, block, end),
        Terminal::MaybeThrow(_) => {
            Err(Refusal::MaybeThrowInValueTerminal(block).after(tally.visits))
        }
        Terminal::Absent
        | Terminal::Unreachable
        | Terminal::Throw(_)
        | Terminal::Return(_)
        | Terminal::Goto(_)
        | Terminal::If(_)
        | Terminal::Branch(_)
        | Terminal::Switch(_)
        | Terminal::DoWhile(_)
        | Terminal::While(_)
        | Terminal::For(_)
        | Terminal::ForOf(_)
        | Terminal::ForIn(_)
        | Terminal::Try(_)
        | Terminal::Scope(_)
        | Terminal::PrunedScope(_) => {
            Err(Refusal::OtherKindInValueBlock(block).after(tally.visits))
        }
    }
}

// A test block's value, and the two ways and the span of the Branch at its end.
#[derive(Clone, Copy, Drop)]
pub struct TestBlockResult {
    pub test: ValueBlockResult,
    pub consequent: u32,
    pub alternate: u32,
    pub branch_span: Span,
}

// The value of the test block of the terminal of `at`. It must end in a Branch.
#[cycle(walk)]
fn visit_test_block(
    table: Table<'_>,
    buffer: &mut [u32],
    tally: Tally,
    levels: u32,
    block: u32,
    span: Span,
    at: u32,
) -> Result<TestBlockResult, Refused>
    requires { Fit table.words.now tally 0 block }
    ensures { TestMet table.entry.words.now (test_outcome table.entry.words.now levels block span tally.visits at) tally buffer.old result buffer.new }
{
    let test = visit_value_block(table, buffer, tally, levels, block, None, span)?;
    let Terminal::Branch(branch) = table.terminal(test.block) else {
        return Err(Refusal::TestNotEndedByBranch(at).after(test.tally.visits));
    };
    Ok(TestBlockResult {
        test,
        consequent: branch.consequent,
        alternate: branch.alternate,
        branch_span: table.span(test.block),
    })
}

// Logical, Ternary and Optional share visit_test_block and visit_value_block. Each is an arm of the Rust's function, with its rows in its own order.
// Logical: the test as an instruction and the consequent make the left side, the alternate the right. The place is the consequent's.
#[cycle(walk)]
fn logical_value(
    table: Table<'_>,
    buffer: &mut [u32],
    tally: Tally,
    levels: u32,
    block: u32,
    terminal: Logical,
) -> Result<ValueBlockResult, Refused>
    requires fit { Fit table.words.now tally 4 block }
    requires ends { Ends table.words.now block (logical terminal.operator terminal.test terminal.fallthrough) }
    ensures { Met table.entry.words.now terminal_result (terminal_outcome table.entry.words.now levels block tally.visits) tally 3 buffer.old result buffer.new }
{
    let head = table.block(block);
    let span = head.span;
    let tested = visit_test_block(table, buffer, tally, levels, terminal.test, span, block)?;
    let test = tested.test;
    let end = Some(terminal.fallthrough);
    let instr = put_instr(buffer, test.tally, test.id, test.place, span);
    let left = visit_value_block(table, buffer, instr, levels, tested.consequent, end, span)?;
    let seq = put_row(buffer, left.tally, Op::Seq, 1, left.id);
    let right = visit_value_block(table, buffer, seq, levels, tested.alternate, end, span)?;
    let logical = put_row(buffer, right.tally, Op::Logical, terminal.operator, 0);
    Ok(ValueBlockResult {
        block: terminal.fallthrough,
        place: left.place,
        id: head.id,
        tally: logical,
        trailing: loading(None),
    })
}

// Ternary: the test, the consequent and the alternate. The place is the consequent's.
#[cycle(walk)]
fn ternary_value(
    table: Table<'_>,
    buffer: &mut [u32],
    tally: Tally,
    levels: u32,
    block: u32,
    terminal: Ternary,
) -> Result<ValueBlockResult, Refused>
    requires fit { Fit table.words.now tally 4 block }
    requires ends { Ends table.words.now block (ternary terminal.test terminal.fallthrough) }
    ensures { Met table.entry.words.now terminal_result (terminal_outcome table.entry.words.now levels block tally.visits) tally 3 buffer.old result buffer.new }
{
    let head = table.block(block);
    let span = head.span;
    let tested = visit_test_block(table, buffer, tally, levels, terminal.test, span, block)?;
    let test = tested.test.tally;
    let end = Some(terminal.fallthrough);
    let consequent = visit_value_block(table, buffer, test, levels, tested.consequent, end, span)?;
    let after = consequent.tally;
    let alternate = visit_value_block(table, buffer, after, levels, tested.alternate, end, span)?;
    let cond = put_row(buffer, alternate.tally, Op::Cond, 0, 0);
    Ok(ValueBlockResult {
        block: terminal.fallthrough,
        place: consequent.place,
        id: head.id,
        tally: cond,
        trailing: loading(None),
    })
}

// Optional: the test as an instruction, with the Branch's span, and then the consequent.
#[cycle(walk)]
fn optional_value(
    table: Table<'_>,
    buffer: &mut [u32],
    tally: Tally,
    levels: u32,
    block: u32,
    terminal: Optional,
) -> Result<ValueBlockResult, Refused>
    requires fit { Fit table.words.now tally 4 block }
    requires ends { Ends table.words.now block (optional terminal.flag terminal.test terminal.fallthrough) }
    ensures { Met table.entry.words.now terminal_result (terminal_outcome table.entry.words.now levels block tally.visits) tally 3 buffer.old result buffer.new }
{
    let head = table.block(block);
    let span = head.span;
    let tested = visit_test_block(table, buffer, tally, levels, terminal.test, span, block)?;
    let test = tested.test;
    let end = Some(terminal.fallthrough);
    let instr = put_instr(buffer, test.tally, test.id, test.place, tested.branch_span);
    let inner = visit_value_block(table, buffer, instr, levels, tested.consequent, end, span)?;
    let seq = put_row(buffer, inner.tally, Op::Seq, 1, inner.id);
    let optional = put_row(buffer, seq, Op::Optional, terminal.flag, 0);
    Ok(ValueBlockResult {
        block: terminal.fallthrough,
        place: inner.place,
        id: head.id,
        tally: optional,
        trailing: loading(None),
    })
}

// Sequence: the value of its block.
#[cycle(walk)]
fn sequence_value(
    table: Table<'_>,
    buffer: &mut [u32],
    tally: Tally,
    levels: u32,
    block: u32,
    terminal: Sequence,
) -> Result<ValueBlockResult, Refused>
    requires fit { Fit table.words.now tally 4 block }
    requires ends { Ends table.words.now block (sequence terminal.block terminal.fallthrough) }
    ensures { Met table.entry.words.now terminal_result (terminal_outcome table.entry.words.now levels block tally.visits) tally 3 buffer.old result buffer.new }
{
    let head = table.block(block);
    let end = Some(terminal.fallthrough);
    let inner = visit_value_block(table, buffer, tally, levels, terminal.block, end, head.span)?;
    Ok(ValueBlockResult {
        block: terminal.fallthrough,
        id: head.id,
        ..inner
    })
}
