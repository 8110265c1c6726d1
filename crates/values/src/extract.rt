// The value of a block's instructions: the last of them, with the others in a sequence before it.
ghost use Rattle.std.specs.Prelude.{◌≡◌, ℕ, ◌+◌, ◌<◌, Ok, IfSome};
ghost use Rattle.table.specs.Words.{block_count, instruction_count, place_count};
ghost use Rattle.table.specs.Columns.{maybe_of};
ghost use Rattle.table.specs.Ending.{operating};
ghost use Rattle.table.specs.Table.{table_of, block_at};
ghost use Rattle.table.specs.Promise.{OperandsInRange};
ghost use Rattle.definition.specs.Value.{is_empty_goto, loaded_by};
ghost use Rattle.values.specs.Refusal.{code_of, place_of};
ghost use Rattle.values.specs.Met.{block_result, Fit, Met, UnnamedStore, Wrappable, Wrapped};
ghost use Rattle.values.specs.Outcome.{run_outcome, extract_outcome, branch_outcome};

use crate::instructions::put_instructions;
use crate::op::Op;
use crate::refusal::{Refusal, Refused};
use crate::result::{Tally, Trailing, ValueBlockResult};
use crate::steps::{loading, put_row};
use table::Table;
use table::columns::Operation;
use table::terminals::Terminal;

// The place that a LoadLocal loads.
fn loaded_by(operation: Operation) -> Option<u32>
    ensures loaded { maybe_of result ≡ loaded_by (operating operation) }
    ensures there { (places : ℕ) → OperandsInRange places (operating operation) → IfSome result (λ p. p < places) }
{
    match operation {
        Operation::LoadLocal { place } => Some(place),
        _ => None,
    }
}

// The place stored to, and the one whose value is stored, by a StoreLocal to an identifier with no name.
fn unnamed_store(table: Table<'_>, operation: Operation) -> Option<(u32, u32)>
    requires { OperandsInRange (place_count table.words.now) (operating operation) }
    ensures { UnnamedStore table.entry.words.now (operating operation) result }
{
    match operation {
        Operation::StoreLocal {
            stored_to,
            stored_value,
        } => {
            let unnamed = !table.is_named(table.identifier(stored_to));
            unnamed.then_some((stored_to, stored_value))
        }
        _ => None,
    }
}

// The value of one instruction, the last of its block. "Last instruction StoreLocal to an unnamed identifier: the value is a LOAD of the place
// whose value is stored (q), and the result's place is the one stored to (p)."
// (`Fit` is of the tally and the block of each call: see value_walk.rt.)
fn final_value(
    table: Table<'_>,
    buffer: &mut [u32],
    tally: Tally,
    i: u32,
    block: u32,
) -> ValueBlockResult
    requires fit { Fit table.words.now tally 1 block }
    requires i_bound { i < instruction_count table.words.now }
    ensures { Met table.entry.words.now block_result (run_outcome table.entry.words.now block i 0 tally.visits) tally 1 buffer.old (Ok result) buffer.new }
{
    let head = table.instruction(i);
    let operation = table.operation(i);
    match unnamed_store(table, operation) {
        Some((stored_to, stored_value)) => {
            let load = put_row(buffer, tally, Op::Load, stored_value, 0);
            ValueBlockResult {
                block,
                place: stored_to,
                id: head.id,
                tally: load,
                trailing: loading(Some(stored_value)),
            }
        }
        None => {
            let plain = put_row(buffer, tally, Op::Plain, i, 0);
            ValueBlockResult {
                block,
                place: head.lvalue,
                id: head.id,
                tally: plain,
                trailing: loading(loaded_by(operation)),
            }
        }
    }
}

// A SEQ row over `count` instructions that stand before a value; nothing where there are none.
pub fn wrap_with_sequence(
    buffer: &mut [u32],
    count: u32,
    value: ValueBlockResult,
) -> ValueBlockResult
    requires { Wrappable count value }
    ensures { Wrapped count value buffer.old result buffer.new }
{
    if count == 0 {
        return value;
    }
    let seq = put_row(buffer, value.tally, Op::Seq, count, value.id);
    let end = value.trailing;
    let trailing = Trailing {
        sequences: end.sequences + 1,
        instructions: end.instructions + count,
        ..end
    };
    ValueBlockResult {
        tally: seq,
        trailing,
        ..value
    }
}

// The value of the instruction `first` and the `more` ones after it: the last, with the others in a sequence before it.
fn extract_value_block_result(
    table: Table<'_>,
    buffer: &mut [u32],
    tally: Tally,
    block: u32,
    first: u32,
    more: u32,
) -> ValueBlockResult
    requires fit { Fit table.words.now tally 8192 block }
    requires more_bound { first + more < instruction_count table.words.now }
    ensures { Met table.entry.words.now block_result (run_outcome table.entry.words.now block first more tally.visits) tally 8192 buffer.old (Ok result) buffer.new }
{
    let rows = put_instructions(table, buffer, tally.rows, first, more);
    let after = Tally { rows, ..tally };
    let value = final_value(table, buffer, after, first + more, block);
    wrap_with_sequence(buffer, more, value)
}

// The value of the instructions of `block`; the refusal where it has none. The result's block is `ends_in`.
#[inline(always)]
pub(crate) fn extract_or_refuse(
    table: Table<'_>,
    buffer: &mut [u32],
    tally: Tally,
    block: u32,
    ends_in: u32,
    refusal: Refusal,
) -> Result<ValueBlockResult, Refused>
    requires fit { Fit table.words.now tally 8192 block }
    requires ends_in_bound { ends_in < block_count table.words.now }
    ensures { Met table.entry.words.now block_result (extract_outcome table.entry.words.now block ends_in (code_of refusal) (place_of refusal) tally.visits) tally 8192 buffer.old result buffer.new }
{
    let head = table.block(block);
    if head.count == 0 {
        return Err(Refused {
            refusal,
            visits: tally.visits,
        });
    }
    let more = head.count - 1;
    Ok(extract_value_block_result(table, buffer, tally, ends_in, head.first, more))
}

// A Branch on `test`: its last instruction, or a LOAD of the test where it has none.
#[inline(always)]
pub fn branch_value(
    table: Table<'_>,
    buffer: &mut [u32],
    tally: Tally,
    block: u32,
    test: u32,
) -> ValueBlockResult
    requires fit { Fit table.words.now tally 8192 block }
    requires test_bound { test < place_count table.words.now }
    ensures { Met table.entry.words.now block_result (branch_outcome table.entry.words.now block test tally.visits) tally 8192 buffer.old (Ok result) buffer.new }
{
    let head = table.block(block);
    if head.count == 0 {
        let load = put_row(buffer, tally, Op::Load, test, 0);
        return ValueBlockResult {
            block,
            place: test,
            id: head.id,
            tally: load,
            trailing: loading(Some(test)),
        };
    }
    extract_value_block_result(table, buffer, tally, block, head.first, head.count - 1)
}

// Whether a block is a Goto with no instruction.
pub fn is_empty_goto(table: Table<'_>, block: u32) -> bool
    requires block_bound { block < block_count table.words.now }
    ensures { result ≡ is_empty_goto (block_at (table_of table.entry.words.now) block) }
{
    table.block(block).count == 0 && matches!(table.terminal(block), Terminal::Goto(_))
}
