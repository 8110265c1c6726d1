// The rows of the table of blocks, the widest of the five: the first bad word.
ghost use Rattle.std.specs.Prelude.{◌≡◌, ◌<◌, replicate};
ghost use Rattle.table.specs.Words.{block_count, blocks_begin, block_word};
ghost use Rattle.table.specs.Check.{unused, terminal_rules, block_rules, rows_verdict};
ghost use Rattle.table.specs.Answer.{verdict_of, five};
ghost use Rattle.table_check.specs.FoundBlocks.{first_bad, first_not_below};

use crate::limits::{ANY, CHOICE, FLAG, UNUSED, end_of, row_or_none, rows_from};
use crate::rows::{check_rows, first_not_below};
use table::Refusal;
use table::words::{Words, block_count, case_count, instruction_count, place_count};

// The first column of a row with code 0 that is not 0.
fn absent_row(words: Words<'_>, row: u32) -> Option<u32>
    requires { row < block_count words.words.now }
    ensures { result ≡ first_bad (block_word words.entry.words.now row) 0 (replicate 11 unused) }
{
    first_not_below(|column| words.block_word(row, column), 0, &[UNUSED; 11])
}

// The first of the columns a to e that is not below its limit.
// (`other_tables::operands` is the same over an instruction's words: the two readers are two functions, and so the contracts.)
fn columns(words: Words<'_>, row: u32, limits: [u32; 5]) -> Option<u32>
    requires { row < block_count words.words.now }
    ensures { result ≡ first_not_below (block_word words.entry.words.now row) 3 limits }
{
    first_not_below(|column| words.block_word(row, column), 3, &limits)
}

// The same, with the limits of the block's code. `block_row` asks for the codes 1 to 21 alone: it has answered before where the code is 0 or 22
// and more. The arms `0` and `_` have the definition's limits for those.
fn terminal_columns(words: Words<'_>, row: u32, code: u32) -> Option<u32>
    requires { row < block_count words.words.now }
    ensures { result ≡ first_bad (block_word words.entry.words.now row) 3 (five (terminal_rules words.entry.words.now code (block_word words.entry.words.now row 4))) }
{
    let blocks = block_count(words.words);
    let places = place_count(words.words);
    let update = row_or_none(blocks, words.block_word(row, 5));
    let binding = row_or_none(places, words.block_word(row, 6));
    let cases = rows_from(words.block_word(row, 4), case_count(words.words));
    match code {
        0 => columns(words, row, [UNUSED; 5]), // no such block
        1 => columns(words, row, [UNUSED; 5]), // Unreachable
        2 => columns(words, row, [places, UNUSED, UNUSED, UNUSED, UNUSED]), // Throw
        3 => columns(words, row, [places, UNUSED, UNUSED, UNUSED, UNUSED]), // Return
        4 => columns(words, row, [blocks, CHOICE, UNUSED, UNUSED, UNUSED]), // Goto
        5 => columns(words, row, [places, blocks, blocks, blocks, UNUSED]), // If
        6 => columns(words, row, [places, blocks, blocks, UNUSED, UNUSED]), // Branch
        7 => columns(words, row, [places, ANY, cases, blocks, UNUSED]), // Switch
        8 => columns(words, row, [blocks, blocks, blocks, UNUSED, UNUSED]), // DoWhile
        9 => columns(words, row, [blocks, blocks, blocks, UNUSED, UNUSED]), // While
        10 => columns(words, row, [blocks, blocks, update, blocks, blocks]), // For
        11 => columns(words, row, [blocks, blocks, blocks, blocks, UNUSED]), // ForOf
        12 => columns(words, row, [blocks, blocks, blocks, UNUSED, UNUSED]), // ForIn
        13 => columns(words, row, [CHOICE, blocks, blocks, UNUSED, UNUSED]), // Logical
        14 => columns(words, row, [blocks, blocks, UNUSED, UNUSED, UNUSED]), // Ternary
        15 => columns(words, row, [FLAG, blocks, blocks, UNUSED, UNUSED]), // Optional
        16 => columns(words, row, [blocks, blocks, UNUSED, UNUSED, UNUSED]), // Label
        17 => columns(words, row, [blocks, blocks, UNUSED, UNUSED, UNUSED]), // Sequence
        18 => columns(words, row, [blocks, UNUSED, UNUSED, UNUSED, UNUSED]), // MaybeThrow
        19 => columns(words, row, [blocks, blocks, blocks, binding, UNUSED]), // Try
        20 => columns(words, row, [blocks, blocks, ANY, UNUSED, UNUSED]), // Scope
        21 => columns(words, row, [blocks, blocks, ANY, UNUSED, UNUSED]), // PrunedScope
        _ => columns(words, row, [UNUSED; 5]),
    }
}

// The first bad column of a block.
fn block_row(words: Words<'_>, row: u32) -> Option<u32>
    requires { row < block_count words.words.now }
    ensures { result ≡ first_bad (block_word words.entry.words.now row) 0 (block_rules words.entry.words.now row) }
{
    let code = words.block_word(row, 2);
    if code == 0 {
        return absent_row(words, row);
    }
    let first = words.block_word(row, 0);
    if first >= ANY {
        return Some(0);
    }
    let most = rows_from(first, instruction_count(words.words));
    if words.block_word(row, 1) >= most {
        return Some(1);
    }
    if code >= 22 {
        return Some(2);
    }
    if let Some(column) = terminal_columns(words, row, code) {
        return Some(column);
    }
    if words.block_word(row, 8) >= ANY {
        return Some(8);
    }
    let from = words.block_word(row, 9);
    if from >= ANY {
        return Some(9);
    }
    let to = words.block_word(row, 10);
    if to >= end_of(from, to) {
        return Some(10);
    }
    None
}

pub fn check_blocks(words: Words<'_>) -> Result<(), Refusal>
    ensures { verdict_of result ≡ rows_verdict words.entry.words.now (block_rules words.entry.words.now) blocks_begin 0 (block_count words.entry.words.now) }
{
    check_rows(6, 11, block_count(words.words), |row| {
        block_row(words, row)
    })
}
