// The rows of the other four tables: the first bad word of each.
ghost use Rattle.std.specs.Prelude.{◌≡◌, ◌<◌};
ghost use Rattle.table.specs.Words.{instruction_count, case_count, place_count, identifier_count};
ghost use Rattle.table.specs.Words.{instructions_begin, cases_begin, places_begin, identifiers_begin, instruction_word, case_word, place_word, identifier_word};
ghost use Rattle.table.specs.Check.{operand_rules, instruction_rules, case_rules, place_rules, identifier_rules, rows_verdict};
ghost use Rattle.table.specs.Answer.{verdict_of};
ghost use Rattle.table_check.specs.FoundBlocks.{first_bad, first_not_below};
ghost use Rattle.table_check.specs.Found.{two};

use crate::limits::{ANY, FLAG, UNUSED, end_of, row_or_none};
use crate::rows::{check_rows, first_not_below};
use table::Refusal;
use table::words::{
    Words, block_count, case_count, cases_begin, identifier_count, identifiers_begin,
    instruction_count, instructions_begin, place_count, places_begin,
};

// The first of p and q that is not below its limit.
fn operands(words: Words<'_>, row: u32, limits: [u32; 2]) -> Option<u32>
    requires { row < instruction_count words.words.now }
    ensures { result ≡ first_not_below (instruction_word words.entry.words.now row) 3 limits }
{
    first_not_below(|column| words.instruction_word(row, column), 3, &limits)
}

// The same, with the limits of the instruction's code.
// Over numbers, as in blocks.rt.
fn operand_columns(words: Words<'_>, row: u32, code: u32) -> Option<u32>
    requires { row < instruction_count words.words.now }
    ensures { result ≡ first_bad (instruction_word words.entry.words.now row) 3 (two (operand_rules words.entry.words.now code)) }
{
    let places = place_count(words.words);
    match code {
        0 => operands(words, row, [UNUSED; 2]), // other
        1 => operands(words, row, [places, UNUSED]), // LoadLocal
        2 => operands(words, row, [places; 2]), // StoreLocal
        _ => operands(words, row, [UNUSED; 2]),
    }
}

// The first bad column of an instruction.
fn instruction_row(words: Words<'_>, row: u32) -> Option<u32>
    requires { row < instruction_count words.words.now }
    ensures { result ≡ first_bad (instruction_word words.entry.words.now row) 0 (instruction_rules words.entry.words.now row) }
{
    if words.instruction_word(row, 0) >= ANY {
        return Some(0);
    }
    if words.instruction_word(row, 1) >= place_count(words.words) {
        return Some(1);
    }
    let code = words.instruction_word(row, 2);
    if code >= 3 {
        return Some(2);
    }
    if let Some(column) = operand_columns(words, row, code) {
        return Some(column);
    }
    let from = words.instruction_word(row, 5);
    if from >= ANY {
        return Some(5);
    }
    let to = words.instruction_word(row, 6);
    if to >= end_of(from, to) {
        return Some(6);
    }
    None
}

// The first bad column of a case.
fn case_row(words: Words<'_>, row: u32) -> Option<u32>
    requires { row < case_count words.words.now }
    ensures { result ≡ first_bad (case_word words.entry.words.now row) 0 (case_rules words.entry.words.now row) }
{
    let test = words.case_word(row, 0);
    if test >= row_or_none(place_count(words.words), test) {
        return Some(0);
    }
    if words.case_word(row, 1) >= block_count(words.words) {
        return Some(1);
    }
    None
}

// The first bad column of a place, which has one.
fn place_row(words: Words<'_>, row: u32) -> Option<u32>
    requires { row < place_count words.words.now }
    ensures { result ≡ first_bad (λ _. place_word words.entry.words.now row) 0 (place_rules words.entry.words.now row) }
{
    if words.place_word(row) >= identifier_count(words.words) {
        return Some(0);
    }
    None
}

// The first bad column of an identifier, which has one.
fn identifier_row(words: Words<'_>, row: u32) -> Option<u32>
    requires { row < identifier_count words.words.now }
    ensures { result ≡ first_bad (λ _. identifier_word words.entry.words.now row) 0 (identifier_rules words.entry.words.now row) }
{
    if words.identifier_word(row) >= FLAG {
        return Some(0);
    }
    None
}

// A function for each table: they differ in what `check_rows` takes, and each contract names its own rules.
pub fn check_instructions(words: Words<'_>) -> Result<(), Refusal>
    ensures { verdict_of result ≡ rows_verdict words.entry.words.now (instruction_rules words.entry.words.now) (instructions_begin words.entry.words.now) 0 (instruction_count words.entry.words.now) }
{
    let begin = instructions_begin(words.words);
    check_rows(begin, 7, instruction_count(words.words), |row| {
        instruction_row(words, row)
    })
}

pub fn check_cases(words: Words<'_>) -> Result<(), Refusal>
    ensures { verdict_of result ≡ rows_verdict words.entry.words.now (case_rules words.entry.words.now) (cases_begin words.entry.words.now) 0 (case_count words.entry.words.now) }
{
    let begin = cases_begin(words.words);
    check_rows(
        begin,
        2,
        case_count(words.words),
        |row| case_row(words, row),
    )
}

pub fn check_places(words: Words<'_>) -> Result<(), Refusal>
    ensures { verdict_of result ≡ rows_verdict words.entry.words.now (place_rules words.entry.words.now) (places_begin words.entry.words.now) 0 (place_count words.entry.words.now) }
{
    let begin = places_begin(words.words);
    check_rows(begin, 1, place_count(words.words), |row| {
        place_row(words, row)
    })
}

pub fn check_identifiers(words: Words<'_>) -> Result<(), Refusal>
    ensures { verdict_of result ≡ rows_verdict words.entry.words.now (identifier_rules words.entry.words.now) (identifiers_begin words.entry.words.now) 0 (identifier_count words.entry.words.now) }
{
    let begin = identifiers_begin(words.words);
    check_rows(begin, 1, identifier_count(words.words), |row| {
        identifier_row(words, row)
    })
}
