// Refusals 1 to 4 of paper 01.
#![tactic(auto)]

mod blocks;
pub mod limits;
mod other_tables;
mod rows;

ghost use Rattle.std.specs.Prelude.{◌≡◌, ◌≤◌, length, IfOk};
ghost use Rattle.table.specs.Check.{checked, limits, counts_verdict, words_verdict};
ghost use Rattle.table.specs.Answer.{verdict_of, code_of, place_of};

use crate::blocks::check_blocks;
use crate::other_tables::{check_cases, check_identifiers, check_instructions, check_places};
use table::words::{Words, block_count, entry, words_needed};
use table::{Refusal, Table};

// How many rows each table may have, in the order of the head's words.
const LIMITS: [u32; 5] = [1024, 4096, 1024, 4096, 4096];

// The counts, up to the first over its limit.
fn check_counts(words: &[u32]) -> Result<(), Refusal>
    requires { 6 ≤ length words.now }
    ensures { verdict_of result ≡ counts_verdict words.now 1 limits }
{
    for (i, most) in LIMITS.iter().enumerate() {
        if words[1 + i] > *most {
            return Err(Refusal::CountOverLimit(1 + i as u32));
        }
    }
    Ok(())
}

// The tables in their order, up to the first that has a bad word.
#[tactic(auto, using(crate::proofs::CheckLaws::goes_on, crate::proofs::CheckLaws::stops), unfolding(table::specs::Check::words_verdict))]
fn check_tables(words: Words<'_>) -> Result<(), Refusal>
    ensures { verdict_of result ≡ words_verdict words.entry.words.now }
{
    check_blocks(words)?;
    check_instructions(words)?;
    check_cases(words)?;
    check_places(words)?;
    check_identifiers(words)
}

// Any words as a table that the walk can take, or the first of the refusals in paper 01's order.
pub fn check(words: &[u32]) -> Result<Table<'_>, Refusal>
    ensures verdict { verdict_of result ≡ checked words.now }
    ensures same { IfOk result (λ table. table.words.now ≡ words.now) }
{
    if words.len() < 6 {
        return Err(Refusal::WrongLength);
    }
    check_counts(words)?;
    let needed = words_needed(words) as usize;
    if words.len() != needed {
        return Err(Refusal::WrongLength);
    }
    if entry(words) >= block_count(words) {
        return Err(Refusal::EntryOutOfRange);
    }
    check_tables(Words { words })?;
    Ok(Table { words })
}

// The check for callers in C or Rust: paper 01's code; its place is left in `at`. It is written out: `tell_code` is in `text`, and this crate
// depends on `table` alone.
pub fn table_check(words: &[u32], at: &mut u32) -> u32
    ensures { (result ≡ code_of (checked words.now)) × (at.new ≡ place_of (checked words.now)) }
{
    match check(words) {
        Ok(_) => {
            *at = 0;
            0
        }
        Err(refusal) => {
            *at = refusal.place();
            refusal.code()
        }
    }
}
