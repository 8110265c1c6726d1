// M-111: a table's blocks in walking order, and the inverse.
#![tactic(auto)]

mod block_walk;
pub mod file;
mod list;
mod write;

ghost use Rattle.std.specs.Prelude.{◌≡◌, length};
ghost use Rattle.table.specs.Words.{block_count};
ghost use Rattle.table.specs.Table.{table_of};
ghost use Rattle.renaming.specs.Order.{walking_order, rearranged, rearrangement, restoration};
ghost use Rattle.order.specs.Entry.{code_of, place_of, rearranging, restoring, rearranged_or_cleared, restored_or_cleared};
ghost use Rattle.order.specs.declared.OrderError.TheVariants.{Table};

use crate::block_walk::walking_order;
use crate::list::{is_permutation, new_numbers};
use crate::write::write_table;
use table::{Refusal, Table};
use table_check::check;
use text::placed::{Coded, tell_code};

// Why blocks are not moved. `code_of` and `place_of` in specs/Entry.antt have the papers' numbers.
#[derive(Clone, Copy, Debug, PartialEq, Eq)]
pub enum OrderError {
    // The words are no table.
    Table(Refusal),
    // "an output's length isn't just the one needed"
    WrongLength,
    // "the list isn't a permutation of the block numbers", of the inverse alone
    NotAPermutation,
}

impl From<Refusal> for OrderError {
    ghost from_gives = { λ refusal error. error ≡ Table refusal };

    fn from(refusal: Refusal) -> OrderError {
        OrderError::Table(refusal)
    }
}

impl Coded for OrderError {
    ghost code_of = { code_of };

    ghost place_of = { place_of };

    fn code(self) -> u32 {
        match self {
            OrderError::Table(refusal) => refusal.code(),
            OrderError::WrongLength => 45,
            OrderError::NotAPermutation => 46,
        }
    }

    fn place(self) -> u32 {
        match self {
            OrderError::Table(refusal) => refusal.place(),
            OrderError::WrongLength | OrderError::NotAPermutation => 0,
        }
    }
}

// Writes the table with its blocks in the order of this list. Not inlined: the walk's queue and the new numbers need the stack one after the other.
#[inline(never)]
fn write_rearranged(table: Table<'_>, old_numbers: &[u32], new_words: &mut [u32])
    requires walked { old_numbers.now ≡ walking_order (table_of table.words.now) }
    requires new_words_len { length new_words.old ≡ length table.words.now }
    ensures { new_words.new ≡ rearranged table.entry.words.now }
{
    let mut new = [0; 1024];
    new_numbers(old_numbers, &mut new);
    write_table(table, &new[..old_numbers.len()], old_numbers, new_words);
}

// Of a checked table, and outputs of the lengths needed.
// (Each that lends the new words on asks for their length: a struct of them and the table would be built here and taken apart in `write_table`.)
fn rearrange_checked(table: Table<'_>, new_words: &mut [u32], old_numbers: &mut [u32])
    requires new_words_len { length new_words.old ≡ length table.words.now }
    requires old_numbers_len { length old_numbers.old ≡ block_count table.words.now }
    ensures new_words_after { new_words.new ≡ rearranged table.entry.words.now }
    ensures old_numbers_after { old_numbers.new ≡ walking_order (table_of table.entry.words.now) }
{
    walking_order(table, old_numbers);
    write_rearranged(table, old_numbers, new_words);
}

// An error leaves the outputs to be cleared.
fn try_rearrange(
    words: &[u32],
    new_words: &mut [u32],
    old_numbers: &mut [u32],
) -> Result<(), OrderError>
    ensures { rearranged_or_cleared result new_words.new old_numbers.new ≡ rearrangement words.now (length new_words.old) (length old_numbers.old) }
{
    let table = check(words)?;
    if new_words.len() != words.len() || old_numbers.len() != table.block_count() as usize {
        return Err(OrderError::WrongLength);
    }
    rearrange_checked(table, new_words, old_numbers);
    Ok(())
}

// Puts any words' blocks in walking order, into lent buffers of any length. "A refusal leaves zeros in every output."
pub fn rearrange(
    words: &[u32],
    new_words: &mut [u32],
    old_numbers: &mut [u32],
) -> Result<(), OrderError>
    ensures { rearranging result new_words.new old_numbers.new ≡ rearrangement words.now (length new_words.old) (length old_numbers.old) }
{
    let result = try_rearrange(words, new_words, old_numbers);
    if result.is_err() {
        new_words.fill(0);
        old_numbers.fill(0);
    }
    result
}

fn try_restore(
    words: &[u32],
    old_numbers: &[u32],
    first_words: &mut [u32],
) -> Result<(), OrderError>
    ensures { restored_or_cleared result first_words.new ≡ restoration words.now old_numbers.now (length first_words.old) }
{
    let table = check(words)?;
    if first_words.len() != words.len() {
        return Err(OrderError::WrongLength);
    }
    if !is_permutation(old_numbers, table.block_count()) {
        return Err(OrderError::NotAPermutation);
    }
    let mut new = [0; 1024];
    new_numbers(old_numbers, &mut new);
    write_table(table, old_numbers, &new[..old_numbers.len()], first_words);
    Ok(())
}

// The inverse, for any words, any list and a lent buffer of any length.
pub fn restore(
    words: &[u32],
    old_numbers: &[u32],
    first_words: &mut [u32],
) -> Result<(), OrderError>
    ensures { restoring result first_words.new ≡ restoration words.now old_numbers.now (length first_words.old) }
{
    let result = try_restore(words, old_numbers, first_words);
    if result.is_err() {
        first_words.fill(0);
    }
    result
}

// The same for callers in C or Rust: the code, and the place by reference.
pub fn blocks_rearrange(
    words: &[u32],
    new_words: &mut [u32],
    old_numbers: &mut [u32],
    at: &mut u32,
) -> u32
    ensures { record { code = result; at = at.new; table = new_words.new; list = old_numbers.new } ≡ rearrangement words.now (length new_words.old) (length old_numbers.old) }
{
    tell_code(rearrange(words, new_words, old_numbers), at)
}

pub fn blocks_restore(
    words: &[u32],
    old_numbers: &[u32],
    first_words: &mut [u32],
    at: &mut u32,
) -> u32
    ensures { record { code = result; at = at.new; table = first_words.new } ≡ restoration words.now old_numbers.now (length first_words.old) }
{
    tell_code(restore(words, old_numbers, first_words), at)
}
