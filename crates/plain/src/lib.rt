// Which run law speaks of a table: paper 01's, M-113's, or the one with loops.
#![tactic(auto)]

mod asked;
mod cases;
mod facts;
mod laws;
mod loops;
mod tail;
mod tests;

ghost use Rattle.std.specs.Prelude.{◌≡◌};
ghost use Rattle.table.specs.Check.{checked};
ghost use Rattle.table.specs.Answer.{code_of, place_of};
ghost use Rattle.definition.specs.PlainTest.{plainness};
ghost use Rattle.table.specs.Table.{table_of};
ghost use Rattle.plain.specs.Plainness.{plainness_of};

use crate::laws::law_of;
use table::Table;
use table_check::check;

// The law's number; 0 where none speaks of the table.
fn plainness(table: Table<'_>) -> u32
    ensures { result ≡ plainness (table_of table.entry.words.now) }
{
    law_of(table).map_or(0, |law| law.number())
}

// For callers in C or Rust: the check's code; its place is left in `at`, the law's number in `number`.
// (Written out, as `table_check`'s.)
#[tactic(auto, unfolding(crate::specs::Plainness::plainness_of))]
pub fn table_plain(words: &[u32], at: &mut u32, number: &mut u32) -> u32
    ensures value { (result ≡ code_of (checked words.now)) × (at.new ≡ place_of (checked words.now)) }
    ensures number_after { number.new ≡ plainness_of words.now }
{
    match check(words) {
        Ok(table) => {
            *at = 0;
            *number = plainness(table);
            0
        }
        Err(refusal) => {
            *at = refusal.place();
            *number = 0;
            refusal.code()
        }
    }
}
