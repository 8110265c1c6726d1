// Which of the laws speaks of a table.
ghost use Rattle.std.specs.Prelude.{◌≡◌};
ghost use Rattle.table.specs.Table.{table_of};
ghost use Rattle.definition.specs.PlainTest.{plainness};
ghost use Rattle.plain.specs.Laws.{number_of, maybe_number};

use crate::loops::is_plain_loops;
use crate::tests::{is_plain, paper_code, switch_code};
use table::Table;

// Paper 01's, M-113's, or the one beyond the papers.
#[derive(Clone, Copy, Debug, PartialEq, Eq)]
pub enum Law {
    Paper01 = 1,
    Switches = 2,
    Loops = 3,
}

impl Law {
    pub fn number(self) -> u32
        ensures { result ≡ number_of self }
    {
        self as u32
    }
}

// The first law that speaks of the table.
pub fn law_of(table: Table<'_>) -> Option<Law>
    ensures { maybe_number result ≡ plainness (table_of table.entry.words.now) }
{
    if is_plain(table, paper_code) {
        Some(Law::Paper01)
    } else if is_plain(table, switch_code) {
        Some(Law::Switches)
    } else if is_plain_loops(table) {
        Some(Law::Loops)
    } else {
        None
    }
}
