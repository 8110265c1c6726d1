// What the conditions ask of a Switch's cases.
ghost use Rattle.std.specs.Prelude.{◌≡◌, ℕ, ◌+◌, ◌≤◌, ◌<◌, Bool};
ghost use Rattle.table.specs.Words.{case_count};
ghost use Rattle.table.specs.Table.{table_of, switch};
ghost use Rattle.table.specs.Promise.{Ends};
ghost use Rattle.definition.specs.BlockRun.{case_list};
ghost use Rattle.definition.specs.Completion.{contains};
ghost use Rattle.definition.specs.Statement.{cases_last_first};
ghost use Rattle.definition.specs.Plain.{blocks_of, different};
ghost use Rattle.definition.specs.PlainLoops.{drop_own};
ghost use Rattle.definition.specs.PlainTest.{all_of, last_is_own};
ghost use Rattle.plain.specs.Asked.{AnswersCase};

use table::Table;
use table::terminals::Switch;

// Rows of the table: `number` from `first` on.
#[derive(Clone, Copy)]
pub struct Cases<'a> {
    pub table: Table<'a>,
    pub first: u32,
    pub number: u32,
    pub ghost there: { first + number ≤ case_count table.words.now },
}

impl<'a> Cases<'a> {
    fn have(self, block: u32) -> bool
        ensures { result ≡ contains (blocks_of (case_list (table_of self.entry.table.words.now) self.entry.first self.entry.number)) block }
    {
        let end = self.first + self.number;
        (self.first..end).any(|row| self.table.case(row).block == block)
    }

    pub fn differ(self) -> bool
        ensures { result ≡ different (blocks_of (case_list (table_of self.entry.table.words.now) self.entry.first self.entry.number)) }
    {
        let end = self.first + self.number;
        (self.first..end).all(
            |row|
                requires row_bound { row < end }
                requires end_bound { end ≤ case_count self.table.words.now }
            {
                let next = row + 1;
                let rest = Cases {
                    table: self.table,
                    first: next,
                    number: end - next,
                };
                !rest.have(self.table.case(row).block)
            },
        )
    }

    // Whether a test holds of every case's block.
    pub fn all<F: Fn(u32) -> bool>(self, test: F) -> bool
        requires { F.IsAlwaysCallable test }
        ensures { (p : ℕ → Bool) → AnswersCase (F.post test) p → result ≡ all_of (blocks_of (case_list (table_of self.entry.table.words.now) self.entry.first self.entry.number)) p }
    {
        let end = self.first + self.number;
        (self.first..end).all(
            |row|
                requires row_bound { row < case_count self.table.words.now }
                requires callable { F.IsAlwaysCallable test }
            { test(self.table.case(row).block) },
        )
    }

    // Whether the last is the Switch's own fallthrough.
    pub fn last_is(self, fallthrough: u32) -> bool
        ensures { result ≡ last_is_own fallthrough (cases_last_first (table_of self.entry.table.words.now) self.entry.first self.entry.number) }
    {
        self.number > 0 && self.table.case(self.first + (self.number - 1)).block == fallthrough
    }

    // How many are left without those at the end that are the Switch's own fallthrough.
    fn proper_count(self, fallthrough: u32) -> u32
        ensures upper_bound { result ≤ self.entry.number }
        ensures number_value { drop_own fallthrough (cases_last_first (table_of self.entry.table.words.now) self.entry.first self.entry.number) ≡ cases_last_first (table_of self.entry.table.words.now) self.entry.first result }
    {
        // No `for`, and no `take_while` from the end: what is counted down is the answer, and a chain would count the others and subtract.
        let mut left = self.number;
        while left > 0 && self.table.case(self.first + (left - 1)).block == fallthrough {
            left -= 1;
        }
        left
    }

    // Those that are left.
    pub fn proper(self, fallthrough: u32) -> Cases<'a>
        ensures same { (result.table.words.now ≡ self.entry.table.words.now) × (result.first ≡ self.entry.first) }
        ensures number_value { drop_own fallthrough (cases_last_first (table_of self.entry.table.words.now) self.entry.first self.entry.number) ≡ cases_last_first (table_of self.entry.table.words.now) self.entry.first result.number }
    {
        Cases {
            table: self.table,
            first: self.first,
            number: self.proper_count(fallthrough),
        }
    }
}

// A Switch's.
// (Five functions ask for the block's `Ends`: a struct of table, block and terminal would be built at each block and taken apart in each test.)
pub fn cases_of(table: Table<'_>, block: u32, end: Switch) -> Cases<'_>
    requires { Ends table.words.now block (switch end.test end.first end.number end.fallthrough) }
    ensures { (result.table.words.now ≡ table.entry.words.now) × (result.first ≡ end.first) × (result.number ≡ end.number) }
{
    Cases {
        table,
        first: end.first,
        number: end.number,
    }
}
