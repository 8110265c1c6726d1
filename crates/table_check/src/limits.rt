// A word fits where it is below its column's limit: `limit` in table/specs/Answer.antt says which limit a rule of the paper is.
ghost use Rattle.std.specs.Prelude.{◌≡◌, suc, ◌-◌, ◌≤◌};
ghost use Rattle.table.specs.Check.{row_or_none, end_of};
ghost use Rattle.table.specs.Answer.{limit};

// Any row word may be below this.
pub const ANY: u32 = 65536;

// Only 0 is below this.
pub const UNUSED: u32 = 1;

// Whether or not.
pub const FLAG: u32 = 2;

// One of three.
pub const CHOICE: u32 = 3;

// The limit of a word that names one of `rows` rows, or none.
pub fn row_or_none(rows: u32, word: u32) -> u32
    ensures { result ≡ limit (row_or_none rows) word }
{
    if word == 65535 { ANY } else { rows }
}

// The limit of a number of rows from `first` on, in a table of `rows` rows.
pub fn rows_from(first: u32, rows: u32) -> u32
    requires { rows ≤ 4096 }
    ensures { result ≡ suc rows - first }
{
    if first <= rows { rows - first + 1 } else { 0 }
}

// The limit of the end of a span that begins here: no word below `from` is good.
pub fn end_of(from: u32, word: u32) -> u32
    ensures { result ≡ limit (end_of from) word }
{
    if from <= word { ANY } else { 0 }
}
