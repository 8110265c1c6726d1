// The rows of a table one after the other, and the words of a row: up to the first bad one.
ghost use Rattle.std.specs.Prelude.{◌≡◌, ℕ, ◌+◌, ◌*◌, ◌<◌, ◌≤◌, List, length, Some};
ghost use Rattle.table.specs.Check.{Rule, rows_verdict};
ghost use Rattle.table.specs.Answer.{verdict_of};
ghost use Rattle.table_check.specs.FoundBlocks.{first_not_below, Reads, Finds};

use table::Refusal;

// The first column, from `first` on, whose word is not below its limit.
pub fn first_not_below<F: Fn(u32) -> u32>(word: F, first: u32, limits: &[u32]) -> Option<u32>
    requires callable { (column : ℕ) → column < first + length limits.now → F.pre word column }
    requires few { first + length limits.now ≤ 65536 }
    ensures { (words : ℕ → ℕ) → Reads (F.post word) (first + length limits.now) words → result ≡ first_not_below words first limits.now }
{
    for (i, below) in limits.iter().enumerate() {
        let column = first + i as u32;
        if word(column) >= *below {
            return Some(column);
        }
    }
    None
}

// The rows of a table from the word `begin` on, up to the first that has a bad column.
pub fn check_rows<F: Fn(u32) -> Option<u32>>(
    begin: u32,
    width: u32,
    rows: u32,
    bad_column: F,
) -> Result<(), Refusal>
    requires callable { (row : ℕ) → row < rows → F.pre bad_column row }
    requires within { (row column : ℕ) → row < rows → F.post bad_column row (Some column) → column < width }
    requires few { begin + rows * width ≤ 65536 }
    ensures { (ws : List ℕ) (rules : ℕ → List Rule) → Finds (F.post bad_column) ws begin width rows rules → verdict_of result ≡ rows_verdict ws rules begin 0 rows }
{
    for row in 0..rows {
        if let Some(column) = bad_column(row) {
            return Err(Refusal::BadWord(begin + row * width + column));
        }
    }
    Ok(())
}
