// What the conditions ask of every block, and of some block.
ghost use Rattle.std.specs.Prelude.{◌≡◌, ℕ, Bool};
ghost use Rattle.table.specs.Table as paper;
ghost use Rattle.table.specs.Table.{table_of};
ghost use Rattle.definition.specs.PlainTest.{every_of, some_of, only_of, shape_of, is_while};
ghost use Rattle.plain.specs.Asked.{Answers};

use crate::facts::{falls_to, is_while, terminal_or_absent};
use table::Table;
use table::terminals::Terminal;

// Whether a test holds of every block: of its number and its terminal. `Answers` says which test of the definition's it is.
pub fn every_block<F: Fn(u32, Terminal) -> bool>(table: Table<'_>, test: F) -> bool
    requires { F.IsAlwaysCallable test }
    ensures { (p : ℕ → paper.Terminal → Bool) → Answers (F.post test) (table_of table.entry.words.now) p → result ≡ every_of (table_of table.entry.words.now).blocks p }
{
    (0..table.block_count()).all(|block| test(block, terminal_or_absent(table, block)))
}

// The block's fallthrough is no other block's.
pub fn only_of(table: Table<'_>, block: u32, fallthrough: u32) -> bool
    ensures { result ≡ only_of (table_of table.entry.words.now) block fallthrough }
{
    every_block(table, |other, end| {
        block == other || !falls_to(end, fallthrough)
    })
}

pub fn some_while(table: Table<'_>, test: u32, body: u32, fallthrough: u32) -> bool
    ensures { result ≡ some_of (table_of table.entry.words.now).blocks (λ w m. is_while test body fallthrough (shape_of m)) }
{
    (0..table.block_count()).any(|block| {
        let end = terminal_or_absent(table, block);
        is_while(end, test, body, fallthrough)
    })
}
