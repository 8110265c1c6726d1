// The words of a renamed table, from the first to the last.
ghost use Rattle.std.specs.Prelude.{◌≡◌, [], ◌∷◌, true, false, ◌*◌, ◌/◌, ◌<◌, length};
ghost use Rattle.table.specs.Words.{block_count};
ghost use Rattle.table.specs.Table.{code_of};
ghost use Rattle.table.specs.Ending.{ending};
ghost use Rattle.renaming.specs.Renaming.{renamed_if, renamed_block_row};
ghost use Rattle.order.specs.Write.{number_in, columns_of, renumbered, Numbering, BlockRows, CaseRows};

use table::Table;
use table::terminals::Terminal;
use table::words::{cases_begin, instructions_begin, places_begin};

// A row's columns: the first three, a to e, and the last three.
// (So that an arm of `named_columns` has the five that can differ.)
fn columns(a: bool, b: bool, c: bool, d: bool, e: bool) -> [bool; 11]
    ensures { result ≡ false ∷ false ∷ false ∷ a ∷ b ∷ c ∷ d ∷ e ∷ false ∷ false ∷ false ∷ [] }
{
    [false, false, false, a, b, c, d, e, false, false, false]
}

// Which columns of a block's row name a block: an arm for each list of them.
#[tactic(auto, unfolding(crate::specs::Write::columns_of, renaming::specs::Renaming::names_block))]
fn named_columns(end: Terminal) -> [bool; 11]
    ensures { result ≡ columns_of (code_of (ending end)) }
{
    match end {
        Terminal::Absent | Terminal::Unreachable | Terminal::Throw(_) | Terminal::Return(_) => {
            columns(false, false, false, false, false)
        }
        Terminal::Goto(_) | Terminal::MaybeThrow(_) => columns(true, false, false, false, false),
        Terminal::If(_) => columns(false, true, true, true, false),
        Terminal::Branch(_) | Terminal::Logical(_) | Terminal::Optional(_) => {
            columns(false, true, true, false, false)
        }
        Terminal::Switch(_) => columns(false, false, false, true, false),
        Terminal::DoWhile(_) | Terminal::While(_) | Terminal::ForIn(_) | Terminal::Try(_) => {
            columns(true, true, true, false, false)
        }
        Terminal::For(_) => columns(true, true, true, true, true),
        Terminal::ForOf(_) => columns(true, true, true, true, false),
        Terminal::Ternary(_)
        | Terminal::Label(_)
        | Terminal::Sequence(_)
        | Terminal::Scope(_)
        | Terminal::PrunedScope(_) => columns(true, true, false, false, false),
    }
}

// A block's number; 65,535 (none) stays.
#[tactic(auto, unfolding(crate::specs::Write::number_in))]
fn number_in(numbers: &[u32], block: u32) -> u32
    ensures { result ≡ number_in numbers.now block }
{
    numbers.get(block as usize).copied().unwrap_or(block)
}

fn number_if(named: bool, numbers: &[u32], word: u32) -> u32
    ensures { result ≡ renamed_if named (number_in numbers.now) word }
{
    if named {
        return number_in(numbers, word);
    }
    word
}

// The row of an old block, with the blocks that it names renamed.
fn write_row(table: Table<'_>, block: u32, names: &[u32], row: &mut [u32])
    requires block_bound { block < block_count table.words.now }
    requires row_len { length row.old ≡ 11 }
    ensures { row.new ≡ renamed_block_row (number_in names.now) table.entry.words.now block }
{
    let columns = named_columns(table.terminal(block));
    let begin = (6 + block * 11) as usize;
    for (k, named) in columns.iter().enumerate() {
        row[k] = number_if(*named, names, table.words[begin + k]);
    }
}

fn write_blocks(table: Table<'_>, names: &[u32], rows: &[u32], new_rows: &mut [u32])
    requires numbering { Numbering table.words.now names.now rows.now }
    requires new_rows_len { length new_rows.old ≡ block_count table.words.now * 11 }
    ensures { BlockRows table.entry.words.now names.now rows.now (block_count table.entry.words.now) new_rows.new }
{
    for (row, block) in rows.iter().enumerate() {
        let begin = row * 11;
        write_row(table, *block, names, &mut new_rows[begin..begin + 11]);
    }
}

// "every case row renamed whether used or not"
fn rename_cases(names: &[u32], cases: &mut [u32])
    ensures { CaseRows names.now cases.old (length cases.old / 2) cases.new }
{
    for case in 0..cases.len() / 2 {
        let block = case * 2 + 1;
        cases[block] = number_in(names, cases[block]);
    }
}

// The same words. (Word by word: `copy_from_slice` has the archive for C ask for memmove.)
fn copy_words(words: &[u32], new_words: &mut [u32])
    requires { length new_words.old ≡ length words.now }
    ensures { new_words.new ≡ words.now }
{
    for i in 0..words.len() {
        new_words[i] = words[i];
    }
}

// The whole table: `names` gives a block's number, `rows` the old row of each new one.
#[tactic(auto, using(crate::proofs::WriteLaws::sizes))]
pub fn write_table(table: Table<'_>, names: &[u32], rows: &[u32], new_words: &mut [u32])
    requires numbering { Numbering table.words.now names.now rows.now }
    requires new_words_len { length new_words.old ≡ length table.words.now }
    ensures { new_words.new ≡ renumbered table.entry.words.now names.now rows.now }
{
    let words = table.words;
    let instructions = instructions_begin(words) as usize;
    let cases = cases_begin(words) as usize;
    let places = places_begin(words) as usize;
    copy_words(words, new_words);
    new_words[0] = number_in(names, table.entry());
    write_blocks(table, names, rows, &mut new_words[6..instructions]);
    rename_cases(names, &mut new_words[cases..places]);
}
