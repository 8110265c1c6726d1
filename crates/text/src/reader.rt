// The tables of a file, after its head. An error is the byte that no good file could have there.
// (That byte's place is the whole error, so it is a number: `read_words` makes it a `NotInForm`.)
ghost use Rattle.std.specs.Prelude.{◌≡◌, ◌≤◌, length};

use crate::lent::put;
use crate::names::read_names;
use crate::number::read_number;
use crate::version::{CASES, Columns, IDENTIFIERS, PLACES, Version};

// How far the reading has come: the next byte of the file, and the number of words so far, each of at least a byte.
// (Each contract says by `file` and `lent` that the reader keeps its file and the words that it was lent.)
#[derive(Drop)]
pub(crate) struct Reader<'a> {
    pub file: &'a [u8],
    pub words: &'a mut [u32],
    pub at: usize,
    pub count: usize,
    pub ghost within: { at ≤ length file.now },
    pub ghost few: { count ≤ at },
}

impl Reader<'_> {
    ghost use Rattle.text.specs.Layout.{layout};
    ghost use Rattle.text.specs.Form.{rows, table, tables};
    ghost use Rattle.text.specs.Steps.{PartRead, RowRead};

    // Reads a line of `width` numbers into the words, as far as there are places for them. (Its own places of the next byte and word stay in registers.)
    pub fn row(&mut self, width: usize) -> Result<(), usize>
        ensures file { self.new.file ≡ self.old.file }
        ensures lent { self.new.words.ghost_name ≡ self.old.words.ghost_name }
        ensures long { length self.new.words.now ≡ length self.old.words.now }
        ensures read { RowRead width self.old result self.new }
    {
        let file = self.file;
        let mut at = self.at;
        let mut count = self.count;
        for i in 0..width {
            let number = read_number(file, at, i + 1 == width)?;
            put(self.words, count, number.value);
            at = number.end;
            count += 1;
        }
        self.at = at;
        self.count = count;
        Ok(())
    }

    // Reads `lines` lines of `width` numbers.
    fn rows(&mut self, width: usize, lines: u32) -> Result<(), usize>
        ensures file { self.new.file ≡ self.old.file }
        ensures lent { self.new.words.ghost_name ≡ self.old.words.ghost_name }
        ensures read { PartRead (rows width lines) self.old result self.new }
    {
        for _ in 0..lines {
            self.row(width)?;
        }
        Ok(())
    }

    // Reads a table: its line of names, then its lines.
    fn table(&mut self, columns: Columns<'_>, lines: u32) -> Result<(), usize>
        ensures file { self.new.file ≡ self.old.file }
        ensures lent { self.new.words.ghost_name ≡ self.old.words.ghost_name }
        ensures read { PartRead (table columns.entry.names.now columns.entry.width lines) self.old result self.new }
    {
        self.at = read_names(self.file, self.at, columns.names)?;
        self.rows(columns.width, lines)
    }

    // Reads the five tables that the head counts.
    pub fn tables(&mut self, version: Version, head: &[u32; 6]) -> Result<(), usize>
        ensures file { self.new.file ≡ self.old.file }
        ensures lent { self.new.words.ghost_name ≡ self.old.words.ghost_name }
        ensures read { PartRead (tables (layout version) head.now) self.old result self.new }
    {
        let [_, blocks, instructions, cases, places, identifiers] = *head;
        self.table(version.block_columns(), blocks)?;
        self.table(version.instruction_columns(), instructions)?;
        self.table(CASES, cases)?;
        self.table(PLACES, places)?;
        self.table(IDENTIFIERS, identifiers)
    }
}
