// A checked table: its words, and what the check promises of them.
ghost use Rattle.std.specs.Prelude.{◌≡◌};
ghost use Rattle.table.specs.Words.{entry_word, block_count};
ghost use Rattle.table.specs.Promise.{Promise};

use crate::words;

// Words that the check has accepted (`table_check::check`).
#[derive(Clone, Copy)]
pub struct Table<'a> {
    pub words: &'a [u32],
    pub ghost promise: { Promise words.now },
}

impl Table<'_> {
    pub fn entry(self) -> u32
        ensures { result ≡ entry_word self.entry.words.now }
    {
        words::entry(self.words)
    }

    pub fn block_count(self) -> u32
        ensures { result ≡ block_count self.entry.words.now }
    {
        words::block_count(self.words)
    }
}
