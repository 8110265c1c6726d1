// The rows of a tree, where the part that closes at each begins, and what lies ahead of it. Beyond their end all read as 0, so that no function
// over them has a precondition.
ghost use Rattle.std.specs.Prelude.{◌≡◌, ◌+◌, eqb, get_or};
ghost use Rattle.table.specs.Table.{unless_none};
ghost use Rattle.tree_check.specs.Found.{word_at};
ghost use Rattle.tree_run.specs.Abstraction.{if_any, link_at};

use crate::links::Link;

// (`begin` is what `tree_check` gives, and the links are made from it: one array of both would be a copy of it.)
#[derive(Clone, Copy)]
pub struct Tree<'a> {
    pub words: &'a [u32],
    pub begin: &'a [u32],
    pub links: &'a [Link],
    pub rows: u32,
}

#[tactic(auto, unfolding(tree_check::specs::Found::word_at))]
pub fn word(words: &[u32], row: u32, column: u32) -> u32
    ensures { result ≡ word_at words.now row column }
{
    let i = row as usize * 6 + column as usize;
    words.get(i).copied().unwrap_or(0)
}

impl Tree<'_> {
    pub fn word(&self, row: u32, column: u32) -> u32
        ensures { result ≡ word_at self.now.words.now row column }
    {
        word(self.words, row, column)
    }

    // "Label 65,535 is none."
    #[tactic(auto, unfolding(table::specs::Table::unless_none))]
    pub fn label(&self, row: u32, column: u32) -> Option<u32>
        ensures { if_any result ≡ unless_none (word_at self.now.words.now row column) }
    {
        let label = self.word(row, column);
        (label != 65535).then_some(label)
    }

    // The first row of the part that closes here.
    pub fn begin(&self, row: u32) -> u32
        ensures { result ≡ get_or self.now.begin.now row 0 }
    {
        self.begin.get(row as usize).copied().unwrap_or(0)
    }

    fn link(&self, row: u32) -> Link
        ensures { result ≡ link_at self.now.links.now row }
    {
        self.links.get(row as usize).copied().unwrap_or_default()
    }

    pub fn parent(&self, row: u32) -> u32
        ensures { result ≡ (link_at self.now.links.now row).parent }
    {
        self.link(row).parent
    }

    pub fn next(&self, row: u32) -> Option<u32>
        ensures { result ≡ (link_at self.now.links.now row).next }
    {
        self.link(row).next
    }

    pub fn child(&self, row: u32) -> Option<u32>
        ensures { result ≡ (link_at self.now.links.now row).child }
    {
        self.link(row).child
    }

    // Whether the tree ends with this row.
    pub fn is_last(&self, row: u32) -> bool
        ensures { result ≡ eqb (row + 1) self.now.rows }
    {
        row as usize + 1 == self.rows as usize
    }
}
