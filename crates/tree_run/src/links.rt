// What lies ahead of a row in the list: where it belongs, and what comes after it.
ghost use Rattle.std.specs.Prelude.{◌≡◌, List, ℕ, ◌≤◌, length, get_or};
ghost use Rattle.tree_check.specs.Found.{Begun};
ghost use Rattle.tree_run.specs.Abstraction.{links_of, RowsLinked};

// Three closing rows: of what the row is a part of; of the part after it, if there is one; and of its first part, if it has any.
// (The root is a part of nothing, and its parent stays 0: the walk ends there, by `is_last`.)
#[derive(Clone, Copy, Default)]
pub struct Link {
    pub parent: u32,
    pub next: Option<u32>,
    pub child: Option<u32>,
}

// Links row after row, and the parts of a row from the last back. The last part closes just before the row; each other part closes just
// before the first row of the part after it. The links are lent, since an array that is handed out is copied on its way.
pub fn link_rows(begin: &[u32], rows: u32, links: &mut [Link; 2048])
    requires begin_len { length begin.now ≡ 2048 }
    requires rows_bound { rows ≤ 2048 }
    requires by_index { (k : ℕ) → get_or begin.now k 0 ≤ k }
    ensures { (words : List ℕ) → Begun words begin.now rows → RowsLinked words (links_of begin.now links.new) rows }
{
    for row in 0..rows {
        let first = begin[row as usize];
        let mut cursor = row;
        let mut later = None;
        // No `for`: where the next part closes is read from this one.
        while first < cursor {
            let part = cursor - 1;
            let i = part as usize;
            links[i] = Link {
                parent: row,
                next: later,
                ..links[i]
            };
            later = Some(part);
            cursor = begin[i];
        }
        links[row as usize].child = later;
    }
}
