// The walk, breadth first. Its queue holds the blocks in the order in which rows first name them.
ghost use Rattle.std.specs.Prelude.{◌≡◌, ℕ, List, [], ◌∷◌, ◌<◌, ◌≤◌, length, take, get_or, MatchOption};
ghost use Rattle.table.specs.Words.{block_count};
ghost use Rattle.table.specs.Table.{table_of};
ghost use Rattle.table.specs.Lines.{named_at};
ghost use Rattle.table.specs.Named.{AllBelow, present};
ghost use Rattle.renaming.specs.Order.{with_named, walk_from, walking_order};
ghost use Rattle.order.specs.Queue.{Queued};

use std::marker::Model;
use table::Table;

// The first `count` words of `blocks` are the blocks found, none of them twice; `found` has a flag for each of them.
// (Fixed memory: no heap, so no Vec and no set; std has no array with a length. Not the caller's list as the memory: a view hides the reference,
// and nothing could be told of what is left in the list.)
#[derive(Drop)]
struct Queue {
    blocks: [u32; 1024],
    count: usize,
    found: [bool; 1024],
}

// Clauses see the blocks, in the order in which they were found.
impl Model for Queue {
    ghost Value = { List ℕ };

    ghost view = { λ q. take q.count q.blocks };

    ghost invariant = { λ q. (q.count ≤ 1024) × Queued 1024 (take q.count q.blocks) q.found };
}

impl Queue {
    fn new() -> Queue
        ensures { result ≡ [] }
    {
        Queue {
            blocks: [0; 1024],
            count: 0,
            found: [false; 1024],
        }
    }

    fn get(&self, place: usize) -> Option<u32>
        ensures { MatchOption result (length self.now ≤ place)
            (λ block. (place < length self.now) × (get_or self.now place 0 ≡ block)) }
    {
        if place < self.count {
            return Some(self.blocks[place]);
        }
        None
    }

    // Puts a block at the end, unless it has been found.
    fn name(&mut self, block: u32)
        requires { block < 1024 }
        ensures { self.new ≡ with_named self.old (block ∷ []) }
    {
        let b = block as usize;
        if !self.found[b] {
            self.found[b] = true;
            self.blocks[self.count] = block;
            self.count += 1;
        }
    }

    // The same, if there is a block.
    fn name_if(&mut self, block: Option<u32>)
        requires { AllBelow 1024 (present (block ∷ [])) }
        ensures { self.new ≡ with_named self.old (present (block ∷ [])) }
    {
        if let Some(block) = block {
            self.name(block);
        }
    }

    // The blocks that a row names, in the order of its lines. (dot's `write_row` has these two loops too. One function of `table` that takes a
    // closure would tell its calls alone, by `FoldsTo`: each of the two would have an induction on them to prove in the place of its loops.)
    fn name_row(&mut self, table: Table<'_>, row: u32)
        requires { row < block_count table.words.now }
        ensures { self.new ≡ with_named self.old (named_at (table_of table.entry.words.now) row) }
    {
        let named = table.named(row);
        for k in 0..named.cases {
            self.name(table.case(named.first_case + k).block);
        }
        for block in &named.blocks {
            self.name_if(*block);
        }
    }

    fn copy_to(&self, list: &mut [u32])
        requires { length list.old ≡ length self.now }
        ensures { list.new ≡ self.now }
    {
        list.copy_from_slice(&self.blocks[..self.count]);
    }
}

// The block at each place of the queue names others. No `for`: the queue grows while it is walked.
// The queue is lent: a result would be one more copy of it on the stack.
fn walk(table: Table<'_>, queue: &mut Queue)
    requires { queue.old ≡ [] }
    ensures { queue.new ≡ walk_from (table_of table.entry.words.now) (block_count table.entry.words.now) 0 ((table_of table.entry.words.now).entry ∷ []) }
{
    queue.name(table.entry());
    let mut place = 0;
    while let Some(row) = queue.get(place) {
        queue.name_row(table, row);
        place += 1;
    }
}

// The blocks in walking order: those that the walk doesn't find come last, from block 0 on. Not inlined, as `write_rearranged`.
#[inline(never)]
pub fn walking_order(table: Table<'_>, list: &mut [u32])
    requires { length list.old ≡ block_count table.words.now }
    ensures { list.new ≡ walking_order (table_of table.entry.words.now) }
{
    let mut queue = Queue::new();
    walk(table, &mut queue);
    for block in 0..table.block_count() {
        queue.name(block);
    }
    queue.copy_to(list);
}
