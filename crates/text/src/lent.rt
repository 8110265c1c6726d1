// Lent buffers: a store past the end does nothing.
ghost use Rattle.std.specs.Prelude.{◌≡◌, length, set};
ghost use Rattle.text.specs.Lent.{Holds};

// Zeros to lend. The contract tells the length alone: a proof that sees the zeros would count them.
pub fn zeros<T: Copy + Default, const N: usize>() -> [T; N]
    ensures { N ≡ length result }
{
    [T::default(); N]
}

// Enough for the words of any good file.
pub const FILE_WORDS: usize = 16384;

// Stores an item, if there is a place for it.
pub fn put<T: Copy>(items: &mut [T], at: usize, item: T)
    ensures { items.new ≡ set items.old at item }
{
    if at < items.len() {
        items[at] = item;
    }
}

// Stores words from the start on, as far as there are places for them.
pub(crate) fn put_words(words: &mut [u32], source: &[u32])
    ensures { Holds words.new (length source.now) source.now }
{
    let count = words.len().min(source.len());
    words[..count].copy_from_slice(&source[..count]);
}
