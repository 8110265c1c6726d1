// The rows' words, and the rows that the check has read. Only these functions index the words.
ghost use Rattle.std.specs.Prelude.{◌≡◌, ◌+◌, ◌*◌, ◌<◌, length};
ghost use Rattle.tree_check.specs.Found.{word_at, Ready};

// The rows before `count`: their words, and where the part that closes at each begins.
#[derive(Clone, Copy)]
pub struct Rows<'a> {
    pub words: &'a [u32],
    pub begin: &'a [u32],
    pub count: u32,
    pub ghost ready: { Ready words.now begin.now count },
}

// A function of its own, since a function with a loop forgets the ghost field of what it builds.
pub fn read_so_far<'a>(words: &'a [u32], begin: &'a [u32], count: u32) -> Rows<'a>
    requires { Ready words.now begin.now count }
    ensures words { result.words.now ≡ words.now }
    ensures begin { result.begin.now ≡ begin.now }
    ensures count { result.count ≡ count }
{
    Rows {
        words,
        begin,
        count,
    }
}

#[tactic(auto, unfolding(crate::specs::Found::word_at))]
pub fn word(tree: &[u32], row: u32, column: u32) -> u32
    requires { row * 6 + column < length tree.now }
    ensures { result ≡ word_at tree.now row column }
{
    tree[row as usize * 6 + column as usize]
}
