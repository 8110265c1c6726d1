// M-101: a statement is found by its label, in the lines that the build writes beside the tree.
#![tactic(auto)]

ghost use Rattle.std.specs.Prelude.{◌≡◌, ◌+◌, ◌*◌, ◌≤◌, length};
ghost use Rattle.lookup.specs.Lookup.{code_of, found_of, looked_of, lines_read, first_with, line_word, part_of, found, looked};

use std::ops::Range;

// Why a lookup finds nothing.
#[derive(Clone, Copy, Debug, PartialEq, Eq)]
pub enum LookupError {
    NoSuchLabel = 42,
    BadLine = 43,
}

impl LookupError {
    pub fn code(self) -> u32
        ensures { result ≡ code_of self }
    {
        self as u32
    }
}

// The first line that has the label, of those that may be read: no more than told, and whole ones.
// (Over the lines' numbers and not `chunks_exact(3)`: the number is the answer, and `part_at` reads the line by it.)
fn first_with(index: &[u32], lines: u32, label: u32) -> Option<usize>
    ensures { result ≡ first_with index.now label 0 (lines_read index.now lines) }
{
    let count = (index.len() / 3).min(lines as usize);
    (0..count).find(|line| index[*line * 3] == label)
}

// The rows that a line names, in words of the tree. Both numbers are compared before they are multiplied, since a caller's line may have any words.
fn part_at(index: &[u32], line: usize, tree: &[u32]) -> Result<Range<usize>, LookupError>
    requires { line * 3 + 3 ≤ length index.now }
    ensures { found_of result ≡ part_of (line_word index.now line 1) (line_word index.now line 2) (length tree.now) }
{
    let first = index[line * 3 + 1] as usize;
    let closing = index[line * 3 + 2] as usize;
    if closing < first || tree.len() / 6 <= closing {
        return Err(LookupError::BadLine);
    }
    Ok(first * 6..(closing + 1) * 6)
}

// The bounds of the statement's own rows in the tree buffer.
pub fn find(
    index: &[u32],
    lines: u32,
    label: u32,
    tree: &[u32],
) -> Result<Range<usize>, LookupError>
    ensures { found_of result ≡ found index.now lines label (length tree.now) }
{
    let line = first_with(index, lines, label).ok_or(LookupError::NoSuchLabel)?;
    part_at(index, line, tree)
}

// The statement's own rows, a part of the caller's tree buffer.
pub fn lookup<'a>(
    index: &[u32],
    lines: u32,
    label: u32,
    tree: &'a [u32],
) -> Result<&'a [u32], LookupError>
    ensures { looked_of result ≡ looked index.now lines label tree.now }
{
    let Range { start: first, end } = find(index, lines, label, tree)?;
    Ok(&tree[first..end])
}

// The same for callers in C or Rust: the code, and by reference, as C takes them, the place and the bounds of the part.
pub fn tree_lookup(
    index: &[u32],
    lines: u32,
    label: u32,
    tree: &[u32],
    at: &mut u32,
    begin: &mut usize,
    end: &mut usize,
) -> u32
    ensures { record { code = result; at = at.new; begin = begin.new; end = end.new } ≡ found index.now lines label (length tree.now) }
{
    *at = 0;
    match find(index, lines, label, tree) {
        Ok(part) => {
            *begin = part.start;
            *end = part.end;
            0
        }
        Err(error) => {
            *begin = 0;
            *end = 0;
            error.code()
        }
    }
}
