// Tree rows in a lent buffer: six words each, written where a whole place is left, and counted in any case.
ghost use Rattle.std.specs.Prelude.{◌≡◌, ◌++◌, ◌+◌, ◌-◌, ◌≤◌, ◌<◌, length, take, replicate};
ghost use Rattle.definition.specs.Tree.{row};
ghost use Rattle.values.specs.Ops.{number_of};
ghost use Rattle.values.specs.Rows.{placed, Written};

use crate::op::Op;

// Writes a row at the place n, if the buffer has it whole.
// (The buffer is lent, by C too, and rows are counted on past its end, for 40: so no Vec. And no struct of the two with `&mut self`: the count is a
// field of the walk's position, which a turn takes and hands back by value, as paper 01's steps do; a value's is in its Tally in the same way.)
fn put_at(buffer: &mut [u32], n: usize, op: u32, a: u32, b: u32, c: u32, d: u32, e: u32)
    ensures { buffer.new ≡ placed buffer.old n (row op a b c d e) }
{
    if n < buffer.len() / 6 {
        let i = n * 6;
        buffer[i] = op;
        buffer[i + 1] = a;
        buffer[i + 2] = b;
        buffer[i + 3] = c;
        buffer[i + 4] = d;
        buffer[i + 5] = e;
    }
}

// Writes the next row, if it fits, and counts it.
// (Six words and no array: `[op, n, id, 0, 0, 0]` at a call is no plainer, and a call stores them in place.)
pub fn put_words(
    buffer: &mut [u32],
    rows: u32,
    op: u32,
    a: u32,
    b: u32,
    c: u32,
    d: u32,
    e: u32,
) -> u32
    requires { rows < 4000000000 }
    ensures { Written buffer.old rows (row op a b c d e) buffer.new result }
{
    put_at(buffer, rows as usize, op, a, b, c, d, e);
    rows + 1
}

// The same of a row with an op.
pub fn put(buffer: &mut [u32], rows: u32, op: Op, a: u32, b: u32, c: u32, d: u32, e: u32) -> u32
    requires { rows < 4000000000 }
    ensures { Written buffer.old rows (row (number_of op) a b c d e) buffer.new result }
{
    put_words(buffer, rows, op.number(), a, b, c, d, e)
}

// Clears the words from an index on.
// (std's `fill`, as a function by itself: its contract says in paper 01's terms which words are kept and which are zeros, and the entries cite that.)
pub fn clear(buffer: &mut [u32], from: usize)
    requires { from ≤ length buffer.old }
    ensures { buffer.new ≡ take from buffer.old ++ replicate (length buffer.old - from) 0 }
{
    buffer[from..].fill(0);
}
