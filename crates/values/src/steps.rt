// The results of the value walk's steps, and the rows that they put.
ghost use Rattle.std.specs.Prelude.{◌≡◌, ◌<◌, Option};
ghost use Rattle.definition.specs.Tree.{row, instr_row};
ghost use Rattle.values.specs.Met.{loads, RowPut};
ghost use Rattle.values.specs.Ops.{number_of};

use crate::op::Op;
use crate::result::{Tally, Trailing};
use crate::rows::{put, put_words};
use table::columns::Span;

// The end of a value that is one row: the place that it loads, if it is a load.
pub fn loading(place: Option<u32>) -> Trailing
    ensures { result ≡ loads place }
{
    Trailing {
        sequences: 0,
        instructions: 0,
        loaded: place,
    }
}

// Puts a row with two columns, whatever word its op is.
pub fn put_row_words(buffer: &mut [u32], tally: Tally, op: u32, a: u32, b: u32) -> Tally
    requires { tally.rows < 4000000000 }
    ensures { RowPut buffer.old tally (row op a b 0 0 0) buffer.new result }
{
    let rows = put_words(buffer, tally.rows, op, a, b, 0, 0, 0);
    Tally { rows, ..tally }
}

// Puts a row with two columns.
pub fn put_row(buffer: &mut [u32], tally: Tally, op: Op, a: u32, b: u32) -> Tally
    requires { tally.rows < 4000000000 }
    ensures { RowPut buffer.old tally (row (number_of op) a b 0 0 0) buffer.new result }
{
    put_row_words(buffer, tally, op.number(), a, b)
}

// Puts the INSTR row of the value whose rows are out.
pub fn put_instr(buffer: &mut [u32], tally: Tally, id: u32, lvalue: u32, span: Span) -> Tally
    requires { tally.rows < 4000000000 }
    ensures { RowPut buffer.old tally (instr_row id lvalue span) buffer.new result }
{
    let rows = put(
        buffer,
        tally.rows,
        Op::Instr,
        id,
        lvalue,
        span.from,
        span.to,
        0,
    );
    Tally { rows, ..tally }
}
