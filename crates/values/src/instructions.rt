// A block's instructions: their rows.
ghost use Rattle.std.specs.Prelude.{◌+◌, ◌≤◌, ◌<◌};
ghost use Rattle.table.specs.Words.{instruction_count};
ghost use Rattle.values.specs.Met.{InstructionsPut};

use crate::op::Op;
use crate::rows::put;
use table::Table;

// Writes the rows of `count` instructions from `first` on, PLAIN and INSTR for each.
pub fn put_instructions(
    table: Table<'_>,
    buffer: &mut [u32],
    rows: u32,
    first: u32,
    count: u32,
) -> u32
    requires count_bound { first + count ≤ instruction_count table.words.now }
    requires rows_bound { rows < 3000000000 }
    ensures { InstructionsPut table.entry.words.now first count buffer.old rows buffer.new result }
{
    let mut out = rows;
    for i in first..first + count {
        let head = table.instruction(i);
        out = put(buffer, out, Op::Plain, i, 0, 0, 0, 0);
        out = put(
            buffer,
            out,
            Op::Instr,
            head.id,
            head.lvalue,
            head.span.from,
            head.span.to,
            0,
        );
    }
    out
}
