// Flattening: a value of a For, ForOf or ForIn as one sequence that ends in UNDEF.
ghost use Rattle.std.specs.Prelude.{◌≡◌, ◌+◌, ◌<◌, IfSome};
ghost use Rattle.table.specs.Words.{place_count};
ghost use Rattle.table.specs.Table.{table_of};
ghost use Rattle.definition.specs.Value.{same_identifier};
ghost use Rattle.table.specs.Columns.{maybe_of};
ghost use Rattle.values.specs.Met.{Flattens, Flattened};

use crate::op::Op;
use crate::result::ValueBlockResult;
use crate::rows::put;
use table::Table;
use table::columns::Span;

// Whether a value loads a place that has the identifier of `place`. Identifiers are compared, not places.
fn loads_same_identifier(table: Table<'_>, place: u32, loaded: Option<u32>) -> bool
    requires place_bound { place < place_count table.words.now }
    requires loaded_bound { IfSome loaded (λ p. p < place_count table.words.now) }
    ensures { result ≡ same_identifier (table_of table.entry.words.now) place (maybe_of loaded) }
{
    match loaded {
        None => false,
        Some(loaded) => table.identifier(loaded) == table.identifier(place),
    }
}

// The Rust's value_block_result_to_sequence, for a value whose rows are the last in the buffer. It takes back the closing SEQ rows. It takes
// back the innermost value too, if that loads the result's own identifier; else the value becomes an instruction. UNDEF and one SEQ row over
// all follow. Gives the number of rows that are out.
pub fn value_block_result_to_sequence(
    table: Table<'_>,
    buffer: &mut [u32],
    res: ValueBlockResult,
    span: Span,
) -> u32
    requires { Flattens table.words.now res }
    ensures { Flattened table.entry.words.now res span buffer.old buffer.new result }
{
    let trailing = res.trailing;
    let rows = res.tally.rows - trailing.sequences;
    if loads_same_identifier(table, res.place, trailing.loaded) {
        let rows = put(buffer, rows - 1, Op::Undef, span.from, span.to, 0, 0, 0);
        return put(
            buffer,
            rows,
            Op::Seq,
            trailing.instructions,
            res.id,
            0,
            0,
            0,
        );
    }
    let rows = put(
        buffer,
        rows,
        Op::Instr,
        res.id,
        res.place,
        span.from,
        span.to,
        0,
    );
    let rows = put(buffer, rows, Op::Undef, span.from, span.to, 0, 0, 0);
    put(
        buffer,
        rows,
        Op::Seq,
        trailing.instructions + 1,
        res.id,
        0,
        0,
        0,
    )
}
