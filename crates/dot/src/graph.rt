// The lines of a table, row by row.
ghost use Rattle.std.specs.Prelude.{◌≡◌, ◌<◌, [], ◌∷◌};
ghost use Rattle.table.specs.Words.{block_count};
ghost use Rattle.table.specs.Table.{table_of};
ghost use Rattle.text.specs.Writer.{written};
ghost use Rattle.table.specs.Lines.{named_at, lines_to, lines};
ghost use Rattle.table.specs.Named.{present};
ghost use Rattle.dot.specs.Dot.{lines_text, graph_text};

use crate::write::write_line;
use table::Table;
use text::write::Writer;

// A line for a block, if there is one.
fn write_if(writer: &mut Writer<'_>, row: u32, block: Option<u32>)
    ensures { writer.new ≡ written writer.old (lines_text (lines_to row (present (block ∷ [])))) }
{
    if let Some(to) = block {
        write_line(writer, row, to);
    }
}

// A line for each block that the row names.
fn write_row(table: Table<'_>, writer: &mut Writer<'_>, row: u32)
    requires { row < block_count table.words.now }
    ensures { writer.new ≡ written writer.old (lines_text (lines_to row (named_at (table_of table.entry.words.now) row))) }
{
    let named = table.named(row);
    for k in 0..named.cases {
        write_line(writer, row, table.case(named.first_case + k).block);
    }
    for block in &named.blocks {
        write_if(writer, row, *block);
    }
}

fn write_rows(table: Table<'_>, writer: &mut Writer<'_>)
    ensures { writer.new ≡ written writer.old (lines_text (lines (table_of table.entry.words.now))) }
{
    for row in 0..table.block_count() {
        write_row(table, writer, row);
    }
}

pub fn write_graph(table: Table<'_>, writer: &mut Writer<'_>)
    ensures { writer.new ≡ written writer.old (graph_text (table_of table.entry.words.now)) }
{
    writer.bytes(b"digraph g {\n");
    write_rows(table, writer);
    writer.bytes(b"}\n");
}
