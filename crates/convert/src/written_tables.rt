// A table's words as lines, table by table.
ghost use Rattle.std.specs.Prelude.{◌≡◌, ◌++◌, ◌≤◌};
ghost use Rattle.text.specs.Layout.{layout};
ghost use Rattle.text.specs.Line.{lines, rows_in};
ghost use Rattle.text.specs.Steps.{columns_of};
ghost use Rattle.text.specs.Writer.{written};
ghost use Rattle.text.specs.declared.version.Version.TheVariants.{New};
ghost use Rattle.convert.specs.Cut.{text_in};

use table::words::{Words, cases_begin, identifiers_begin, instructions_begin, places_begin};
use text::version::{CASES, Columns, HEAD, IDENTIFIERS, PLACES, Version};
use text::write::Writer;

// A line of names, then a line for each row of `stride` words. A line has the first words of its row, one for each column.
pub fn write_part(writer: &mut Writer<'_>, columns: Columns<'_>, rows: &[u32], stride: usize)
    requires { columns.width ≤ stride }
    ensures { writer.new ≡ written writer.old ((columns_of columns.entry).names ++ lines (rows_in stride columns.entry.width rows.now)) }
{
    writer.bytes(columns.names);
    writer.rows(rows, stride, columns.width);
}

// The six tables in a form: of blocks and instructions the old one has no `to`.
#[tactic(auto, using(crate::proofs::TextLaws::sized_within))]
pub fn write_tables(writer: &mut Writer<'_>, words: Words<'_>, version: Version)
    ensures { writer.new ≡ written writer.old (text_in (layout New) (layout version) words.entry.words.now) }
{
    let words = words.words;
    let instructions = instructions_begin(words) as usize;
    let cases = cases_begin(words) as usize;
    let places = places_begin(words) as usize;
    let identifiers = identifiers_begin(words) as usize;
    write_part(writer, HEAD, &words[..6], 6);
    write_part(writer, version.block_columns(), &words[6..instructions], 11);
    write_part(
        writer,
        version.instruction_columns(),
        &words[instructions..cases],
        7,
    );
    write_part(writer, CASES, &words[cases..places], 2);
    write_part(writer, PLACES, &words[places..identifiers], 1);
    write_part(writer, IDENTIFIERS, &words[identifiers..], 1);
}
