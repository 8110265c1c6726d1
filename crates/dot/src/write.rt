// A line of the graph.
ghost use Rattle.std.specs.Prelude.{◌≡◌};
ghost use Rattle.text.specs.Writer.{written};
ghost use Rattle.dot.specs.Dot.{line_text};

use text::write::Writer;

pub fn write_line(writer: &mut Writer<'_>, from: u32, to: u32)
    ensures { writer.new ≡ written writer.old (line_text (record { from = from; to = to })) }
{
    writer.two_numbers(b"n", from, b" -> n", to, b";\n");
}
