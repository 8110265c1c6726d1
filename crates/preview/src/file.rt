// The program treesize as a function: a file's bytes in, the bytes that are printed of it out.
ghost use Rattle.std.specs.Prelude.{◌≡◌, ◌≤◌, length, Ok};
ghost use Rattle.text.specs.Prints.{printing, WrittenText};
ghost use Rattle.definition.specs.Around.{rust};
ghost use Rattle.definition.specs.Preview.{previewed};
ghost use Rattle.preview.specs.Prints.{size_text, sized_text};

use crate::preview;
use text::lent::{FILE_WORDS, zeros};
use text::placed::Coded;
use text::read::read;
use text::write::{NoRoom, Writer};
use walk::answer::Numbered;

// Two lines: 81 bytes are always enough.
fn write_size(
    out: &mut [u8],
    code: u32,
    at: u32,
    rows: u32,
    visits: u32,
    lines: u32,
) -> Result<usize, NoRoom>
    ensures { WrittenText 81 (size_text (record { code = code; at = at; rows = rows; visits = visits; lines = lines })) (length out.old) result out.new }
{
    let mut writer = Writer::new(out);
    writer.bytes(b"code at rows visits lines\n");
    writer.line(&[code, at, rows, visits, lines]);
    writer.finish()
}

// What a build of the table gives where both buffers are large enough.
fn size_words(words: &[u32], out: &mut [u8]) -> Result<usize, NoRoom>
    ensures { WrittenText 81 (size_text (previewed rust words.now)) (length out.old) result out.new }
{
    match preview(words) {
        Ok(size) => write_size(out, 0, 0, size.rows, size.visits, size.lines),
        Err(error) => write_size(out, error.code(), error.place(), 0, error.visits(), 0),
    }
}

// Reads a file and writes what its table's build gives; or writes why the file is refused. 81 bytes are enough.
pub fn size_file(file: &[u8], out: &mut [u8]) -> Result<usize, NoRoom>
    ensures out_after { record { answer = result; bytes = out.new } ≡ printing (length out.old) (sized_text file.now) }
    ensures value { 81 ≤ length out.old → result ≡ Ok (length (sized_text file.now)) }
{
    let mut words = zeros::<u32, FILE_WORDS>();
    match read(file, &mut words) {
        Ok(count) => size_words(&words[..count], out),
        Err(error) => write_size(out, error.code(), error.place(), 0, 0, 0),
    }
}
