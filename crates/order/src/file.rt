// The program treeorder as a function: a file's bytes in, the bytes that are printed of it out.
ghost use Rattle.std.specs.Prelude.{◌≡◌, ◌≤◌, length, Ok};
ghost use Rattle.text.specs.Prints.{printing, WrittenText};
ghost use Rattle.renaming.specs.Order.{rearranged};
ghost use Rattle.convert.specs.Write.{table_text};
ghost use Rattle.order.specs.Prints.{ordered_text, order_text};

use crate::{OrderError, rearrange_checked};
use convert::written_tables::write_tables;
use table::Table;
use table::words::Words;
use table_check::check;
use text::lent::{FILE_WORDS, zeros};
use text::placed::write_refusal;
use text::read::read;
use text::version::Version;
use text::write::{NoRoom, Writer};

// The text of the rearranged table: 11 bytes a word, and the names, are enough.
#[tactic(auto, using(crate::proofs::OrderedLaws::rearranged_sized))]
fn order_table(table: Table<'_>, out: &mut [u8]) -> Result<usize, NoRoom>
    requires { length table.words.now ≤ 16384 }
    ensures { WrittenText 180368 (table_text (rearranged table.entry.words.now)) (length out.old) result out.new }
{
    let mut words = zeros::<u32, FILE_WORDS>();
    let mut old_numbers = zeros::<u32, 1024>();
    let new_words = &mut words[..table.words.len()];
    let blocks = table.block_count() as usize;
    rearrange_checked(table, new_words, &mut old_numbers[..blocks]);
    let mut writer = Writer::new(out);
    write_tables(&mut writer, Words { words: new_words }, Version::New);
    writer.finish()
}

// The words of a file: the rearranged table's text, or why there is none.
fn order_words(words: &[u32], out: &mut [u8]) -> Result<usize, NoRoom>
    requires { length words.now ≤ 16384 }
    ensures { WrittenText 180368 (ordered_text words.now) (length out.old) result out.new }
{
    match check(words) {
        Ok(table) => order_table(table, out),
        Err(refusal) => write_refusal(out, OrderError::Table(refusal)),
    }
}

// Reads a file and prints its table with the blocks in walking order; or prints why the file is refused. 180,368 bytes are enough.
pub fn order_file(file: &[u8], out: &mut [u8]) -> Result<usize, NoRoom>
    ensures out_after { record { answer = result; bytes = out.new } ≡ printing (length out.old) (order_text file.now) }
    ensures value { 180368 ≤ length out.old → result ≡ Ok (length (order_text file.now)) }
{
    let mut words = zeros::<u32, FILE_WORDS>();
    match read(file, &mut words) {
        Ok(count) => order_words(&words[..count], out),
        Err(error) => write_refusal(out, error),
    }
}
