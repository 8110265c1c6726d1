// The program treedot as a function: a file's bytes in, the bytes that are printed of it out.
ghost use Rattle.std.specs.Prelude.{◌≡◌, ◌≤◌, length, Ok};
ghost use Rattle.text.specs.Prints.{printing, WrittenText};
ghost use Rattle.dot.specs.Prints.{drawing_text, drawn_text};

use crate::dot;
use text::lent::{FILE_WORDS, zeros};
use text::placed::{print, write_refusal};
use text::read::read;
use text::write::NoRoom;

// Draws a table in the bytes that are printed of it.
#[tactic(auto, using(crate::proofs::AnswerLaws::code_some))]
fn draw_words(words: &[u32], out: &mut [u8]) -> Result<usize, NoRoom>
    ensures { WrittenText 77 (drawing_text (length out.old) words.now) (length out.old) result out.new }
{
    print(dot(words, out), out)
}

// Reads a file and draws its table; or writes why the file is refused. 77 bytes are enough for any refusal.
pub fn draw_file(file: &[u8], out: &mut [u8]) -> Result<usize, NoRoom>
    ensures out_after { record { answer = result; bytes = out.new } ≡ printing (length out.old) (drawn_text (length out.old) file.now) }
    ensures value { 77 ≤ length out.old → result ≡ Ok (length (drawn_text (length out.old) file.now)) }
{
    let mut words = zeros::<u32, FILE_WORDS>();
    match read(file, &mut words) {
        Ok(count) => draw_words(&words[..count], out),
        Err(error) => write_refusal(out, error),
    }
}
