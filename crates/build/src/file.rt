// The programs treebuild and treebuild_language as a function: a file's bytes in, the bytes that are printed of it out.
ghost use Rattle.std.specs.Prelude.{◌≡◌, ◌≤◌, length, Ok};
ghost use Rattle.text.specs.Prints.{printing, WrittenText};
ghost use Rattle.control.specs.Rule.{rule_of};
ghost use Rattle.build.specs.Prints.{tree_text, built_text};

use crate::build;
use control::rule::Rule;
use text::lent::{FILE_WORDS, zeros};
use text::placed::write_refusal;
use text::read::read;
use text::write::{NoRoom, Numbers, write};
use walk::answer::Numbered;

// "It lends 2,048 rows."
const TREE_WORDS: usize = 12288;

// M-101: it "lends 2,048 lines".
const INDEX_WORDS: usize = 6144;

// Builds the table's tree, with 2,048 rows and lines lent, and writes the result.
fn build_words(rule: Rule, words: &[u32], out: &mut [u8]) -> Result<usize, NoRoom>
    ensures { WrittenText 135245 (tree_text (rule_of rule) words.now) (length out.old) result out.new }
{
    let mut tree = zeros::<u32, TREE_WORDS>();
    let mut index = zeros::<u32, INDEX_WORDS>();
    match build(rule, words, &mut tree, &mut index) {
        Ok(built) => {
            let end = (built.rows as usize) * 6;
            let numbers = Numbers {
                code: 0,
                at: 0,
                rows: built.rows,
                visits: built.visits,
            };
            write(out, numbers, &tree[..end])
        }
        Err(error) => {
            let numbers = Numbers {
                code: error.code(),
                at: error.place(),
                rows: error.rows(),
                visits: error.visits(),
            };
            write(out, numbers, &[])
        }
    }
}

// Reads a file, builds its table's tree and writes the result; or writes why the file is refused. 135,245 bytes are enough.
// (dot, order and preview have a function like it. One for all would take two closures, as preview's refusal has five numbers, and of each its
// text and its bound, where dot's text goes by the room and order asks for few words: each caller would prove more than it does here.)
pub fn build_file(rule: Rule, file: &[u8], out: &mut [u8]) -> Result<usize, NoRoom>
    ensures out_after { record { answer = result; bytes = out.new } ≡ printing (length out.old) (built_text (rule_of rule) file.now) }
    ensures value { 135245 ≤ length out.old → result ≡ Ok (length (built_text (rule_of rule) file.now)) }
{
    let mut words = zeros::<u32, FILE_WORDS>();
    match read(file, &mut words) {
        Ok(count) => build_words(rule, &words[..count], out),
        Err(error) => write_refusal(out, error),
    }
}
