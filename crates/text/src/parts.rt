// The file from its first line to its end: the head, then the tables. An error is the byte that no good file could have there.
ghost use Rattle.text.specs.Layout.{layout};
ghost use Rattle.text.specs.Steps.{HeadRead, FileRead};

use crate::lent::put_words;
use crate::names::read_names;
use crate::reader::Reader;
use crate::version::{HEAD, Version};

// Reads the head, and gives the byte after it: its line of names and its row are the same in both forms.
fn read_head(file: &[u8], head: &mut [u32; 6]) -> Result<usize, usize>
    ensures { HeadRead file.now result head.new }
{
    let at = read_names(file, 0, HEAD.names)?;
    let mut reader = Reader {
        file,
        words: head,
        at,
        count: 0,
    };
    reader.row(HEAD.width)?;
    Ok(reader.at)
}

// Reads the file's words, as far as there are places for them, and counts them.
pub(crate) fn read_file(file: &[u8], version: Version, words: &mut [u32]) -> Result<usize, usize>
    ensures { FileRead (layout version) file.now result words.new }
{
    let mut head = [0; 6];
    let at = read_head(file, &mut head)?;
    put_words(words, &head);
    let mut reader = Reader {
        file,
        words,
        at,
        count: HEAD.width,
    };
    reader.tables(version, &head)?;
    if reader.at < file.len() {
        return Err(reader.at);
    }
    Ok(reader.count)
}
