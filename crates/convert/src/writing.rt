// M-112: the canonical text of a table's words.
ghost use Rattle.std.specs.Prelude.{◌≡◌, length};
ghost use Rattle.convert.specs.Write.{table_written};
ghost use Rattle.convert.specs.WriteAnswer.{code_of, place_of, placing, cleared};
ghost use Rattle.convert.specs.declared.writing.WriteError.TheVariants.{Table, NoRoom};

use crate::write_words;
use table::Refusal;
use table::words::Words;
use table_check::check;
use text::placed::{Coded, finish, tell};
use text::version::Version;
use text::write::NoRoom;

// Why words are not written. `code_of` and `place_of` in specs/WriteAnswer.antt have the papers' numbers.
// (Not one type with `dot`'s DrawError: no crate below both knows `Refusal` and `Coded`, and the code of NoRoom is another, 44.)
#[derive(Clone, Copy, Debug, PartialEq, Eq)]
pub enum WriteError {
    // The words are no table.
    Table(Refusal),
    // The text has more bytes than were lent.
    NoRoom,
}

impl From<Refusal> for WriteError {
    ghost from_gives = { λ refusal error. error ≡ Table refusal };

    fn from(refusal: Refusal) -> WriteError {
        WriteError::Table(refusal)
    }
}

impl From<NoRoom> for WriteError {
    ghost from_gives = { λ none error. error ≡ NoRoom };

    fn from(_none: NoRoom) -> WriteError {
        WriteError::NoRoom
    }
}

impl Coded for WriteError {
    ghost code_of = { code_of };

    ghost place_of = { place_of };

    fn code(self) -> u32 {
        match self {
            WriteError::Table(refusal) => refusal.code(),
            WriteError::NoRoom => 53,
        }
    }

    fn place(self) -> u32 {
        match self {
            WriteError::Table(refusal) => refusal.place(),
            WriteError::NoRoom => 0,
        }
    }
}

// Writes the text of words that are a table.
fn write_checked(words: &[u32], text: &mut [u8]) -> Result<usize, WriteError>
    ensures { cleared result text.new ≡ table_written words.now (length text.old) }
{
    let table = check(words)?;
    Ok(write_words(Words { words: table.words }, Version::New, text)?)
}

// Writes any words into a lent buffer of any length.
pub fn write_table(words: &[u32], text: &mut [u8]) -> Result<usize, WriteError>
    ensures { placing result text.new ≡ table_written words.now (length text.old) }
{
    finish(write_checked(words, text), text)
}

// The same for callers in C or Rust: the code, and the other two by reference.
pub fn table_write(words: &[u32], text: &mut [u8], at: &mut u32, size: &mut usize) -> u32
    ensures { record { code = result; at = at.new; length = size.new; buffer = text.new } ≡ table_written words.now (length text.old) }
{
    tell(write_table(words, text), at, size)
}
