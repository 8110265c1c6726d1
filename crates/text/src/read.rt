ghost use Rattle.std.specs.Prelude.{◌≡◌, length};
ghost use Rattle.text.specs.Answer.{code_of, place_of};
ghost use Rattle.text.specs.Layout.{layout};
ghost use Rattle.text.specs.Reading.{reading, read_into};
ghost use Rattle.text.specs.Steps.{WordsStored};
ghost use Rattle.text.specs.declared.version.Version.TheVariants.{New};

use crate::parts::read_file;
use crate::placed::Coded;
use crate::version::Version;

// Why a file's words are not in the lent ones. `code_of` and `place_of` in specs/Answer.antt have the papers' numbers.
#[derive(Clone, Copy, Debug, PartialEq, Eq)]
pub enum ReadError {
    // The file has over 32,768 bytes.
    TooLong,
    // The file is not in the form: the first byte that no good file could have there, or the file's length if it is short.
    NotInForm(u32),
    // The file is in the form, and has more words than were lent.
    NoRoom,
}

impl Coded for ReadError {
    ghost code_of = { code_of };

    ghost place_of = { place_of };

    fn code(self) -> u32 {
        match self {
            ReadError::TooLong => 51,
            ReadError::NotInForm(_) => 50,
            ReadError::NoRoom => 54,
        }
    }

    fn place(self) -> u32 {
        match self {
            ReadError::NotInForm(at) => at,
            _ => 0,
        }
    }
}

// Reads a file of this form into the lent words, as far as there are places for them, and gives the number of its words.
fn read_words(file: &[u8], version: Version, words: &mut [u32]) -> Result<usize, ReadError>
    ensures { WordsStored (layout version) file.now result words.new }
{
    if 32768 < file.len() {
        return Err(ReadError::TooLong);
    }
    match read_file(file, version, words) {
        Err(at) => Err(ReadError::NotInForm(at as u32)),
        Ok(count) if words.len() < count => Err(ReadError::NoRoom),
        Ok(count) => Ok(count),
    }
}

// Reads a file of this form: its words into the lent ones, then zeros, and gives their number. Where it fails, the lent words are all zeros.
pub fn read_as(file: &[u8], version: Version, words: &mut [u32]) -> Result<usize, ReadError>
    ensures { record { answer = result; lent = words.new } ≡ read_into (length words.old) (reading (layout version) file.now) }
{
    let answer = read_words(file, version, words);
    words[answer.unwrap_or(0)..].fill(0);
    answer
}

// Reads a file of the form of today.
pub fn read(file: &[u8], words: &mut [u32]) -> Result<usize, ReadError>
    ensures { record { answer = result; lent = words.new } ≡ read_into (length words.old) (reading (layout New) file.now) }
{
    read_as(file, Version::New, words)
}
