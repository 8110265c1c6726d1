// M-112: old texts, with one span column, into new ones and back.
#![tactic(auto)]

pub mod file;
mod spans;
pub mod table_read;
mod widen;
pub mod writing;
pub mod written_tables;

ghost use Rattle.std.specs.Prelude.{◌≡◌, ◌≤◌, length};
ghost use Rattle.text.specs.Layout.{layout};
ghost use Rattle.text.specs.Printed.{written_of, lent_of};
ghost use Rattle.text.specs.declared.version.Version.TheVariants.{Old, New};
ghost use Rattle.convert.specs.Cut.{Shaped, text_in};
ghost use Rattle.convert.specs.Convert.{new_of_old, old_of_new, old_to_new, new_to_old, conversion};
ghost use Rattle.convert.specs.ConvertAnswer.{code_of, place_of, placing, cleared};
ghost use Rattle.convert.specs.Parts.{of_wide};
ghost use Rattle.convert.specs.declared.ConvertError.TheVariants.{File, Table, NoRoom};

use crate::spans::{first_apart, in_old_form};
use crate::widen::widen;
use crate::written_tables::write_tables;
use table::Refusal;
use table::words::Words;
use table_check::check;
use text::lent::{FILE_WORDS, zeros};
use text::placed::{Coded, finish, tell};
use text::read::{ReadError, read_as};
use text::version::Version;
use text::write::{NoRoom, Writer};

// Why a file is not converted. `code_of` and `place_of` in specs/ConvertAnswer.antt have the papers' numbers.
#[derive(Clone, Copy, Debug, PartialEq, Eq)]
pub enum ConvertError {
    // The file is not read.
    File(ReadError),
    // Its words are no table. The place is in words of the form read.
    Table(Refusal),
    // The `to` in this word differs from its `from`.
    SpanApart(u32),
    // The text has more bytes than were lent.
    NoRoom,
}

impl From<ReadError> for ConvertError {
    ghost from_gives = { λ error converted. converted ≡ File error };

    fn from(error: ReadError) -> ConvertError {
        ConvertError::File(error)
    }
}

impl From<Refusal> for ConvertError {
    ghost from_gives = { λ refusal converted. converted ≡ Table refusal };

    fn from(refusal: Refusal) -> ConvertError {
        ConvertError::Table(refusal)
    }
}

impl From<NoRoom> for ConvertError {
    ghost from_gives = { λ none converted. converted ≡ NoRoom };

    fn from(_none: NoRoom) -> ConvertError {
        ConvertError::NoRoom
    }
}

impl Coded for ConvertError {
    ghost code_of = { code_of };

    ghost place_of = { place_of };

    fn code(self) -> u32 {
        match self {
            ConvertError::File(error) => error.code(),
            ConvertError::Table(refusal) => refusal.code(),
            ConvertError::SpanApart(_) => 52,
            ConvertError::NoRoom => 53,
        }
    }

    fn place(self) -> u32 {
        match self {
            ConvertError::File(error) => error.place(),
            ConvertError::Table(refusal) => refusal.place(),
            ConvertError::SpanApart(at) => at,
            ConvertError::NoRoom => 0,
        }
    }
}

// Writes words that are as many as their head says, in a form. The lent bytes hold the text and then zeros; zeros alone, if it does not fit.
fn write_words(words: Words<'_>, version: Version, text: &mut [u8]) -> Result<usize, NoRoom>
    ensures value { result ≡ written_of (length text.old) (text_in (layout New) (layout version) words.entry.words.now) }
    ensures text_after { text.new ≡ lent_of (length text.old) (text_in (layout New) (layout version) words.entry.words.now) }
{
    let mut writer = Writer::new(text);
    write_tables(&mut writer, words, version);
    writer.finish()
}

// Checks widened words and writes them. A refusal has its place in the old form.
// (`Shaped` is asked of the old words twice and of the widened once: a struct of words and form would be built and taken apart once.)
fn write_wide(wide: &[u32], text: &mut [u8]) -> Result<usize, ConvertError>
    requires shaped { Shaped (layout New) wide.now }
    requires wide_len_bound { length wide.now ≤ 19456 }
    ensures { cleared result text.new ≡ of_wide wide.now (length text.old) }
{
    match check(wide) {
        Ok(table) => Ok(write_words(Words { words: table.words }, Version::New, text)?),
        Err(refusal) => Err(ConvertError::Table(in_old_form(wide, refusal))),
    }
}

// Writes old words as a new text. Not inlined: the way back needs no stack for the wide words.
#[inline(never)]
fn convert_old(old: &[u32], text: &mut [u8]) -> Result<usize, ConvertError>
    requires shaped { Shaped (layout Old) old.now }
    requires len_bound { length old.now ≤ 16384 }
    ensures { cleared result text.new ≡ new_of_old old.now (length text.old) }
{
    // 16,384 old words have at most 2,730 rows with a span.
    let mut wide = zeros::<u32, 19456>();
    let count = widen(old, &mut wide);
    write_wide(&wide[..count], text)
}

// Writes new words as an old text.
fn convert_new(words: &[u32], text: &mut [u8]) -> Result<usize, ConvertError>
    ensures { cleared result text.new ≡ old_of_new words.now (length text.old) }
{
    let table = check(words)?;
    match first_apart(table) {
        Some(at) => Err(ConvertError::SpanApart(at)),
        None => Ok(write_words(Words { words: table.words }, Version::Old, text)?),
    }
}

// Writes a file of a form in the other form. (By the form, as the reader goes: a closure for each form would stand in no fewer lines.)
fn convert(file: &[u8], version: Version, text: &mut [u8]) -> Result<usize, ConvertError>
    ensures { cleared result text.new ≡ conversion version file.now (length text.old) }
{
    let mut words = zeros::<u32, FILE_WORDS>();
    let count = read_as(file, version, &mut words)?;
    match version {
        Version::Old => convert_old(&words[..count], text),
        Version::New => convert_new(&words[..count], text),
    }
}

// Converts any file of the old form into a lent buffer of any length.
// Two entries, one for each form: C and the theorems name them.
pub fn old_to_new(file: &[u8], text: &mut [u8]) -> Result<usize, ConvertError>
    ensures { placing result text.new ≡ old_to_new file.now (length text.old) }
{
    finish(convert(file, Version::Old, text), text)
}

// Converts any file of the new form into a lent buffer of any length.
pub fn new_to_old(file: &[u8], text: &mut [u8]) -> Result<usize, ConvertError>
    ensures { placing result text.new ≡ new_to_old file.now (length text.old) }
{
    finish(convert(file, Version::New, text), text)
}

// The same for callers in C or Rust: the code, and the other two by reference.
pub fn table_old_to_new(file: &[u8], text: &mut [u8], at: &mut u32, size: &mut usize) -> u32
    ensures { record { code = result; at = at.new; length = size.new; buffer = text.new } ≡ old_to_new file.now (length text.old) }
{
    tell(old_to_new(file, text), at, size)
}

pub fn table_new_to_old(file: &[u8], text: &mut [u8], at: &mut u32, size: &mut usize) -> u32
    ensures { record { code = result; at = at.new; length = size.new; buffer = text.new } ≡ new_to_old file.now (length text.old) }
{
    tell(new_to_old(file, text), at, size)
}
