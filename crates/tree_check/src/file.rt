// The program treecheck as a function: a file's bytes in, the bytes that are printed of it out.
ghost use Rattle.std.specs.Prelude.{◌≡◌, ◌-◌, ◌≤◌, length, Ok};
ghost use Rattle.text.specs.Prints.{printing, WrittenText};
ghost use Rattle.tree_check.specs.declared.file.FileError.TheVariants.{NotInForm, Refused};
ghost use Rattle.tree_check.specs.Prints.{file_code, file_at, file_answer, file_checked, printed_check, check_text};
ghost use Rattle.tree_check.specs.Read.{RowsRead};

use crate::scan::Scan;
use crate::{TreeError, check_tree};
use text::lent::put;
use text::names::names_end;
use text::placed::Coded;
use text::version::Columns;
use text::write::{NoRoom, Writer};

// No good file could have this byte here; or the file is short, and this is its length.
#[derive(Clone, Copy, Debug, PartialEq, Eq)]
pub struct BadByte {
    pub at: u32,
}

// Why a file of rows is refused: by its size, by its form, or by what is done with its rows.
#[derive(Clone, Copy, Debug, PartialEq, Eq)]
pub enum FileError<E> {
    TooLong,
    NotInForm(BadByte),
    Refused(E),
}

impl<E> From<BadByte> for FileError<E> {
    ghost from_gives = { λ bad error. error ≡ NotInForm bad };

    fn from(bad: BadByte) -> FileError<E> {
        FileError::NotInForm(bad)
    }
}

impl From<TreeError> for FileError<TreeError> {
    ghost from_gives = { λ refused error. error ≡ Refused refused };

    fn from(refused: TreeError) -> FileError<TreeError> {
        FileError::Refused(refused)
    }
}

// Paper 01: "51 over .. bytes, at 0; then 50 not in the form"; then the rows' own.
impl<E: Coded> Coded for FileError<E> {
    ghost code_of = { file_code E.code_of };

    ghost place_of = { file_at E.place_of };

    fn code(self) -> u32 {
        match self {
            FileError::TooLong => 51,
            FileError::NotInForm(_) => 50,
            FileError::Refused(error) => error.code(),
        }
    }

    fn place(self) -> u32 {
        match self {
            FileError::TooLong => 0,
            FileError::NotInForm(bad) => bad.at,
            FileError::Refused(error) => error.place(),
        }
    }
}

// The rows of a tree.
pub const ROWS: Columns<'static> = Columns {
    names: b"op a b c d e\n",
    width: 6,
};

// Reads the words of a table's file into the lent ones, and gives their number.
// (Not text's `read_rows`: that one is told how many lines there are, and these go on to the file's end.)
pub fn read_table(file: &[u8], columns: Columns<'_>, words: &mut [u32]) -> Result<usize, BadByte>
    requires { length file.now ≤ 262144 }
    ensures { RowsRead columns.entry.names.now (columns.entry.width - 1) file.now words.new result }
{
    let start = names_end(file, columns.names);
    if start != columns.names.len() {
        return Err(BadByte { at: start as u32 });
    }
    // (Saturating, so that no clause has to ask for a column.)
    let last = columns.width.saturating_sub(1);
    let mut scan = Scan {
        column: 0,
        number: None,
    };
    let mut count = 0;
    for at in start..file.len() {
        let next = scan.step(last, file[at]).ok_or(BadByte { at: at as u32 })?;
        if let Some(word) = next.ended {
            put(words, count, word);
            count += 1;
        }
        scan = next.scan;
    }
    if scan.number.is_some() || scan.column != 0 {
        return Err(BadByte {
            at: file.len() as u32,
        });
    }
    Ok(count)
}

// Whether a file is one of rows that are a tree.
fn check_rows(file: &[u8]) -> Result<(), FileError<TreeError>>
    ensures { file_answer result ≡ file_checked file.now }
{
    if file.len() > 262144 {
        return Err(FileError::TooLong);
    }
    let mut words = [0u32; 12288];
    let count = read_table(file, ROWS, &mut words)?;
    // A file may have more words than were lent: too many for a tree.
    check_tree(words.get(..count).ok_or(TreeError::NotOneTree)?)?;
    Ok(())
}

// Two lines: 30 bytes are always enough.
fn write_check(out: &mut [u8], code: u32, at: u32) -> Result<usize, NoRoom>
    ensures { WrittenText 30 (printed_check (record { code = code; at = at })) (length out.old) result out.new }
{
    let mut writer = Writer::new(out);
    writer.bytes(b"code at\n");
    writer.line(&[code, at]);
    writer.finish()
}

// Reads a file of rows, checks them and writes the answer; 30 bytes are enough.
pub fn check_file(file: &[u8], out: &mut [u8]) -> Result<usize, NoRoom>
    ensures out_after { record { answer = result; bytes = out.new } ≡ printing (length out.old) (check_text file.now) }
    ensures value { 30 ≤ length out.old → result ≡ Ok (length (check_text file.now)) }
{
    match check_rows(file) {
        Ok(()) => write_check(out, 0, 0),
        Err(error) => write_check(out, error.code(), error.place()),
    }
}
