// The program treerun as a function: a file's bytes in, the bytes that are printed of it out.
ghost use Rattle.std.specs.Prelude.{◌≡◌, ◌≤◌, length, Ok};
ghost use Rattle.text.specs.Prints.{printing};
ghost use Rattle.text.specs.Writer.{written};
ghost use Rattle.tree_check.specs.declared.file.FileError.TheVariants.{Refused};
ghost use Rattle.tree_run.specs.Given.{file_run};
ghost use Rattle.tree_run.specs.Prints.{file_outcome, printed_run, most_printed, run_text, AnswersAt};

use crate::{Run, RunError, run_tree};
use convert::written_tables::write_part;
use text::lent::zeros;
use text::placed::Coded;
use text::version::Columns;
use text::write::{NoRoom, Writer};
use tree_check::TreeError;
use tree_check::file::{BadByte, FileError, ROWS, read_table};
use values::rows::clear;

const ANSWERS: Columns<'static> = Columns {
    names: b"answer\n",
    width: 1,
};

const PERFORMED: Columns<'static> = Columns {
    names: b"instruction\n",
    width: 1,
};

impl From<RunError> for FileError<RunError> {
    ghost from_gives = { λ refused error. error ≡ Refused refused };

    fn from(refused: RunError) -> FileError<RunError> {
        FileError::Refused(refused)
    }
}

// The byte that the answers begin at, or the file's length: an `a` behind the rows' line of names, which has 13 bytes. No row has one.
fn answers_at(file: &[u8]) -> usize
    ensures { AnswersAt file.now result }
{
    (13..file.len())
        .find(|at| file[*at] == b'a')
        .unwrap_or(file.len())
}

// The run of a file: 51, 50, or what its rows and answers give.
fn run_bytes(file: &[u8], performed: &mut [u32]) -> Result<Run, FileError<RunError>>
    ensures { file_outcome result performed.new ≡ file_run file.now (length performed.old) }
{
    clear(performed, 0);
    if file.len() > 262144 {
        return Err(FileError::TooLong);
    }
    let from = answers_at(file);
    // 2,048 rows of six words, and fewer answers than bytes.
    let mut words = zeros::<u32, 12288>();
    let count = read_table(&file[..from], ROWS, &mut words)?;
    let mut answers = zeros::<u32, 262144>();
    let given = read_table(&file[from..], ANSWERS, &mut answers).map_err(|bad| BadByte {
        at: from as u32 + bad.at,
    })?;
    // A file may have more words than were lent: too many for a tree.
    let rows = words
        .get(..count)
        .ok_or(RunError::NotATree(TreeError::NotOneTree))?;
    let run = run_tree(rows, &answers[..given], performed)?;
    Ok(run)
}

// The lines of what a run gave.
fn write_lines(writer: &mut Writer<'_>, ran: Result<Run, FileError<RunError>>, performed: &[u32])
    requires number_in_bounds { (file_outcome ran performed.now).number ≤ length performed.now }
    requires number_bound { (file_outcome ran performed.now).number ≤ 65536 }
    ensures wrote { writer.new ≡ written writer.old (printed_run (file_outcome ran performed.now)) }
    ensures most { length (printed_run (file_outcome ran performed.now)) ≤ most_printed }
{
    writer.bytes(b"code at number reason\n");
    match ran {
        Ok(run) => {
            writer.line(&[0, 0, run.number as u32, run.reason.number()]);
            write_part(writer, PERFORMED, &performed[..run.number], 1);
        }
        Err(error) => writer.line(&[error.code(), error.place(), 0, 0]),
    }
}

// Reads a file of rows and answers, runs the tree, with 65,536 rows lent, and writes what it gives. 720,974 bytes are enough.
pub fn run_file(file: &[u8], out: &mut [u8]) -> Result<usize, NoRoom>
    ensures out_after { record { answer = result; bytes = out.new } ≡ printing (length out.old) (run_text file.now) }
    ensures value { most_printed ≤ length out.old → result ≡ Ok (length (run_text file.now)) }
{
    let mut performed = zeros::<u32, 65536>();
    let ran = run_bytes(file, &mut performed);
    let mut writer = Writer::new(out);
    write_lines(&mut writer, ran, &performed);
    writer.finish()
}
