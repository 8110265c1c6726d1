// What a program does with its standard input and output. A failed read or write is told on standard error, and the exit status is then 2.
#![tactic(auto)]

ghost use Rattle.std.specs.Prelude.{◌≡◌, ◌≢◌, ◌⊎◌, IfOk, IfErr};
ghost use Rattle.std.specs.Counts.{IsPrefixLen};
ghost use Rattle.std.specs.Io.KnownBytes.{Appends};
ghost use Rattle.std.specs.IoError.{error_kind};
ghost use Rattle.std.specs.Process.{exit_status};

use std::env::{Env, FillError};
use std::io::{Error, ErrorKind, IsTerminal, Read, Write};
use std::process::ExitCode;
use text::write::NoRoom;

// The exit status of a program whose standard input or output failed.
const STREAM_FAILED: u8 = 2;

// One byte more than a table's file may have.
pub const TABLE_BYTES: usize = 32769;

// One byte more than a file of rows may have.
pub const ROWS_BYTES: usize = 262145;

// Enough for a tree of 2,048 rows.
pub const TREE_BYTES: usize = 135245;

// Enough for the five numbers of a preview.
pub const SIZE_BYTES: usize = 81;

// Room for a drawing; a longer one is refused, 44.
pub const DRAWING_BYTES: usize = 262144;

// Enough for a rearranged table.
pub const ORDERED_BYTES: usize = 180368;

// Enough for a table in another form.
pub const CONVERTED_BYTES: usize = 65542;

// Enough for whether rows are one tree.
pub const CHECKED_BYTES: usize = 30;

// Enough for a run of 65,536 instructions.
pub const RAN_BYTES: usize = 720974;

// A read failed after so many bytes, which may not be the whole input.
#[derive(Clone, Copy, Debug, PartialEq, Eq)]
pub struct ReadFailed {
    pub count: usize,
}

// One read. It is tried again where a signal interrupts it, and where an input that does not block has nothing yet.
fn read_some<R: Read>(reader: &mut R, bytes: &mut [u8]) -> Result<usize, Error>
    ensures bound { IfOk result (λ count. IsPrefixLen count bytes.new) }
    ensures interrupted { IfErr result (λ error. error_kind error ≢ ErrorKind.Interrupted) }
    ensures early { IfErr result (λ error. error_kind error ≢ ErrorKind.WouldBlock) }
{
    for _ in 0..u64::MAX {
        match reader.read(bytes) {
            Ok(count) => return Ok(count),
            Err(error) => match error.kind() {
                ErrorKind::Interrupted | ErrorKind::WouldBlock => {}
                _ => return Err(error),
            },
        }
    }
    Err(Error::from(ErrorKind::TimedOut))
}

// Reads until the bytes are full or the input ends, and gives the number of bytes read. No `for`: a read gives as many bytes as the system has.
pub fn read_input<R: Read>(reader: &mut R, bytes: &mut [u8]) -> Result<usize, ReadFailed>
    ensures whole { IfOk result (λ count. IsPrefixLen count bytes.new) }
    ensures failed { IfErr result (λ failed. IsPrefixLen failed.count bytes.new) }
{
    let mut count = 0;
    while count < bytes.len() {
        match read_some(reader, &mut bytes[count..]) {
            Ok(0) => break,
            Ok(more) => count += more,
            Err(_) => return Err(ReadFailed { count }),
        }
    }
    Ok(count)
}

// The same, as far as no read fails: for a test that replays what is there.
pub fn read_part<R: Read>(reader: &mut R, bytes: &mut [u8]) -> usize
    ensures { IsPrefixLen result bytes.new }
{
    match read_input(reader, bytes) {
        Ok(count) => count,
        Err(failed) => failed.count,
    }
}

// Where standard error fails too, nothing is left to tell it on.
fn say(rt: &HostRuntime, program: &[u8], words: &[u8]) {
    let _ = rt.stderr().write_all(program);
    let _ = rt.stderr().write_all(words);
}

// Whether a person may expect something that the program does not do: there is an argument, or the input is a terminal.
fn may_wait(rt: &HostRuntime) -> bool {
    has_argument(rt) || rt.stdin().is_terminal()
}

// Whether there is an argument after the program's name, of any length: one that does not fit the byte is there too.
fn has_argument(rt: &HostRuntime) -> bool {
    let mut first = [0u8; 1];
    !matches!(rt.arg(1, &mut first), Err(FillError::NotPresent))
}

// Reads standard input. If a read fails, it says so after the program's name. If a person may wait for it, it first says what it does.
pub fn read_all(rt: &HostRuntime, program: &[u8], bytes: &mut [u8]) -> Result<usize, ReadFailed>
    ensures whole { IfOk result (λ count. IsPrefixLen count bytes.new) }
    ensures failed { IfErr result (λ failed. IsPrefixLen failed.count bytes.new) }
{
    if may_wait(rt) {
        say(
            rt,
            program,
            b": reads standard input to its end, as in PROGRAM <FILE, and prints to standard output; no argument is read\n",
        );
    }
    let read = read_input(&mut rt.stdin(), bytes);
    if read.is_err() {
        say(rt, program, b": standard input cannot be read\n");
    }
    read
}

// Writes all of the bytes, and gives the exit status: 0 only if the writer has them all.
fn write_whole<W: Write>(writer: &mut W, bytes: &[u8]) -> ExitCode
    ensures status { exit_status result ≡ 0 ⊎ exit_status result ≡ 2 }
    ensures whole { exit_status result ≡ 0 → Appends (W.contents writer.old) (W.contents writer.new) bytes.now }
{
    match writer.write_all(bytes) {
        Ok(()) => ExitCode::from(0),
        Err(_) => ExitCode::from(STREAM_FAILED),
    }
}

// Writes all of the bytes to standard output, and gives the exit status. If that fails, it says so.
pub fn write_all(rt: &HostRuntime, program: &[u8], bytes: &[u8]) -> ExitCode
    ensures { exit_status result ≡ 0 ⊎ exit_status result ≡ 2 }
{
    let status = write_whole(&mut rt.stdout(), bytes);
    if status != ExitCode::SUCCESS {
        say(
            rt,
            program,
            b": standard output cannot be written: what is printed is not whole\n",
        );
    }
    status
}

// Writes what a program's function printed into the lent bytes, and gives the exit status. The function's contract says that the end is within
// them. The code tests it here as well, so that `run` need not prove it. A text that does not fit its room is told on standard error.
pub fn write_printed(
    rt: &HostRuntime,
    program: &[u8],
    out: &[u8],
    written: Result<usize, NoRoom>,
) -> ExitCode
    ensures { exit_status result ≡ 0 ⊎ exit_status result ≡ 2 }
{
    match written {
        Ok(end) if end <= out.len() => write_all(rt, program, &out[..end]),
        _ => {
            say(
                rt,
                program,
                b": what is to be printed does not fit its room\n",
            );
            ExitCode::from(STREAM_FAILED)
        }
    }
}

// What a program does: reads standard input into `file`, has `print` print of it into `out`, and writes that. After a failed read it prints
// nothing. It gives the exit status: 0, or 2 after a failed read or write.
pub fn run<F: Fn(&[u8], &mut [u8]) -> Result<usize, NoRoom>>(
    rt: &HostRuntime,
    program: &[u8],
    file: &mut [u8],
    out: &mut [u8],
    print: F,
) -> ExitCode
    requires { F.IsAlwaysCallable print }
    ensures { exit_status result ≡ 0 ⊎ exit_status result ≡ 2 }
{
    match read_all(rt, program, file) {
        Ok(count) => {
            let written = print(&file[..count], out);
            write_printed(rt, program, out, written)
        }
        Err(ReadFailed { .. }) => ExitCode::from(STREAM_FAILED),
    }
}
