// Reads the files of data/, from 00 on, and prints of each, in the form of a result: the code and the place of its refusal, the number of
// its words, 1 if a word after them is not zero, and its first words as rows of six. Code 99: more words than were lent.
#![tactic(auto)]

use program::read_part;
use std::fs::File;
use std::io;
use std::rt::Files;
use text::lent::zeros;
use text::placed::Coded;
use text::read::ReadError;
use text::write::{Numbers, write};

// 1 if a word is not zero.
fn soiled(words: &[u32]) -> u32 {
    words.iter().any(|word| *word != 0) as u32
}

// A number of words, as far as it has 16 bits.
fn narrow(n: usize) -> u32 {
    n.min(65535) as u32
}

// The names of the files of data/.
const NAMES: &str =
    "00 01 02 03 04 05 06 07 08 09 10 11 12 13 14 15 16 17 18 19 20 21 22 23 24 25 26 27 28 29 30 31 32 33 34 35 36 37 38 39 40 41 42 43 44 45 46 47 48 49 50 51 52 53 54 55 56 57";

// Sends the first bytes to standard output.
fn send(rt: &impl Print, out: &[u8], n: usize) -> io::Result<()> {
    rt.write_all(&out[..n.min(out.len())])
}

fn print(rt: &impl Print, numbers: Numbers, words: &[u32]) -> io::Result<()> {
    let mut out = [0u8; 512];
    match write(&mut out, numbers, words) {
        Ok(n) => send(rt, &out, n),
        Err(_) => send(rt, b"no room\n", 8),
    }
}

fn show(rt: &impl Print, answer: Result<usize, ReadError>, words: &[u32]) -> io::Result<()> {
    match answer {
        Ok(n) => {
            let (read, rest) = words.split_at(n.min(words.len()));
            let numbers = Numbers {
                code: 0,
                at: 0,
                rows: narrow(n),
                visits: soiled(rest),
            };
            print(rt, numbers, &read[..read.len().min(24)])
        }
        Err(error) => {
            let numbers = Numbers {
                code: match error {
                    ReadError::NoRoom => 99,
                    _ => error.code(),
                },
                at: error.place(),
                rows: 0,
                visits: soiled(words),
            };
            print(rt, numbers, words)
        }
    }
}

// Reads a file into so many words, none of them zero before, and prints the answer.
fn run(rt: &impl Print, file: &[u8], words: &mut [u32]) -> io::Result<()> {
    words.fill(7);
    let answer = text::read::read(file, words);
    show(rt, answer, words)
}

fn run_named(rt: &(impl Files + Print), name: &str, words: &mut [u32]) -> io::Result<()> {
    let mut opened = File::open(rt, name)?;
    let mut file = zeros::<u8, 65536>();
    let count = read_part(&mut opened, &mut file);
    run(rt, &file[..count], words)
}

fn run_all(rt: &(impl Files + Print), words: &mut [u32]) -> io::Result<()> {
    for name in NAMES.split(' ') {
        run_named(rt, name, words)?;
    }
    Ok(())
}

fn main(rt: HostRuntime) -> io::Result<()> {
    let mut words = [0u32; 16384];
    run_all(&rt, &mut words)?;
    // The sample into one word less than it has, and into as many.
    let mut few = [0u32; 18];
    run_named(&rt, "00", &mut few)?;
    let mut enough = [0u32; 19];
    run_named(&rt, "00", &mut enough)?;
    // Numbers at the ends of their range.
    let numbers = Numbers {
        code: 0,
        at: 4294967295,
        rows: 0,
        visits: 4294967295,
    };
    print(&rt, numbers, &[4294967295, 0, 10, 99, 100, 1000000000])
}
