// Replays data/vectors.bin: tables with their answers, made by the Rust (reference/vectors/README.md says the form), the samples of paper 01
// first. Each table is built into a buffer full of sevens, and code, at, rows, visits and every word of the buffer are compared. Prints the
// number of each vector that differs, then how many there are, how many differ, and how many bytes are left.
#![tactic(auto)]

use build::answer::BuildError;
use build::build_reactive_function;
use program::read_part;
use std::fs::File;
use std::io;
use text::lent::zeros;
use walk::answer::{Numbered, Walked};

// The bytes that are left.
#[derive(Drop)]
struct Reader<'a> {
    rest: &'a [u8],
}

impl Reader<'_> {
    // A byte; 0 past the end.
    fn byte(&mut self) -> u8 {
        match self.rest.split_first() {
            Some((byte, rest)) => {
                self.rest = rest;
                *byte
            }
            None => 0,
        }
    }

    // A number: groups of seven bits, the lowest first, at most five.
    fn number(&mut self) -> u32 {
        let mut value = 0;
        for group in 0u32..5 {
            let byte = self.byte() as u32;
            value |= (byte % 128) << (group * 7);
            if byte < 128 {
                break;
            }
        }
        value
    }

    // Reads `count` numbers into the words, as far as there are places for them, and clears the words after them.
    fn words(&mut self, count: u32, words: &mut [u32]) {
        words.fill(0);
        for word in words.iter_mut().take(count as usize) {
            *word = self.number();
        }
    }
}

// What the Rust answers.
#[derive(Clone, Copy, PartialEq, Eq)]
struct Answer {
    code: u32,
    at: u32,
    rows: u32,
    visits: u32,
}

impl Answer {
    // The same numbers of what is built here.
    fn of(got: Result<Walked, BuildError>) -> Answer {
        match got {
            Ok(built) => Answer {
                code: 0,
                at: 0,
                rows: built.rows,
                visits: built.visits,
            },
            Err(error) => Answer {
                code: error.code(),
                at: error.place(),
                rows: error.rows(),
                visits: error.visits(),
            },
        }
    }

    // The number of words that the rows take: 0 where the build refuses.
    fn held(&self) -> u32 {
        if self.code == 0 {
            self.rows.saturating_mul(6)
        } else {
            0
        }
    }
}

// Builds the table in the first `count` words, with `lent` words lent. The index has room for the lines of any table (M-101): the Rust has
// none to compare.
fn build_part(
    words: &[u32],
    count: u32,
    tree: &mut [u32],
    lent: u32,
) -> Result<Walked, BuildError> {
    let end = words.len().min(count as usize);
    let room = tree.len().min(lent as usize);
    let mut index = zeros::<u32, 3072>();
    index.fill(7);
    build_reactive_function(&words[..end], &mut tree[..room], &mut index)
}

// Whether both have `count` words, and the first `count` are the same.
fn same_words(left: &[u32], right: &[u32], count: u32) -> bool {
    let count = count as usize;
    left.get(..count)
        .is_some_and(|words| right.get(..count) == Some(words))
}

// Whether the next vector comes out as it should.
fn replay(
    reader: &mut Reader<'_>,
    words: &mut [u32],
    tree: &mut [u32],
    expected: &mut [u32],
) -> bool {
    let count = reader.number();
    reader.words(count, words);
    let lent = reader.number();
    let answer = Answer {
        code: reader.number(),
        at: reader.number(),
        rows: reader.number(),
        visits: reader.number(),
    };
    reader.words(answer.held(), expected);
    tree.fill(7);
    let got = build_part(words, count, tree, lent);
    Answer::of(got) == answer && same_words(tree, expected, lent)
}

fn replay_all(rt: &impl Print, bytes: &[u8]) -> io::Result<()> {
    let mut words = zeros::<u32, 16384>();
    let mut tree = zeros::<u32, 16384>();
    let mut expected = zeros::<u32, 16384>();
    let mut reader = Reader { rest: bytes };
    let vectors = reader.number();
    let mut differences: u32 = 0;
    for number in 0..vectors {
        if !replay(&mut reader, &mut words, &mut tree, &mut expected) {
            println!(rt; "differs: {number}")?;
            differences = differences.saturating_add(1);
        }
    }
    let left = reader.rest.len();
    println!(rt; "{vectors} vectors, {differences} differences, {left} bytes left")
}

fn main(rt: HostRuntime) -> io::Result<()> {
    let mut opened = File::open(&rt, "vectors.bin")?;
    let mut bytes = zeros::<u8, 700000>();
    let count = read_part(&mut opened, &mut bytes);
    replay_all(&rt, &bytes[..count])
}
