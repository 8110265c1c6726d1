// M-110: a table's blocks as a graph in DOT, the Graphviz language.
#![tactic(auto)]

pub mod file;
mod graph;
mod write;

ghost use Rattle.std.specs.Prelude.{◌≡◌, length};
ghost use Rattle.dot.specs.Answer.{code_of, place_of, placing, cleared};
ghost use Rattle.dot.specs.Dot.{drawn};
ghost use Rattle.dot.specs.declared.DrawError.TheVariants.{Table, NoRoom};

use crate::graph::write_graph;
use table::Refusal;
use table_check::check;
use text::placed::{Coded, finish, tell};
use text::write::{NoRoom, Writer};

// Why words are not drawn. `code_of` and `place_of` in specs/Answer.antt have the papers' numbers.
// (Not one type with `convert`'s WriteError: see there.)
#[derive(Clone, Copy, Debug, PartialEq, Eq)]
pub enum DrawError {
    // The words are no table.
    Table(Refusal),
    // The text has more bytes than were lent.
    NoRoom,
}

impl From<Refusal> for DrawError {
    ghost from_gives = { λ refusal error. error ≡ Table refusal };

    fn from(refusal: Refusal) -> DrawError {
        DrawError::Table(refusal)
    }
}

impl From<NoRoom> for DrawError {
    ghost from_gives = { λ none error. error ≡ NoRoom };

    fn from(_none: NoRoom) -> DrawError {
        DrawError::NoRoom
    }
}

impl Coded for DrawError {
    ghost code_of = { code_of };

    ghost place_of = { place_of };

    fn code(self) -> u32 {
        match self {
            DrawError::Table(refusal) => refusal.code(),
            DrawError::NoRoom => 44,
        }
    }

    fn place(self) -> u32 {
        match self {
            DrawError::Table(refusal) => refusal.place(),
            DrawError::NoRoom => 0,
        }
    }
}

// Writes the drawing of words that are a table.
fn draw(words: &[u32], text: &mut [u8]) -> Result<usize, DrawError>
    ensures { cleared result text.new ≡ drawn words.now (length text.old) }
{
    let table = check(words)?;
    let mut writer = Writer::new(text);
    write_graph(table, &mut writer);
    Ok(writer.finish()?)
}

// Draws any words into a lent buffer of any length.
pub fn dot(words: &[u32], text: &mut [u8]) -> Result<usize, DrawError>
    ensures { placing result text.new ≡ drawn words.now (length text.old) }
{
    finish(draw(words, text), text)
}

// The same for callers in C or Rust: the code, and the other two by reference.
pub fn blocks_to_dot(words: &[u32], text: &mut [u8], at: &mut u32, size: &mut usize) -> u32
    ensures { record { code = result; at = at.new; length = size.new; buffer = text.new } ≡ drawn words.now (length text.old) }
{
    tell(dot(words, text), at, size)
}
