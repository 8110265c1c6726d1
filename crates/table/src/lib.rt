// The words of a table: the readers of its columns, which index the words by what the check promises (room `table_check`), and the check's answer.
#![tactic(auto)]

pub mod checked;
pub mod columns;
pub mod lines;
pub mod terminals;
pub mod words;

ghost use Rattle.std.specs.Prelude.{◌≡◌};
ghost use Rattle.table.specs.Answer.{refusal_code, refusal_place};

pub use checked::Table;

// Why words are no table. Paper 01's code and place of each: specs/Answer.antt.
#[derive(Clone, Copy, Debug, PartialEq, Eq)]
pub enum Refusal {
    WrongLength,
    CountOverLimit(u32),
    EntryOutOfRange,
    BadWord(u32),
}

impl Refusal {
    pub fn code(self) -> u32
        ensures { result ≡ refusal_code self }
    {
        match self {
            Refusal::WrongLength => 1,
            Refusal::CountOverLimit(_) => 2,
            Refusal::EntryOutOfRange => 3,
            Refusal::BadWord(_) => 4,
        }
    }

    pub fn place(self) -> u32
        ensures { result ≡ refusal_place self }
    {
        match self {
            Refusal::CountOverLimit(at) | Refusal::BadWord(at) => at,
            Refusal::WrongLength | Refusal::EntryOutOfRange => 0,
        }
    }
}
