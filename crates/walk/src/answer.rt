// What the walk answers, and the five numbers that its callers tell.
ghost use Rattle.std.specs.Prelude.{◌≡◌, ℕ};
ghost use Rattle.walk.specs.Answer.{code_of, place_of, rows_of, visits_of, numbers};
ghost use Rattle.walk.specs.declared.answer.WalkError.TheVariants.{Table, Walk};

use crate::refusal::Refused;
use table::Refusal;

/// What the walk of an accepted table put out and began: the rows of its tree, the visits, and the lines of its index.
#[derive(Clone, Copy, Debug, PartialEq, Eq)]
pub struct Walked {
    pub rows: u32,
    pub visits: u32,
    pub lines: u32,
}

/// Why the walk gives no tree. docs/FORMAT.md has the numbers of all refusals.
#[derive(Clone, Copy, PartialEq, Eq)]
pub enum WalkError {
    /// The words are no table.
    Table(Refusal),
    /// The statement walk refuses.
    Walk(Refused),
}

impl From<Refusal> for WalkError {
    ghost from_gives = { λ refusal error. error ≡ Table refusal };

    fn from(refusal: Refusal) -> WalkError {
        WalkError::Table(refusal)
    }
}

impl From<Refused> for WalkError {
    ghost from_gives = { λ refused error. error ≡ Walk refused };

    fn from(refused: Refused) -> WalkError {
        WalkError::Walk(refused)
    }
}

/// An error with its four numbers. `rows` is 0 unless the rows are more than the buffer has room for: then it is the
/// number needed. `visits` counts the visits begun.
pub trait Numbered {
    ghost code_of: { Self → ℕ };

    ghost place_of: { Self → ℕ };

    ghost rows_of: { Self → ℕ };

    ghost visits_of: { Self → ℕ };

    fn code(self) -> u32
        ensures { result ≡ code_of self };

    fn place(self) -> u32
        ensures { result ≡ place_of self };

    fn rows(self) -> u32
        ensures { result ≡ rows_of self };

    fn visits(self) -> u32
        ensures { result ≡ visits_of self };
}

impl Numbered for WalkError {
    ghost code_of = { code_of };

    ghost place_of = { place_of };

    ghost rows_of = { rows_of };

    ghost visits_of = { visits_of };

    fn code(self) -> u32 {
        match self {
            WalkError::Table(refusal) => refusal.code(),
            WalkError::Walk(refused) => refused.refusal.code(),
        }
    }

    fn place(self) -> u32 {
        match self {
            WalkError::Table(refusal) => refusal.place(),
            WalkError::Walk(refused) => refused.refusal.place(),
        }
    }

    fn rows(self) -> u32 {
        0
    }

    fn visits(self) -> u32 {
        match self {
            WalkError::Table(_) => 0,
            WalkError::Walk(refused) => refused.visits,
        }
    }
}

/// Tells an answer to callers in C: gives the code (0 accepted), and writes the other four numbers. Rows and lines are
/// 0 for a refusal but for the rows of a buffer that is too small.
pub fn tell<E: Numbered + Copy>(
    answer: Result<Walked, E>,
    at: &mut u32,
    rows: &mut u32,
    visits: &mut u32,
    lines: &mut u32,
) -> u32
    ensures { record { code = result; at = at.new; rows = rows.new; visits = visits.new; lines = lines.new }
        ≡ numbers E.code_of E.place_of E.rows_of E.visits_of answer }
{
    match answer {
        Ok(walked) => {
            *at = 0;
            *rows = walked.rows;
            *visits = walked.visits;
            *lines = walked.lines;
            0
        }
        Err(error) => {
            *at = error.place();
            *rows = error.rows();
            *visits = error.visits();
            *lines = 0;
            error.code()
        }
    }
}
