// The bytes of a table's lines, one by one; `last` is the last column.
ghost use Rattle.std.specs.Prelude.{◌≡◌, ◌≤◌};
ghost use Rattle.tree_check.specs.Scan.{next_column, going_on, first_digit, in_number, stepped};

use text::number::{digit_value, ending_byte, extended};

// How far a line has come: the column, and the value so far of the number in it, once it has a digit.
#[derive(Clone, Copy, Debug, PartialEq, Eq)]
pub struct Scan {
    pub column: usize,
    pub number: Option<u32>,
}

// What a byte makes of that, and the number that it ends.
#[derive(Clone, Copy, Debug, PartialEq, Eq)]
pub struct Step {
    pub scan: Scan,
    pub ended: Option<u32>,
}

fn next_column(last: usize, column: usize) -> usize
    requires { column ≤ last }
    ensures { result ≡ next_column last column }
{
    if column == last { 0 } else { column + 1 }
}

fn going_on(column: usize, value: u32) -> Step
    ensures { result ≡ going_on column value }
{
    Step {
        scan: Scan {
            column,
            number: Some(value),
        },
        ended: None,
    }
}

#[tactic(auto, unfolding(crate::specs::Scan::first_digit))]
fn first_digit(column: usize, byte: u8) -> Option<Step>
    ensures { result ≡ first_digit column byte }
{
    let value = digit_value(byte)?;
    Some(going_on(column, value))
}

#[tactic(auto, unfolding(crate::specs::Scan::in_number))]
fn in_number(last: usize, column: usize, value: u32, byte: u8) -> Option<Step>
    requires { column ≤ last }
    ensures { result ≡ in_number last column value byte }
{
    if byte == ending_byte(column == last) {
        return Some(Step {
            scan: Scan {
                column: next_column(last, column),
                number: None,
            },
            ended: Some(value),
        });
    }
    let value = extended(value, byte)?;
    Some(going_on(column, value))
}

impl Scan {
    // None where no good file has this byte.
    #[tactic(auto, unfolding(crate::specs::Scan::stepped))]
    pub fn step(self, last: usize, byte: u8) -> Option<Step>
        requires { self.column ≤ last }
        ensures { result ≡ stepped last self byte }
    {
        match self.number {
            None => first_digit(self.column, byte),
            Some(value) => in_number(last, self.column, value, byte),
        }
    }
}
