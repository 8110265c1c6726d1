// A row by the names of its columns; a block's terminal has its own (terminals.rt).
ghost use Rattle.std.specs.Prelude.{◌≡◌, ◌<◌, not, eqb};
ghost use Rattle.table.specs.Words.{block_count, instruction_count, case_count, place_count, identifier_count, place_word, identifier_word};
ghost use Rattle.table.specs.Table.{table_of, block_at, operation_of};
ghost use Rattle.table.specs.Ending.{operating};
ghost use Rattle.table.specs.Promise.{Heads, Instructs, Operates, Chooses};

use crate::checked::Table;
use crate::words::Words;

// Where a block's terminal or an instruction stands in the source. 0 and 0 is none.
// (Not an option: a row only carries the two numbers on.)
#[derive(Clone, Copy)]
pub struct Span {
    pub from: u32,
    pub to: u32,
}

// What a block has beside its terminal: its instructions are `count` rows from `first` on.
#[derive(Clone, Copy)]
pub struct BlockHead {
    pub first: u32,
    pub count: u32,
    pub id: u32,
    pub span: Span,
}

// What an instruction has beside its operation.
#[derive(Clone, Copy)]
pub struct InstructionHead {
    pub id: u32,
    pub lvalue: u32,
    pub span: Span,
}

// Paper 01: "Code 0 other, 1 LoadLocal, 2 StoreLocal".
#[derive(Clone, Copy)]
pub enum Operation {
    Other,
    LoadLocal { place: u32 },
    StoreLocal { stored_to: u32, stored_value: u32 },
}

// `test` is 65,535 for the default case. A number is plainer than an option here: a CASE row only carries it on.
#[derive(Clone, Copy)]
pub struct Case {
    pub test: u32,
    pub block: u32,
}

#[tactic(auto, unfolding(crate::specs::Table::operation_of))]
fn operation_of(code: u32, p: u32, q: u32) -> Operation
    ensures { operating result ≡ operation_of code p q }
{
    match code {
        0 => Operation::Other,
        1 => Operation::LoadLocal { place: p },
        _ => Operation::StoreLocal {
            stored_to: p,
            stored_value: q,
        },
    }
}

// A row's number stays a `u32` with a bound: a type of its own would be made, with the same bound, wherever a column is read.
impl Table<'_> {
    #[tactic(auto, using(crate::proofs::ColumnLaws::spans))]
    pub fn span(self, block: u32) -> Span
        requires { block < block_count self.words.now }
        ensures { result ≡ (block_at (table_of self.entry.words.now) block).span }
    {
        let words = Words { words: self.words };
        Span {
            from: words.block_word(block, 9),
            to: words.block_word(block, 10),
        }
    }

    #[tactic(auto, using(crate::proofs::ColumnLaws::heads))]
    pub fn block(self, block: u32) -> BlockHead
        requires { block < block_count self.words.now }
        ensures { Heads self.entry.words.now block result.first result.count result.id result.span }
    {
        let words = Words { words: self.words };
        BlockHead {
            first: words.block_word(block, 0),
            count: words.block_word(block, 1),
            id: words.block_word(block, 8),
            span: self.span(block),
        }
    }

    pub fn instruction(self, instruction: u32) -> InstructionHead
        requires { instruction < instruction_count self.words.now }
        ensures { Instructs self.entry.words.now instruction result.id result.lvalue result.span }
    {
        let words = Words { words: self.words };
        InstructionHead {
            id: words.instruction_word(instruction, 0),
            lvalue: words.instruction_word(instruction, 1),
            span: Span {
                from: words.instruction_word(instruction, 5),
                to: words.instruction_word(instruction, 6),
            },
        }
    }

    pub fn operation(self, instruction: u32) -> Operation
        requires { instruction < instruction_count self.words.now }
        ensures { Operates self.entry.words.now instruction (operating result) }
    {
        let words = Words { words: self.words };
        operation_of(
            words.instruction_word(instruction, 2),
            words.instruction_word(instruction, 3),
            words.instruction_word(instruction, 4),
        )
    }

    pub fn case(self, case: u32) -> Case
        requires { case < case_count self.words.now }
        ensures { Chooses self.entry.words.now case result.test result.block }
    {
        let words = Words { words: self.words };
        Case {
            test: words.case_word(case, 0),
            block: words.case_word(case, 1),
        }
    }

    // The identifier of a place.
    pub fn identifier(self, place: u32) -> u32
        requires { place < place_count self.words.now }
        ensures { result ≡ place_word self.entry.words.now place }
    {
        let words = Words { words: self.words };
        words.place_word(place)
    }

    // Whether an identifier is named.
    pub fn is_named(self, identifier: u32) -> bool
        requires { identifier < identifier_count self.words.now }
        ensures { result ≡ not (eqb (identifier_word self.entry.words.now identifier) 0) }
    {
        let words = Words { words: self.words };
        words.identifier_word(identifier) != 0
    }
}
