// A block's terminal by the names of its columns, and what it names is there.
ghost use Rattle.std.specs.Prelude.{◌≡◌, ◌<◌};
ghost use Rattle.table.specs.Words.{block_count};
ghost use Rattle.table.specs.Table.{unless_none, variant_of, terminal_of, is_absent, terminal_at, table_of};
ghost use Rattle.table.specs.Columns.{goto_variant, maybe_of};
ghost use Rattle.table.specs.Ending.{ending};
ghost use Rattle.table.specs.Promise.{Ends};

use crate::checked::Table;
use crate::words::Words;

#[derive(Clone, Copy)]
pub struct Throw {
    pub value: u32,
}

#[derive(Clone, Copy)]
pub struct Return {
    pub value: u32,
}

#[derive(Clone, Copy, Debug, PartialEq, Eq)]
pub enum GotoVariant {
    Break,
    Continue,
    Try,
}

#[derive(Clone, Copy)]
pub struct Goto {
    pub block: u32,
    pub variant: GotoVariant,
}

#[derive(Clone, Copy)]
pub struct If {
    pub test: u32,
    pub consequent: u32,
    pub alternate: u32,
    pub fallthrough: u32,
}

#[derive(Clone, Copy)]
pub struct Branch {
    pub test: u32,
    pub consequent: u32,
    pub alternate: u32,
}

// The cases are `number` rows from `first` on.
#[derive(Clone, Copy)]
pub struct Switch {
    pub test: u32,
    pub first: u32,
    pub number: u32,
    pub fallthrough: u32,
}

#[derive(Clone, Copy)]
pub struct DoWhile {
    pub loop_block: u32,
    pub test: u32,
    pub fallthrough: u32,
}

#[derive(Clone, Copy)]
pub struct While {
    pub test: u32,
    pub loop_block: u32,
    pub fallthrough: u32,
}

#[derive(Clone, Copy)]
pub struct For {
    pub init: u32,
    pub test: u32,
    pub update: Option<u32>,
    pub loop_block: u32,
    pub fallthrough: u32,
}

#[derive(Clone, Copy)]
pub struct ForOf {
    pub init: u32,
    pub test: u32,
    pub loop_block: u32,
    pub fallthrough: u32,
}

#[derive(Clone, Copy)]
pub struct ForIn {
    pub init: u32,
    pub loop_block: u32,
    pub fallthrough: u32,
}

// `operator` is 0 or, 1 and, 2 coalesce. A number is plainer than an enum here: a LOGICAL row only carries it on.
#[derive(Clone, Copy)]
pub struct Logical {
    pub operator: u32,
    pub test: u32,
    pub fallthrough: u32,
}

#[derive(Clone, Copy)]
pub struct Ternary {
    pub test: u32,
    pub fallthrough: u32,
}

// `flag` is 0 or 1; an OPTIONAL row only carries it on.
#[derive(Clone, Copy)]
pub struct Optional {
    pub flag: u32,
    pub test: u32,
    pub fallthrough: u32,
}

#[derive(Clone, Copy)]
pub struct Label {
    pub block: u32,
    pub fallthrough: u32,
}

#[derive(Clone, Copy)]
pub struct Sequence {
    pub block: u32,
    pub fallthrough: u32,
}

#[derive(Clone, Copy)]
pub struct MaybeThrow {
    pub continuation: u32,
}

// `binding` is 65,535 where there is none. A number is plainer than an option here: a TRY row only carries it on.
#[derive(Clone, Copy)]
pub struct Try {
    pub block: u32,
    pub handler: u32,
    pub fallthrough: u32,
    pub binding: u32,
}

// A Scope or a PrunedScope, which have the same columns.
#[derive(Clone, Copy)]
pub struct Scope {
    pub block: u32,
    pub fallthrough: u32,
    pub scope: u32,
}

// Paper 01, "Codes and columns": a variant for each of the 22 codes, in their order. Absent is 0, "no such block". What each stands for:
// specs/Ending.antt.
#[derive(Clone, Copy)]
pub enum Terminal {
    Absent,
    Unreachable,
    Throw(Throw),
    Return(Return),
    Goto(Goto),
    If(If),
    Branch(Branch),
    Switch(Switch),
    DoWhile(DoWhile),
    While(While),
    For(For),
    ForOf(ForOf),
    ForIn(ForIn),
    Logical(Logical),
    Ternary(Ternary),
    Optional(Optional),
    Label(Label),
    Sequence(Sequence),
    MaybeThrow(MaybeThrow),
    Try(Try),
    Scope(Scope),
    PrunedScope(Scope),
}

// A row of a column where 65,535 means none.
#[tactic(auto, unfolding(crate::specs::Table::unless_none), using(crate::proofs::BlockLaws::some_number))]
fn unless_none(row: u32) -> Option<u32>
    ensures { maybe_of result ≡ unless_none row }
{
    if row == 65535 { None } else { Some(row) }
}

// A checked table has no number above 2.
#[tactic(auto, unfolding(crate::specs::Table::variant_of), using(crate::proofs::BlockLaws::try_variant))]
fn goto_variant(number: u32) -> GotoVariant
    ensures { goto_variant result ≡ variant_of number }
{
    match number {
        0 => GotoVariant::Break,
        1 => GotoVariant::Continue,
        _ => GotoVariant::Try,
    }
}

// An arm for each of the 22 codes, in the paper's order, so it is longer than other functions. Inline, so that a caller's match and this one
// become one.
#[inline]
#[tactic(auto, unfolding(crate::specs::Table::terminal_of))]
fn terminal_of(code: u32, a: u32, b: u32, c: u32, d: u32, e: u32) -> Terminal
    ensures { ending result ≡ terminal_of code a b c d e }
{
    match code {
        1 => Terminal::Unreachable,
        2 => Terminal::Throw(Throw { value: a }),
        3 => Terminal::Return(Return { value: a }),
        4 => Terminal::Goto(Goto {
            block: a,
            variant: goto_variant(b),
        }),
        5 => Terminal::If(If {
            test: a,
            consequent: b,
            alternate: c,
            fallthrough: d,
        }),
        6 => Terminal::Branch(Branch {
            test: a,
            consequent: b,
            alternate: c,
        }),
        7 => Terminal::Switch(Switch {
            test: a,
            first: b,
            number: c,
            fallthrough: d,
        }),
        8 => Terminal::DoWhile(DoWhile {
            loop_block: a,
            test: b,
            fallthrough: c,
        }),
        9 => Terminal::While(While {
            test: a,
            loop_block: b,
            fallthrough: c,
        }),
        10 => Terminal::For(For {
            init: a,
            test: b,
            update: unless_none(c),
            loop_block: d,
            fallthrough: e,
        }),
        11 => Terminal::ForOf(ForOf {
            init: a,
            test: b,
            loop_block: c,
            fallthrough: d,
        }),
        12 => Terminal::ForIn(ForIn {
            init: a,
            loop_block: b,
            fallthrough: c,
        }),
        13 => Terminal::Logical(Logical {
            operator: a,
            test: b,
            fallthrough: c,
        }),
        14 => Terminal::Ternary(Ternary {
            test: a,
            fallthrough: b,
        }),
        15 => Terminal::Optional(Optional {
            flag: a,
            test: b,
            fallthrough: c,
        }),
        16 => Terminal::Label(Label {
            block: a,
            fallthrough: b,
        }),
        17 => Terminal::Sequence(Sequence {
            block: a,
            fallthrough: b,
        }),
        18 => Terminal::MaybeThrow(MaybeThrow { continuation: a }),
        19 => Terminal::Try(Try {
            block: a,
            handler: b,
            fallthrough: c,
            binding: d,
        }),
        20 => Terminal::Scope(Scope {
            block: a,
            fallthrough: b,
            scope: c,
        }),
        21 => Terminal::PrunedScope(Scope {
            block: a,
            fallthrough: b,
            scope: c,
        }),
        _ => Terminal::Absent,
    }
}

impl Table<'_> {
    // The block's terminal.
    #[inline]
    pub fn terminal(self, block: u32) -> Terminal
        requires { block < block_count self.words.now }
        ensures { Ends self.entry.words.now block (ending result) }
    {
        let words = Words { words: self.words };
        terminal_of(
            words.block_word(block, 2),
            words.block_word(block, 3),
            words.block_word(block, 4),
            words.block_word(block, 5),
            words.block_word(block, 6),
            words.block_word(block, 7),
        )
    }

    // Whether there is no such block: paper 01's code 0.
    #[tactic(auto, using(crate::proofs::TerminalLaws::absent_by))]
    pub fn is_absent(self, block: u32) -> bool
        requires { block < block_count self.words.now }
        ensures { result ≡ is_absent (terminal_at (table_of self.entry.words.now) block) }
    {
        let words = Words { words: self.words };
        words.block_word(block, 2) == 0
    }
}
