// The blocks that a row names, in the order of M-110's lines: a Switch's case rows, then at most five blocks.
ghost use Rattle.std.specs.Prelude.{◌≡◌, ◌<◌};
ghost use Rattle.table.specs.Words.{block_count};
ghost use Rattle.table.specs.Ending.{ending};
ghost use Rattle.table.specs.Named.{Names, no_case, names_of};

use crate::checked::Table;
use crate::terminals::Terminal;

// Those of the `cases` case rows from `first_case` on, then these.
#[derive(Clone, Copy)]
pub struct Named {
    pub first_case: u32,
    pub cases: u32,
    pub blocks: [Option<u32>; 5],
}

fn no_case(blocks: [Option<u32>; 5]) -> Named
    ensures { result ≡ no_case blocks }
{
    Named {
        first_case: 0,
        cases: 0,
        blocks,
    }
}

// An arm for each terminal, so it is longer than other functions. The blocks stand by column; a Switch lists its cases before its fallthrough.
fn names_of(end: Terminal) -> Named
    ensures { result ≡ names_of (ending end) }
{
    match end {
        Terminal::Absent | Terminal::Unreachable | Terminal::Throw(_) | Terminal::Return(_) => {
            no_case([None; 5])
        }
        Terminal::Goto(end) => no_case([Some(end.block), None, None, None, None]),
        Terminal::If(end) => no_case([
            Some(end.consequent),
            Some(end.alternate),
            Some(end.fallthrough),
            None,
            None,
        ]),
        Terminal::Branch(end) => no_case([
            Some(end.consequent),
            Some(end.alternate),
            None,
            None,
            None,
        ]),
        Terminal::Switch(end) => Named {
            first_case: end.first,
            cases: end.number,
            blocks: [Some(end.fallthrough), None, None, None, None],
        },
        Terminal::DoWhile(end) => no_case([
            Some(end.loop_block),
            Some(end.test),
            Some(end.fallthrough),
            None,
            None,
        ]),
        Terminal::While(end) => no_case([
            Some(end.test),
            Some(end.loop_block),
            Some(end.fallthrough),
            None,
            None,
        ]),
        Terminal::For(end) => no_case([
            Some(end.init),
            Some(end.test),
            end.update,
            Some(end.loop_block),
            Some(end.fallthrough),
        ]),
        Terminal::ForOf(end) => no_case([
            Some(end.init),
            Some(end.test),
            Some(end.loop_block),
            Some(end.fallthrough),
            None,
        ]),
        Terminal::ForIn(end) => no_case([
            Some(end.init),
            Some(end.loop_block),
            Some(end.fallthrough),
            None,
            None,
        ]),
        Terminal::Logical(end) => no_case([
            Some(end.test),
            Some(end.fallthrough),
            None,
            None,
            None,
        ]),
        Terminal::Ternary(end) => no_case([
            Some(end.test),
            Some(end.fallthrough),
            None,
            None,
            None,
        ]),
        Terminal::Optional(end) => no_case([
            Some(end.test),
            Some(end.fallthrough),
            None,
            None,
            None,
        ]),
        Terminal::Label(end) => no_case([Some(end.block), Some(end.fallthrough), None, None, None]),
        Terminal::Sequence(end) => no_case([
            Some(end.block),
            Some(end.fallthrough),
            None,
            None,
            None,
        ]),
        Terminal::MaybeThrow(end) => no_case([Some(end.continuation), None, None, None, None]),
        Terminal::Try(end) => no_case([
            Some(end.block),
            Some(end.handler),
            Some(end.fallthrough),
            None,
            None,
        ]),
        Terminal::Scope(end) | Terminal::PrunedScope(end) => no_case([
            Some(end.block),
            Some(end.fallthrough),
            None,
            None,
            None,
        ]),
    }
}

impl Table<'_> {
    #[tactic(auto, using(crate::proofs::NamedLaws::names_by))]
    pub fn named(self, row: u32) -> Named
        requires { row < block_count self.words.now }
        ensures { Names self.entry.words.now row result }
    {
        names_of(self.terminal(row))
    }
}
