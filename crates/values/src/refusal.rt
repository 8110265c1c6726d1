// What a value walk refuses, with the place of each: the block that paper 01 names, at 30 and 31 the block not visited, else the innermost block
// still being visited.
ghost use Rattle.std.specs.Prelude.{◌≡◌};
ghost use Rattle.values.specs.Refusal.{code_of, place_of, refused_after};

// Paper 01's number of each: `code_of` in specs/Refusal.antt.
#[derive(Clone, Copy, Debug, PartialEq, Eq, Drop)]
pub enum Refusal {
    MissingBlock(u32),
    FallthroughReached(u32),
    EmptyGoto(u32),
    TestNotEndedByBranch(u32),
    LabelInValueBlock(u32),
    OtherKindInValueBlock(u32),
    NoInstruction(u32),
    TooDeep(u32),
    TooManyVisits(u32),
    // the Rust has a message here that never occurs: visit_value_block handles a MaybeThrow itself
    MaybeThrowInValueTerminal(u32),
}

impl Refusal {
    pub fn code(self) -> u32
        ensures { result ≡ code_of self }
    {
        match self {
            Refusal::MissingBlock(_) => 10,
            Refusal::FallthroughReached(_) => 23,
            Refusal::EmptyGoto(_) => 24,
            Refusal::TestNotEndedByBranch(_) => 25,
            Refusal::LabelInValueBlock(_) => 26,
            Refusal::OtherKindInValueBlock(_) => 27,
            Refusal::NoInstruction(_) => 28,
            Refusal::TooDeep(_) => 30,
            Refusal::TooManyVisits(_) => 31,
            Refusal::MaybeThrowInValueTerminal(_) => 92,
        }
    }

    pub fn place(self) -> u32
        ensures { result ≡ place_of self }
    {
        match self {
            Refusal::MissingBlock(at)
            | Refusal::FallthroughReached(at)
            | Refusal::EmptyGoto(at)
            | Refusal::TestNotEndedByBranch(at)
            | Refusal::LabelInValueBlock(at)
            | Refusal::OtherKindInValueBlock(at)
            | Refusal::NoInstruction(at)
            | Refusal::TooDeep(at)
            | Refusal::TooManyVisits(at)
            | Refusal::MaybeThrowInValueTerminal(at) => at,
        }
    }

    // The refusal after the visits begun.
    pub(crate) fn after(self, visits: u32) -> Refused
        ensures { result ≡ refused_after self visits }
    {
        Refused {
            refusal: self,
            visits,
        }
    }
}

// A refusal, and the visits begun before it.
#[derive(Clone, Copy, Debug, PartialEq, Eq, Drop)]
pub struct Refused {
    pub refusal: Refusal,
    pub visits: u32,
}
