// What the statement walk refuses.
ghost use Rattle.std.specs.Prelude.{◌≡◌};
ghost use Rattle.walk.specs.Refusal.{refusal_code, refusal_place, refused_after, refused_value};

use values::refusal;

/// What the statement walk refuses, with the place of each: the block that the refusal names, else the innermost block
/// still being visited. A value's refusal is passed on as it is.
#[derive(Clone, Copy, Debug, PartialEq, Eq, Drop)]
pub enum Refusal {
    MissingBlock(u32),
    AlreadyEmitted(u32),
    ConsequentScheduled(u32),
    AlternateScheduled(u32),
    CaseScheduled(u32),
    ContinueBlockScheduled(u32),
    LoopScheduled(u32),
    LabelBlockScheduled(u32),
    ScopeBlockScheduled(u32),
    BranchAlternateScheduled(u32),
    NoBreakTarget(u32),
    NoContinueTarget(u32),
    ScopeBreak(u32),
    NoSuchLabel(u32),
    TooDeep(u32),
    TooManyVisits(u32),
    // these two never occur: the Rust has messages for them
    AlreadyScheduled(u32),
    UnscheduleOutOfOrder,
    Value(refusal::Refusal),
}

impl Refusal {
    /// The refusal's number.
    pub fn code(self) -> u32
        ensures { result ≡ refusal_code self }
    {
        match self {
            Refusal::MissingBlock(_) => 10,
            Refusal::AlreadyEmitted(_) => 11,
            Refusal::ConsequentScheduled(_) => 12,
            Refusal::AlternateScheduled(_) => 13,
            Refusal::CaseScheduled(_) => 14,
            Refusal::ContinueBlockScheduled(_) => 15,
            Refusal::LoopScheduled(_) => 16,
            Refusal::LabelBlockScheduled(_) => 17,
            Refusal::ScopeBlockScheduled(_) => 18,
            Refusal::BranchAlternateScheduled(_) => 19,
            Refusal::NoBreakTarget(_) => 20,
            Refusal::NoContinueTarget(_) => 21,
            Refusal::ScopeBreak(_) => 22,
            Refusal::NoSuchLabel(_) => 29,
            Refusal::TooDeep(_) => 30,
            Refusal::TooManyVisits(_) => 31,
            Refusal::AlreadyScheduled(_) => 90,
            Refusal::UnscheduleOutOfOrder => 91,
            Refusal::Value(refusal) => refusal.code(),
        }
    }

    /// The refusal's place: the number of a block.
    pub fn place(self) -> u32
        ensures { result ≡ refusal_place self }
    {
        match self {
            Refusal::MissingBlock(at)
            | Refusal::AlreadyEmitted(at)
            | Refusal::ConsequentScheduled(at)
            | Refusal::AlternateScheduled(at)
            | Refusal::CaseScheduled(at)
            | Refusal::ContinueBlockScheduled(at)
            | Refusal::LoopScheduled(at)
            | Refusal::LabelBlockScheduled(at)
            | Refusal::ScopeBlockScheduled(at)
            | Refusal::BranchAlternateScheduled(at)
            | Refusal::NoBreakTarget(at)
            | Refusal::NoContinueTarget(at)
            | Refusal::ScopeBreak(at)
            | Refusal::NoSuchLabel(at)
            | Refusal::TooDeep(at)
            | Refusal::TooManyVisits(at)
            | Refusal::AlreadyScheduled(at) => at,
            Refusal::UnscheduleOutOfOrder => 0,
            Refusal::Value(refusal) => refusal.place(),
        }
    }

    /// The refusal after the visits begun.
    pub fn after(self, visits: u32) -> Refused
        ensures { result ≡ refused_after self visits }
    {
        Refused {
            refusal: self,
            visits,
        }
    }
}

/// A refusal, and the visits begun before it.
#[derive(Clone, Copy, Debug, PartialEq, Eq, Drop)]
pub struct Refused {
    pub refusal: Refusal,
    pub visits: u32,
}

// A value's refusal ends the statement walk too.
impl From<refusal::Refused> for Refused {
    ghost from_gives = { λ refused error. error ≡ refused_value refused };

    fn from(refused: refusal::Refused) -> Refused {
        Refusal::Value(refused.refusal).after(refused.visits)
    }
}
