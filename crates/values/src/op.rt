// Paper 01, "Tree rows": the ops.
ghost use Rattle.std.specs.Prelude.{◌≡◌};
ghost use Rattle.values.specs.Ops.{number_of};

#[derive(Clone, Copy, Debug, PartialEq, Eq, Drop)]
pub enum Op {
    Plain = 1,
    Load = 2,
    Undef = 3,
    Instr = 4,
    Seq = 5,
    Logical = 6,
    Cond = 7,
    Optional = 8,
    Block = 9,
    If = 10,
    Case = 11,
    Switch = 12,
    DoWhile = 13,
    While = 14,
    For = 15,
    ForOf = 16,
    ForIn = 17,
    Label = 18,
    Try = 19,
    Scope = 20,
    Pruned = 21,
    Return = 22,
    Throw = 23,
    Break = 24,
    Continue = 25,
}

impl Op {
    pub fn number(self) -> u32
        ensures { result ≡ number_of self }
    {
        self as u32
    }
}
