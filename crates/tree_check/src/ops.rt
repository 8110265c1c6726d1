// The ops of rows as words, for the checker and the runner. A lent row may have any word there, and keeps it, so both match over these numbers:
// an enum would be made of the word anew at each match, with an answer each time for a word that is no op.
use values::op::Op;

pub const PLAIN: u32 = Op::Plain as u32;

pub const LOAD: u32 = Op::Load as u32;

pub const UNDEF: u32 = Op::Undef as u32;

pub const INSTR: u32 = Op::Instr as u32;

pub const SEQ: u32 = Op::Seq as u32;

pub const LOGICAL: u32 = Op::Logical as u32;

pub const COND: u32 = Op::Cond as u32;

pub const OPTIONAL: u32 = Op::Optional as u32;

pub const BLOCK: u32 = Op::Block as u32;

pub const IF: u32 = Op::If as u32;

pub const CASE: u32 = Op::Case as u32;

pub const SWITCH: u32 = Op::Switch as u32;

pub const DOWHILE: u32 = Op::DoWhile as u32;

pub const WHILE: u32 = Op::While as u32;

pub const FOR: u32 = Op::For as u32;

pub const FOROF: u32 = Op::ForOf as u32;

pub const FORIN: u32 = Op::ForIn as u32;

pub const LABEL: u32 = Op::Label as u32;

pub const TRY: u32 = Op::Try as u32;

pub const SCOPE: u32 = Op::Scope as u32;

pub const PRUNED: u32 = Op::Pruned as u32;

pub const RETURN: u32 = Op::Return as u32;

pub const THROW: u32 = Op::Throw as u32;

pub const BREAK: u32 = Op::Break as u32;

pub const CONTINUE: u32 = Op::Continue as u32;
