// The Rust's ControlFlowTarget and Context: which blocks are emitted, scheduled, catch handlers or scope fallthroughs,
// and the stack of the statements that a jump can leave. Each step takes the Context and hands the next one back.
//
// A step copies the scheduled set into a local and back, and leaves the stack's array to its caller: `schedule` gives
// the entry that went on in `pushed`, to be stored at `len - 1`, and `unschedule` is handed the entry that its caller
// reads there: a store into an array of a Context that goes by value, or a read from it, copies the whole Context, and
// so does a step that leaves `len` as it was. docs/PERFORMANCE.md has the times.
#![tactic(auto)]

/// Which entry is asked for.
pub mod rule;

ghost use Rattle.std.specs.Prelude.{◌≡◌, ◌+◌, ◌≤◌, ◌<◌, ◌||◌};
ghost use Rattle.definition.specs.Context.{has, target_block, is_loop, loops_of, continues_at, block_asked, break_kind};
ghost use Rattle.definition.specs.Context.{continue_kind};
ghost use Rattle.definition.specs.Tree.{kind_number};
ghost use Rattle.control.specs.Abstraction.{target_of, kind_of, found_block, resolution_of};
ghost use Rattle.control.specs.Contract.{Named, Room, Last, Created, Scheduled, Unscheduled, break_to, continue_to};

/// A block's number as the sets and the stack have it.
pub fn block_id(block: u32) -> u16
    requires { block ≤ 65535 }
    ensures { result ≡ block }
{
    block as u16
}

/// What an entry of the control stack stands for. A loop's `block` is its fallthrough.
#[derive(Clone, Copy, PartialEq, Eq, Drop)]
pub enum ControlFlowTarget {
    If {
        block: u16,
    },
    Switch {
        block: u16,
    },
    Case {
        block: u16,
    },
    Loop {
        block: u16,
        continue_block: u16,
        loop_block: u16,
    },
}

/// An entry of the control stack: a target under its id. `owns_loop` says that the target is a loop whose loop block
/// was not scheduled before: `schedule` finds it out.
#[derive(Clone, Copy, Drop)]
pub struct Entry {
    pub id: u16,
    pub target: ControlFlowTarget,
    pub owns_loop: bool,
}

/// A jump's kind, with its number in the row: 0 takes effect without a jump, 1 names a label, 2 acts on the innermost
/// loop or switch.
#[derive(Clone, Copy, PartialEq, Eq, Drop)]
pub enum ReactiveTerminalTargetKind {
    Implicit = 0,
    Labeled = 1,
    Unlabeled = 2,
}

/// What a jump resolves to: the entry that was found, the jump's kind, and how many loops lie above that entry.
#[derive(Clone, Copy, Drop)]
pub struct Resolution {
    pub entry: Entry,
    pub kind: ReactiveTerminalTargetKind,
    pub loops: u32,
}

/// Why `schedule` refuses a target: a loop's continue block is scheduled (15), or another target's block is (90, which
/// never occurs).
#[derive(Clone, Copy, PartialEq, Eq, Drop)]
pub enum Blocked {
    ContinueBlock,
    Block,
}

/// The state of the walk: a flag for each of the 1,024 blocks in each of four sets, and the stack, of which the first
/// `len` entries count. `pushed` is the entry that went on last (before the first: any entry), and `refused` says why
/// `schedule` refused it, if it did.
#[derive(Clone, Copy, Drop)]
pub struct Context {
    pub emitted: [bool; 1024],
    pub catch_handlers: [bool; 1024],
    pub scope_fallthroughs: [bool; 1024],
    pub len: usize,
    pub scheduled: [bool; 1024],
    pub pushed: Entry,
    pub refused: Option<Blocked>,
    pub next_schedule_id: u16,
    pub stack: [Entry; 1152],
}

impl ControlFlowTarget {
    /// The block that the target is scheduled for: a loop's fallthrough.
    pub fn block(self) -> u16
        ensures { result ≡ target_block (target_of self) }
    {
        match self {
            ControlFlowTarget::If { block }
            | ControlFlowTarget::Switch { block }
            | ControlFlowTarget::Case { block }
            | ControlFlowTarget::Loop { block, .. } => block,
        }
    }

    /// Whether this is a loop.
    pub fn is_loop(self) -> bool
        ensures { result ≡ is_loop (target_of self) }
    {
        matches!(self, ControlFlowTarget::Loop { .. })
    }

    /// Whether this is a loop with that continue block.
    pub fn continues_at(self, wanted: u16) -> bool
        ensures { result ≡ continues_at (target_of self) wanted }
    {
        match self {
            ControlFlowTarget::Loop { continue_block, .. } => continue_block == wanted,
            _ => false,
        }
    }

    /// The block that `schedule` tests, which a refusal names: a loop's continue block.
    pub fn block_asked(self) -> u16
        ensures { result ≡ block_asked (target_of self) }
    {
        match self {
            ControlFlowTarget::Loop { continue_block, .. } => continue_block,
            _ => self.block(),
        }
    }
}

impl ReactiveTerminalTargetKind {
    /// The kind's number in a row.
    pub fn number(self) -> u32
        ensures { result ≡ kind_number (kind_of self) }
    {
        self as u32
    }
}

// ---- sets of blocks

/// Whether a block is in either set: a catch handler counts as scheduled here, and nowhere else.
#[tactic(auto, unfolding(definition::specs::Context::has))]
pub fn is_scheduled(scheduled: &[bool; 1024], catch_handlers: &[bool; 1024], block: u16) -> bool
    requires { block < 1024 }
    ensures { result ≡ has scheduled.now block || has catch_handlers.now block }
{
    let at = block as usize;
    scheduled[at] || catch_handlers[at]
}

// ---- the search of the stack for a jump's target

/// The number of loops above the next entry down.
pub fn count_loop(loops: u32, target: ControlFlowTarget) -> u32
    requires { loops < 1152 }
    ensures { (result ≡ loops_of (target_of target) + loops) × (result ≤ loops + 1) }
{
    match target {
        ControlFlowTarget::Loop { .. } => loops + 1,
        _ => loops,
    }
}

// A loop gives Unlabeled, or Labeled if a loop lies above. Another entry gives Implicit at the top, else Labeled.
#[tactic(auto, using(crate::proofs::SearchLaws::break_labeled), unfolding(definition::specs::Context::break_kind))]
fn break_kind(is_loop: bool, top: bool, loops: u32) -> ReactiveTerminalTargetKind
    ensures { kind_of result ≡ break_kind is_loop top loops }
{
    if is_loop && loops == 0 {
        ReactiveTerminalTargetKind::Unlabeled
    } else if top && !is_loop {
        ReactiveTerminalTargetKind::Implicit
    } else {
        ReactiveTerminalTargetKind::Labeled
    }
}

// Labeled if a loop lies above, else Implicit at the top, else Unlabeled.
#[tactic(auto, using(crate::proofs::SearchLaws::continue_labeled), unfolding(definition::specs::Context::continue_kind))]
fn continue_kind(top: bool, loops: u32) -> ReactiveTerminalTargetKind
    ensures { kind_of result ≡ continue_kind top loops }
{
    if loops > 0 {
        ReactiveTerminalTargetKind::Labeled
    } else if top {
        ReactiveTerminalTargetKind::Implicit
    } else {
        ReactiveTerminalTargetKind::Unlabeled
    }
}

impl Resolution {
    /// The block that the jump's row names. For a continue too it is the loop's fallthrough.
    pub fn block(self) -> u16
        ensures { result ≡ found_block self }
    {
        self.entry.target.block()
    }
}

/// A break to the entry that was found below `loops` loops, `top` if it is the stack's last.
pub fn break_to(found: Entry, top: bool, loops: u32) -> Resolution
    ensures { (result.entry ≡ found) × (resolution_of result ≡ break_to (target_of found.target) top loops) }
{
    Resolution {
        entry: found,
        kind: break_kind(found.target.is_loop(), top, loops),
        loops,
    }
}

/// A continue of the loop that was found below `loops` loops, `top` if it is the stack's last.
pub fn continue_to(found: Entry, top: bool, loops: u32) -> Resolution
    ensures { (result.entry ≡ found) × (resolution_of result ≡ continue_to (target_of found.target) top loops) }
{
    Resolution {
        entry: found,
        kind: continue_kind(top, loops),
        loops,
    }
}

impl Context {
    /// No block in any set, and nothing on the stack.
    pub fn new() -> Context
        ensures { Created result }
    {
        let entry = Entry {
            id: 0,
            target: ControlFlowTarget::If { block: 0 },
            owns_loop: false,
        };
        Context {
            emitted: [false; 1024],
            catch_handlers: [false; 1024],
            scope_fallthroughs: [false; 1024],
            len: 0,
            scheduled: [false; 1024],
            pushed: entry,
            refused: None,
            next_schedule_id: 0,
            stack: [entry; 1152],
        }
    }

    /// The next Context, with the target under the next id in `pushed`, for its caller to store at `len - 1`. All
    /// blocks of the target are scheduled. A loop's fallthrough goes in without a test, and its continue block is
    /// tested after that. Where the test fails, `refused` says so, and the Context is of no more use.
    pub fn schedule(mut self, target: ControlFlowTarget) -> Context
        requires named { Named target }
        requires room { Room self }
        ensures { Scheduled target self result }
    {
        let mut scheduled = self.scheduled;
        let mut owns_loop = false;
        let busy;
        let refusal;
        match target {
            ControlFlowTarget::If { block }
            | ControlFlowTarget::Switch { block }
            | ControlFlowTarget::Case { block } => {
                busy = scheduled[block as usize];
                refusal = Blocked::Block;
                scheduled[block as usize] = true;
            }
            ControlFlowTarget::Loop {
                block,
                continue_block,
                loop_block,
            } => {
                scheduled[block as usize] = true; // without a test
                busy = scheduled[continue_block as usize];
                refusal = Blocked::ContinueBlock;
                scheduled[continue_block as usize] = true;
                owns_loop = !scheduled[loop_block as usize];
                scheduled[loop_block as usize] = true;
            }
        }
        self.scheduled = scheduled;
        self.refused = busy.then_some(refusal);
        self.pushed = Entry {
            id: self.next_schedule_id,
            target,
            owns_loop,
        };
        self.next_schedule_id += 1;
        self.len += 1;
        self
    }

    /// The next Context, without the stack's last entry, which the caller reads at `len - 1`. The entry's blocks are no
    /// longer scheduled: a loop's fallthrough and continue block whoever put them there, its loop block only if the
    /// loop owns it.
    pub fn unschedule(mut self, last: Entry) -> Context
        requires { Last self last }
        ensures { Unscheduled last self result }
    {
        let mut scheduled = self.scheduled;
        match last.target {
            ControlFlowTarget::If { block }
            | ControlFlowTarget::Switch { block }
            | ControlFlowTarget::Case { block } => {
                scheduled[block as usize] = false;
            }
            ControlFlowTarget::Loop {
                block,
                continue_block,
                loop_block,
            } => {
                scheduled[block as usize] = false;
                scheduled[continue_block as usize] = false;
                if last.owns_loop {
                    scheduled[loop_block as usize] = false;
                }
            }
        }
        self.scheduled = scheduled;
        self.len -= 1;
        self
    }
}
