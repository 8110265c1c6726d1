// The state of the walk: the Context, what is put out, and the visits begun. Each step changes one part of it, as in
// the Rust.
ghost use Rattle.std.specs.Prelude.{◌≡◌, ◌≤◌, ◌<◌, IfSome};
ghost use Rattle.table.specs.Words.{block_count};
ghost use Rattle.table.specs.Table.{table_of};
ghost use Rattle.table.specs.Columns.{maybe_of};
ghost use Rattle.definition.specs.Context.{is_scheduled, schedule, unschedule, target_loop, schedule_catch_handler};
ghost use Rattle.definition.specs.Statement.{enter_block, unless_scheduled, schedule_if, schedule_switch};
ghost use Rattle.definition.specs.Statement.{unschedule_if, unschedule_all, mark_scope_fallthrough_if, loop_is_taken};
ghost use Rattle.definition.specs.Result.{ok};
ghost use Rattle.control.specs.Abstraction.{target_of};
ghost use Rattle.control.specs.Contract as control;
ghost use Rattle.control.specs.Contract.{Named, Scheduled, Last, Unscheduled};
ghost use Rattle.walk.specs.State.{state, last_ids, blocked_so, Whole, Fine, Enters, Does, Room, Shifted, entries_if};
ghost use Rattle.walk.specs.State.{Reaches, Refuses, Marked};

use crate::refusal::{Refusal, Refused};
use control::{Blocked, Context, ControlFlowTarget, Entry, block_id, is_scheduled};
use table::Table;
use table::terminals::Terminal;
use values::result::Tally;

/// The state of the walk. `tree` and `index` are lent: rows and lines are written as far as they fit, and counted on.
/// `tally` has the rows out and the visits begun, and `lines` the lines out.
#[derive(Drop)]
pub struct Walk<'a> {
    pub cx: Context,
    pub tally: Tally,
    pub lines: u32,
    pub tree: &'a mut [u32],
    pub index: &'a mut [u32],
}

// Why `schedule` refuses a target, at the block that it tested.
fn blocked(reason: Blocked, target: ControlFlowTarget) -> Refusal
    ensures { result ≡ blocked_so reason target }
{
    let block = target.block_asked() as u32;
    match reason {
        Blocked::ContinueBlock => Refusal::ContinueBlockScheduled(block),
        Blocked::Block => Refusal::AlreadyScheduled(block),
    }
}

/// The number of entries that a statement has of its own: one if it has a label.
pub fn entries_if(label: Option<u32>) -> u32
    ensures { result ≡ entries_if label }
{
    match label {
        None => 0,
        Some(_) => 1,
    }
}

// The Context goes in by value, and the next one comes back. In functions of their own, so that LLVM need not copy the
// Context whole.
fn scheduled(cx: &mut Context, target: ControlFlowTarget)
    requires named { Named target }
    requires room { control.Room cx.old }
    ensures { Scheduled target cx.old cx.new }
{
    *cx = cx.schedule(target);
}

fn unscheduled(cx: &mut Context, last: Entry)
    requires { Last cx.old last }
    ensures { Unscheduled last cx.old cx.new }
{
    *cx = cx.unschedule(last);
}

impl Walk<'_> {
    /// A visit begins: the block is there, and is emitted from now on. Refuses 31, 10 and 11, in this order.
    pub fn enter_block(&mut self, table: Table<'_>, block: u32) -> Result<(), Refused>
        requires there { block < block_count table.words.now }
        requires fine { Fine self.old 0 0 }
        ensures { Enters table.entry.words.now block
            (enter_block (table_of table.entry.words.now) block (state self.old)) self.old result self.new }
    {
        if self.tally.visits == 8192 {
            return Err(Refusal::TooManyVisits(block).after(self.tally.visits));
        }
        self.tally.visits += 1;
        if table.is_absent(block) {
            return Err(Refusal::MissingBlock(block).after(self.tally.visits));
        }
        if self.cx.emitted[block as usize] {
            return Err(Refusal::AlreadyEmitted(block).after(self.tally.visits));
        }
        self.cx.emitted[block as usize] = true;
        Ok(())
    }

    /// Whether a block is scheduled. A catch handler counts as scheduled here, and nowhere else.
    #[tactic(auto, unfolding(definition::specs::Context::is_scheduled, control::specs::Abstraction::context_of))]
    pub fn is_scheduled(&self, block: u32) -> bool
        requires { block < 1024 }
        ensures { result ≡ is_scheduled (state self.now) block }
    {
        is_scheduled(&self.cx.scheduled, &self.cx.catch_handlers, block_id(block))
    }

    /// Refuses a nested block that is scheduled.
    pub fn refuse_scheduled(&self, block: u32, refusal: Refusal) -> Result<(), Refused>
        requires { block < 1024 }
        ensures { Refuses (is_scheduled (state self.now) block) refusal self.now result }
    {
        if self.is_scheduled(block) {
            return Err(refusal.after(self.tally.visits));
        }
        Ok(())
    }

    /// Whether a loop block is scheduled, or is the loop's fallthrough: 16. It is asked before the loop is scheduled.
    #[tactic(auto, unfolding(definition::specs::Statement::loop_is_taken))]
    pub fn loop_is_taken(&self, loop_block: u32, fallthrough: u32) -> bool
        requires { loop_block < 1024 }
        ensures { result ≡ loop_is_taken (state self.now) loop_block fallthrough }
    {
        self.is_scheduled(loop_block) || loop_block == fallthrough
    }

    /// The fallthrough as the statement's label: none where it is scheduled.
    #[tactic(auto, unfolding(definition::specs::Statement::unless_scheduled))]
    pub fn unless_scheduled(&self, fallthrough: u32) -> Option<u32>
        requires { fallthrough < 1024 }
        ensures label { maybe_of result ≡ unless_scheduled (state self.now) fallthrough }
        ensures there { IfSome result (λ block. block ≡ fallthrough) }
    {
        if self.is_scheduled(fallthrough) {
            return None;
        }
        Some(fallthrough)
    }

    /// The same for If, Switch, While, Label and Try, which ask first whether it is reachable. Refuses 10 where it is
    /// missing.
    pub fn unless_unreachable(
        &self,
        table: Table<'_>,
        fallthrough: u32,
    ) -> Result<Option<u32>, Refused>
        requires { fallthrough < block_count table.words.now }
        ensures { Reaches table.entry.words.now (state self.now) fallthrough result }
    {
        match table.terminal(fallthrough) {
            Terminal::Absent => Err(Refusal::MissingBlock(fallthrough).after(self.tally.visits)),
            Terminal::Unreachable => Ok(None),
            _ => Ok(self.unless_scheduled(fallthrough)),
        }
    }

    /// Schedules any target: it is on the stack under the next id, and its blocks are scheduled. Refuses 15 a loop
    /// whose continue block is scheduled. No other function schedules. Inlined into the recursion, each level would
    /// keep copies of the scheduled set.
    #[inline(never)]
    pub fn schedule(&mut self, target: ControlFlowTarget) -> Result<(), Refused>
        requires named { Named target }
        requires room { Room self.old.cx }
        ensures { Does (schedule (target_of target) (state self.old)) self.old 1 0 result self.new }
    {
        scheduled(&mut self.cx, target);
        if let Some(reason) = self.cx.refused {
            return Err(blocked(reason, target).after(self.tally.visits));
        }
        self.cx.stack[self.cx.len - 1] = self.cx.pushed; // the entry, in its place
        Ok(())
    }

    /// An If, Label, Try or scope is on the stack only if it has a label.
    #[tactic(auto, unfolding(definition::specs::Statement::schedule_if))]
    pub fn schedule_if(&mut self, label: Option<u32>) -> Result<(), Refused>
        requires named { IfSome label (λ block. block < 1024) }
        requires room { Room self.old.cx }
        ensures { Does (schedule_if (maybe_of label) (state self.old)) self.old (entries_if label) 0 result self.new }
    {
        match label {
            None => Ok(()),
            Some(block) => self.schedule(ControlFlowTarget::If {
                block: block_id(block),
            }),
        }
    }

    /// The same of a Switch.
    #[tactic(auto, unfolding(definition::specs::Statement::schedule_switch))]
    pub fn schedule_switch(&mut self, label: Option<u32>) -> Result<(), Refused>
        requires named { IfSome label (λ block. block < 1024) }
        requires room { Room self.old.cx }
        ensures { Does (schedule_switch (maybe_of label) (state self.old))
            self.old (entries_if label) 0 result self.new }
    {
        match label {
            None => Ok(()),
            Some(block) => self.schedule(ControlFlowTarget::Switch {
                block: block_id(block),
            }),
        }
    }

    /// A scope's fallthrough, if it is taken, is one from now on.
    pub fn mark_scope_fallthrough_if(&mut self, fallthrough: Option<u32>)
        requires named { IfSome fallthrough (λ block. block < 1024) }
        requires whole { Whole self.old.cx }
        ensures { Marked (mark_scope_fallthrough_if (maybe_of fallthrough) (state self.old)) self.old self.new }
    {
        if let Some(block) = fallthrough {
            self.cx.scope_fallthroughs[block as usize] = true;
        }
    }

    /// A catch handler counts as scheduled from now on.
    pub fn schedule_catch_handler(&mut self, handler: u32)
        requires named { handler < 1024 }
        requires whole { Whole self.old.cx }
        ensures { Marked (schedule_catch_handler handler (state self.old)) self.old self.new }
    {
        self.cx.catch_handlers[handler as usize] = true;
    }

    /// A loop is always on the stack, even with no label.
    pub fn schedule_loop(
        &mut self,
        fallthrough: u32,
        continue_block: u32,
        loop_block: u32,
    ) -> Result<(), Refused>
        requires fallthrough_bound { fallthrough < 1024 }
        requires continue_bound { continue_block < 1024 }
        requires loop_bound { loop_block < 1024 }
        requires room { Room self.old.cx }
        ensures { Does (schedule (target_loop fallthrough continue_block loop_block) (state self.old))
            self.old 1 0 result self.new }
    {
        self.schedule(ControlFlowTarget::Loop {
            block: block_id(fallthrough),
            continue_block: block_id(continue_block),
            loop_block: block_id(loop_block),
        })
    }

    /// Takes off the stack's last entry, whose id is this.
    #[inline(never)]
    pub fn unschedule(&mut self, id: u16) -> Result<(), Refused>
        requires { Whole self.old.cx }
        ensures { Does (unschedule id (state self.old)) self.old 0 1 result self.new }
    {
        if self.cx.len == 0 {
            return Err(Refusal::UnscheduleOutOfOrder.after(self.tally.visits));
        }
        let last = self.cx.stack[self.cx.len - 1];
        if last.id != id {
            return Err(Refusal::UnscheduleOutOfOrder.after(self.tally.visits));
        }
        unscheduled(&mut self.cx, last);
        Ok(())
    }

    /// Takes off so many of the stack's last entries: those of a Switch and its cases. Their ids, which the Rust keeps
    /// in a list, stand on the stack.
    #[inline(never)]
    pub fn unschedule_all(&mut self, count: u32)
        requires whole { Whole self.old.cx }
        requires there { count ≤ self.old.cx.len }
        ensures same { unschedule_all (last_ids count (state self.old)) (state self.old) ≡ ok (state self.new) }
        ensures off { Shifted self.old self.new 0 count }
    {
        let mut left = count;
        while left > 0 {
            let last = self.cx.stack[self.cx.len - 1];
            unscheduled(&mut self.cx, last);
            left -= 1;
        }
    }

    /// Takes off the entry of a statement with a label.
    #[tactic(auto, unfolding(definition::specs::Statement::unschedule_if))]
    pub fn unschedule_if(&mut self, label: Option<u32>, id: u16) -> Result<(), Refused>
        requires { Whole self.old.cx }
        ensures { Does (unschedule_if (maybe_of label) id (state self.old))
            self.old 0 (entries_if label) result self.new }
    {
        match label {
            None => Ok(()),
            Some(_) => self.unschedule(id),
        }
    }
}
