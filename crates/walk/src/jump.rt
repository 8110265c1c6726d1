// The Rust's get_break_target and get_continue_target, visit_break and visit_continue.
ghost use Rattle.std.specs.Prelude.{◌≡◌, ◌<◌, ℕ, IfSome};
ghost use Rattle.definition.specs.Context.{get_break_target, get_continue_target};
ghost use Rattle.definition.specs.Statement.{visit_break, visit_continue};
ghost use Rattle.control.specs.Abstraction.{context_of, found_block, resolved_of};
ghost use Rattle.walk.specs.Around.{around_of};
ghost use Rattle.walk.specs.Jump.{Jumped, Continued};
ghost use Rattle.walk.specs.State.{state, Whole, Fine};

use crate::around::{Around, break_kind_in, break_unnamed, continue_unnamed};
use crate::refusal::{Refusal, Refused};
use crate::state::Walk;
use control::{
    Context, ReactiveTerminalTargetKind, Resolution, block_id, break_to, continue_to, count_loop,
};
use values::op::Op;

/// What a break to `block` resolves to: the innermost entry of the stack whose block it is.
pub fn get_break_target(cx: &Context, block: u16) -> Option<Resolution>
    requires { Whole cx.now }
    ensures found { (visits : ℕ) → resolved_of result ≡ get_break_target (context_of visits cx.now) block }
    ensures block { IfSome result (λ found. found_block found ≡ block) }
{
    let mut at = cx.len;
    let mut loops: u32 = 0;
    loop {
        if at == 0 {
            break None;
        }
        let top = at == cx.len;
        at -= 1;
        let entry = cx.stack[at];
        if entry.target.block() == block {
            break Some(break_to(entry, top, loops));
        }
        loops = count_loop(loops, entry.target);
    }
}

/// What a continue at `block` resolves to: the innermost loop on the stack with this continue block.
pub fn get_continue_target(cx: &Context, block: u16) -> Option<Resolution>
    requires { Whole cx.now }
    ensures { (visits : ℕ) → resolved_of result ≡ get_continue_target (context_of visits cx.now) block }
{
    let mut at = cx.len;
    let mut loops: u32 = 0;
    loop {
        if at == 0 {
            break None;
        }
        let top = at == cx.len;
        at -= 1;
        let entry = cx.stack[at];
        if entry.target.continues_at(block) {
            break Some(continue_to(entry, top, loops));
        }
        loops = count_loop(loops, entry.target);
    }
}

impl Walk<'_> {
    /// A break to `block`, by the terminal with this id of the block `at`: its row, if it has one. Gives the number of
    /// statements, 0 or 1.
    pub fn visit_break(
        &mut self,
        around: &Around<'_>,
        at: u32,
        block: u32,
        id: u32,
    ) -> Result<u32, Refused>
        requires block_bound { block < 1024 }
        requires fine { Fine self.old 1 18 }
        ensures { Jumped (visit_break (around_of around.now) at block id (state self.old)) self.old result self.new }
    {
        let Some(found) = get_break_target(&self.cx, block_id(block)) else {
            return Err(Refusal::NoBreakTarget(block).after(self.tally.visits));
        };
        let target = found.block();
        if self.cx.scope_fallthroughs[target as usize] {
            return match found.kind {
                ReactiveTerminalTargetKind::Implicit => Ok(0),
                _ => Err(Refusal::ScopeBreak(at).after(self.tally.visits)),
            };
        }
        if break_unnamed(around, found) {
            return Err(Refusal::NoSuchLabel(at).after(self.tally.visits));
        }
        let kind = break_kind_in(around, found.kind).number();
        self.put(Op::Break, target as u32, id, kind, found.loops, 0);
        Ok(1)
    }

    /// A continue at `block`, by the terminal with this id of the block `at`: its row.
    pub fn visit_continue(
        &mut self,
        around: &Around<'_>,
        at: u32,
        block: u32,
        id: u32,
    ) -> Result<(), Refused>
        requires block_bound { block < 1024 }
        requires fine { Fine self.old 1 18 }
        ensures { Continued (visit_continue (around_of around.now) at block id (state self.old))
            self.old result self.new }
    {
        let Some(found) = get_continue_target(&self.cx, block_id(block)) else {
            return Err(Refusal::NoContinueTarget(block).after(self.tally.visits));
        };
        if continue_unnamed(around, found) {
            return Err(Refusal::NoSuchLabel(at).after(self.tally.visits));
        }
        let target = found.block() as u32;
        let kind = found.kind.number();
        self.put(Op::Continue, target, id, kind, found.loops, 0);
        Ok(())
    }
}
