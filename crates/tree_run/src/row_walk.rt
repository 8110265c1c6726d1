// The walk: turn after turn until it halts. No stack and no recursion: where a row stands is in the links.
ghost use Rattle.std.specs.Prelude.{◌≡◌, List, [], ℕ, ◌-◌, ◌≤◌, Option, Some, None};
ghost use Rattle.definition.specs.TreeRun.{Completed, reason_of};
ghost use Rattle.tree_check.specs.Found.{word_at};
ghost use Rattle.tree_runs.specs.Machine.{Completes, step, going, enter, state};
ghost use Rattle.tree_runs.specs.Acts.{do_then, do_act};
ghost use Rattle.tree_run.specs.Abstraction.{completion_of, place_of, links_in, layout_in, then_of, chosen_by, act_of, end_at};
ghost use Rattle.tree_run.specs.Holds.{back_by, Instructs, After, Ends, Walks, told};

use crate::completions::Completion;
use crate::performed::Performed;
use crate::rows::Tree;
use crate::turns::{Place, Then, Turn, down, up};
use crate::{Reason, Run, RunError};
use tree_check::ops::{BLOCK, INSTR};

// The case at a place in source order: so many cases back from the row `last`.
fn case_at(tree: &Tree, last: u32, place: u32) -> u32
    ensures { result ≡ back_by tree.now.begin.now place last }
{
    let mut row = last;
    for _ in 0..place {
        row = tree.begin(row).saturating_sub(1);
    }
    row
}

// Where an answer leads.
#[tactic(auto, unfolding(crate::specs::Abstraction::chosen_by))]
fn chosen(tree: &Tree, then: Then, given: u32) -> Place
    ensures { place_of result ≡ chosen_by (then_of (links_in tree.now) then) given }
{
    match then {
        Then::Go(place) => place,
        Then::Ask { row, yes, no } => match (given, no) {
            (0, Some(no)) => Place::Enter(no),
            (0, None) => Place::Leave(row, Completion::Normal),
            _ => Place::Enter(yes),
        },
        Then::Pick { row, first, cases } => {
            if given < cases {
                Place::Enter(case_at(tree, first, given))
            } else {
                Place::Leave(row, Completion::Normal)
            }
        }
    }
}

// Where a turn goes on, and the answers that are left by then.
#[tactic(auto, unfolding(tree_runs::specs::Acts::do_then, crate::specs::Abstraction::chosen_by))]
fn go_on<'a>(tree: &Tree, left: &'a [u32], then: Then) -> (Place, &'a [u32])
    ensures { (reached : List ℕ) → state (place_of result.0) reached result.1.now
        ≡ do_then (then_of (links_in tree.now) then) reached left.now }
{
    let row = match then {
        Then::Go(place) => return (place, left),
        Then::Ask { row, .. } => row,
        Then::Pick { row, .. } => row,
    };
    match left.split_first() {
        Some((given, rest)) => (chosen(tree, then, *given), rest),
        None => (Place::Leave(row, Completion::Unanswered), left),
    }
}

// The completion with which the walk ends at a place: at the root's end, and where the run stops.
fn end_at(tree: &Tree, place: Place) -> Option<Completion>
    ensures { result ≡ end_at place tree.now.rows }
{
    match place {
        Place::Enter(_) => None,
        Place::Leave(row, completion) => {
            (completion.stops() || tree.is_last(row)).then_some(completion)
        }
    }
}

// What the turn at a place does.
fn decide(tree: &Tree, place: Place) -> Turn
    ensures { end_at place tree.now.rows ≡ None → (reached left : List ℕ)
        → step (layout_in tree.now) (state (place_of place) reached left)
        ≡ going (do_act (act_of tree.now.words.now (links_in tree.now) result) reached left) }
{
    match place {
        Place::Enter(row) => down(tree, row),
        Place::Leave(row, completion) => up(tree, row, completion),
    }
}

// Most turns enter an INSTR and then leave it for the next statement of its BLOCK: `walk` does both at once, without building a Turn.
fn instruction_at(tree: &Tree, place: Place) -> Option<u32>
    ensures { (row : ℕ) → result ≡ Some row → Instructs tree.now.words.now place row }
{
    match place {
        Place::Enter(row) if tree.word(row, 0) == INSTR => Some(row),
        _ => None,
    }
}

// After an INSTR: on to the next statement of its BLOCK, or out of the BLOCK; elsewhere out of the INSTR alone.
fn after_instruction(tree: &Tree, row: u32) -> Place
    requires { word_at tree.now.words.now row 0 ≡ 4 }
    ensures { After (layout_in tree.now) row result }
{
    let block = tree.parent(row);
    if tree.is_last(row) || tree.word(block, 0) != BLOCK {
        return Place::Leave(row, Completion::Normal);
    }
    match tree.next(row) {
        None => Place::Leave(block, Completion::Normal),
        Some(later) => Place::Enter(later),
    }
}

// What is told of the completion at the end.
// (Row 0 where a row is not run: as in specs/Holds.antt, `told`; `run_rows` has refused such a tree before.)
#[tactic(auto, unfolding(definition::specs::TreeRun::reason_of))]
fn told(end: Completion, number: usize) -> Result<Run, RunError>
    ensures { result ≡ told number (reason_of (completion_of end)) }
{
    let reason = match end {
        Completion::Return { .. } => Reason::Return,
        Completion::Throw { .. } => Reason::Throw,
        Completion::Normal => Reason::End,
        Completion::Unanswered => Reason::NoAnswer,
        Completion::Break { jump, .. } | Completion::Continue { jump, .. } => {
            return Err(RunError::NoTarget(jump));
        }
        Completion::NotRun => return Err(RunError::NotRun(0)),
    };
    Ok(Run { number, reason })
}

// From the root's closing row on.
pub fn walk(tree: &Tree, answers: &[u32], performed: &mut [u32]) -> Result<Run, RunError>
    requires le_rows { 1 ≤ tree.now.rows }
    requires walks { Walks (layout_in tree.now) tree.now.rows answers.now }
    ensures { (n : ℕ) (end : Completed)
        → Completes (layout_in tree.now) n (state (enter (tree.now.rows - 1)) [] answers.now) end
        → Ends tree.now.words.now performed.new result end }
{
    let mut place = Place::Enter(tree.rows - 1);
    let mut left = answers;
    let mut done = Performed {
        rows: performed,
        number: 0,
    };
    loop {
        if let Some(end) = end_at(tree, place) {
            return told(end, done.number);
        }
        if let Some(row) = instruction_at(tree, place) {
            done.perform(tree, tree.begin(row)..row)?;
            place = after_instruction(tree, row);
            continue;
        }
        let turn = decide(tree, place);
        let then = turn.then;
        done.perform_turn(tree, turn)?;
        let (there, rest) = go_on(tree, left, then);
        place = there;
        left = rest;
    }
}
