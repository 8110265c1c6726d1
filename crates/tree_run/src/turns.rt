// What a turn of the walk does, decided from the rows and their links: down into a part, or up with a completion.
ghost use Rattle.std.specs.Prelude.{◌≡◌, List, [], ℕ, ◌-◌};
ghost use Rattle.definition.specs.Completion as definition;
ghost use Rattle.definition.specs.Completion.{normal, break, continue, label_set, loop_continues};
ghost use Rattle.table.specs.Table.{unless_none};
ghost use Rattle.tree_check.specs.Found.{word_at, row_at};
ghost use Rattle.tree_runs.specs.Links.{Links, plains, before, if_node, kind_of, jump_as, test_end, for_again, next_of};
ghost use Rattle.tree_runs.specs.Machine.{enter, leave, or_leave, on_if_normal};
ghost use Rattle.tree_runs.specs.Acts.{act, go, ask, act_down, act_up, round_again};
ghost use Rattle.tree_run.specs.Abstraction.{if_any, completion_of, links_in, begin_in, node_in, then_of, act_of};

use crate::completions::{Completion, loop_continues};
use crate::rows::Tree;
use std::ops::Range;
use tree_check::ops::{
    BLOCK, BREAK, CASE, CONTINUE, DOWHILE, FOR, IF, INSTR, LABEL, PRUNED, RETURN, SCOPE, SWITCH,
    THROW, WHILE,
};

// Into a row, or out of it with a completion.
#[derive(Clone, Copy, Debug, Drop, PartialEq, Eq)]
pub enum Place {
    Enter(u32),
    Leave(u32, Completion),
}

// How a turn goes on.
#[derive(Clone, Copy, Debug, Drop, PartialEq, Eq)]
pub enum Then {
    Go(Place),
    // By an answer: yes into `yes`, and no into `no` or else out of `row`.
    Ask { row: u32, yes: u32, no: Option<u32> },
    // By an answer into one of so many cases, the first in source order closing at `first`, or out of `row`.
    Pick { row: u32, first: u32, cases: u32 },
}

// The turn performs the rows of `rows` and then those of `more`.
#[derive(Drop)]
pub struct Turn {
    pub rows: Range<u32>,
    pub more: Range<u32>,
    pub then: Then,
}

// The row before. No row comes before the first: its own number stands there.
fn previous(row: u32) -> u32
    ensures { result ≡ before row }
{
    row.saturating_sub(1)
}

impl Turn {
    #[tactic(auto, unfolding(crate::specs::Abstraction::act_of, tree_runs::specs::Links::plains_from))]
    fn performing(rows: Range<u32>, then: Then) -> Turn
        ensures { (words : List ℕ) (t : Links) → act_of words t result ≡ act (plains (row_at words) rows.start rows.end) (then_of t then) }
    {
        Turn {
            rows,
            more: 0..0,
            then,
        }
    }

    #[tactic(auto, unfolding(tree_runs::specs::Links::plains_from))]
    fn of(then: Then) -> Turn
        ensures { (words : List ℕ) (t : Links) → act_of words t result ≡ act [] (then_of t then) }
    {
        Turn::performing(0..0, then)
    }

    fn into(row: u32) -> Turn
        ensures { (words : List ℕ) (t : Links) → act_of words t result ≡ act [] (go (enter row)) }
    {
        Turn::of(Then::Go(Place::Enter(row)))
    }

    fn out_of(row: u32, c: Completion) -> Turn
        ensures { (words : List ℕ) (t : Links) → act_of words t result ≡ act [] (go (leave row (completion_of c))) }
    {
        Turn::of(Then::Go(Place::Leave(row, c)))
    }

    // Before each round of a loop: its body, or out of it.
    fn round(rows: Range<u32>, row: u32, body: u32) -> Turn
        ensures { (words : List ℕ) (t : Links)
            → act_of words t result ≡ act (plains (row_at words) rows.start rows.end) (ask row (enter body) (leave row normal)) }
    {
        let no = None;
        Turn::performing(rows, Then::Ask { row, yes: body, no })
    }
}

// An IF asks at once. Without an alternate the answer no leads out of it.
#[tactic(auto, unfolding(tree_runs::specs::Acts::act_down))]
fn down_if(tree: &Tree, k: u32) -> Turn
    ensures { act_of tree.now.words.now (links_in tree.now) result
        ≡ act_down (if_node (begin_in tree.now.begin.now) k (word_at tree.now.words.now k 2) (unless_none (word_at tree.now.words.now k 4))) k }
{
    let last = previous(k);
    let then = if tree.word(k, 2) == 0 {
        Then::Ask {
            row: k,
            yes: last,
            no: None,
        }
    } else {
        Then::Ask {
            row: k,
            yes: previous(tree.begin(last)),
            no: Some(last),
        }
    };
    Turn::of(then)
}

fn down_block(tree: &Tree, k: u32) -> Turn
    ensures { act_of tree.now.words.now (links_in tree.now) result
        ≡ act [] (go (or_leave ((links_in tree.now).child k) k)) }
{
    match tree.child(k) {
        None => Turn::out_of(k, Completion::Normal),
        Some(first) => Turn::into(first),
    }
}

// An Implicit jump does nothing; an Unlabeled one has the empty target.
// The kind is a row's word, 0 to 2: an enum of it would be made here and matched here.
fn jump(tree: &Tree, k: u32) -> Completion
    ensures breaks { word_at tree.now.words.now k 0 ≡ 24
        → completion_of result ≡ jump_as (kind_of (word_at tree.now.words.now k 3)) (unless_none (word_at tree.now.words.now k 1)) k break }
    ensures continues { word_at tree.now.words.now k 0 ≡ 25
        → completion_of result ≡ jump_as (kind_of (word_at tree.now.words.now k 3)) (unless_none (word_at tree.now.words.now k 1)) k continue }
{
    let target = match tree.word(k, 3) {
        0 => return Completion::Normal,
        1 => tree.label(k, 1),
        _ => None,
    };
    if tree.word(k, 0) == BREAK {
        return Completion::Break { target, jump: k };
    }
    Completion::Continue { target, jump: k }
}

// The row after a FOR's test.
fn test_end(tree: &Tree, k: u32) -> u32
    ensures { result ≡ test_end (begin_in tree.now.begin.now) k (word_at tree.now.words.now k 3) }
{
    let first = tree.begin(previous(k));
    if tree.word(k, 3) == 0 {
        return first;
    }
    tree.begin(previous(first))
}

// Into row k. Each op has its own arm: after `CASE | LABEL` the proof of the last arm does not see that the op is neither.
#[tactic(auto, unfolding(tree_runs::specs::Links::node_of, tree_runs::specs::Links::plains_from, tree_runs::specs::Acts::act_down))]
pub fn down(tree: &Tree, k: u32) -> Turn
    ensures { act_of tree.now.words.now (links_in tree.now) result ≡ act_down (node_in tree.now k) k }
{
    let last = previous(k);
    match tree.word(k, 0) {
        INSTR => Turn::performing(
            tree.begin(k)..k,
            Then::Go(Place::Leave(k, Completion::Normal)),
        ),
        BLOCK => down_block(tree, k),
        IF => down_if(tree, k),
        SWITCH => Turn::of(Then::Pick {
            row: k,
            first: last,
            cases: tree.word(k, 2),
        }),
        DOWHILE => Turn::into(previous(tree.begin(last))),
        WHILE => Turn::round(tree.begin(k)..tree.begin(last), k, last),
        FOR => Turn::round(tree.begin(k)..test_end(tree, k), k, last),
        CASE => Turn::into(last),
        LABEL => Turn::into(last),
        SCOPE => Turn::into(last),
        PRUNED => Turn::into(last),
        RETURN => {
            let value = tree.word(k, 1);
            let id = tree.word(k, 2);
            Turn::out_of(k, Completion::Return { value, id })
        }
        THROW => {
            let value = tree.word(k, 1);
            let id = tree.word(k, 2);
            Turn::out_of(k, Completion::Throw { value, id })
        }
        BREAK => Turn::out_of(k, jump(tree, k)),
        CONTINUE => Turn::out_of(k, jump(tree, k)),
        _ => Turn::out_of(k, Completion::NotRun),
    }
}

// The part after this one: the next statement of a BLOCK; of a SWITCH the next case in source order, which closes before this one begins.
#[tactic(auto, unfolding(tree_runs::specs::Links::next_of))]
fn next_part(tree: &Tree, part: u32) -> Option<u32>
    ensures { if_any result ≡ next_of (links_in tree.now) part (row_at tree.now.words.now part) }
{
    if tree.word(part, 0) == CASE {
        let first = tree.begin(part);
        let is_last = first == tree.begin(tree.parent(part));
        return (!is_last).then_some(previous(first));
    }
    tree.next(part)
}

// After a part that completed so: on to the next, or out of row k with the completion `out`.
fn on_or_out(next: Option<u32>, k: u32, c: Completion, out: Completion) -> Turn
    ensures { (words : List ℕ) (t : Links) (change : definition.Completion → definition.Completion) → completion_of out ≡ change (completion_of c)
        → act_of words t result ≡ act [] (go (on_if_normal (completion_of c) (if_any next) k change)) }
{
    match (c, next) {
        (Completion::Normal, Some(row)) => Turn::into(row),
        (Completion::Normal, None) => Turn::out_of(k, Completion::Normal),
        _ => Turn::out_of(k, out),
    }
}

// After the body of a loop: `again`, or out of it. The one place that asks whether a loop goes on.
fn up_loop(label: Option<u32>, again: Turn, k: u32, c: Completion) -> Turn
    ensures { (words : List ℕ) (t : Links) (rows : List ℕ) (body : ℕ)
        → act_of words t again ≡ act rows (ask k (enter body) (leave k normal))
        → act_of words t result
        ≡ round_again (loop_continues (completion_of c) (label_set (if_any label))) (if_any label) rows body k (completion_of c) }
{
    if loop_continues(c, label) {
        return again;
    }
    Turn::out_of(k, c.breakable().labelled(label))
}

// The next round of a FOR: its update, its test, and then an answer.
#[tactic(auto, unfolding(crate::specs::Abstraction::act_of))]
fn for_again(tree: &Tree, k: u32) -> Turn
    ensures { act_of tree.now.words.now (links_in tree.now) result
        ≡ act (for_again (row_at tree.now.words.now) (begin_in tree.now.begin.now) k (word_at tree.now.words.now k 3)) (ask k (enter (before k)) (leave k normal)) }
{
    let body = previous(k);
    let end = test_end(tree, k);
    let then = Then::Ask {
        row: k,
        yes: body,
        no: None,
    };
    Turn {
        rows: end..tree.begin(body),
        more: tree.begin(previous(end))..end,
        then,
    }
}

// Up from a part that completed so.
#[tactic(auto, unfolding(tree_runs::specs::Links::node_of, tree_runs::specs::Links::plains_from, tree_runs::specs::Acts::act_up))]
pub fn up(tree: &Tree, part: u32, c: Completion) -> Turn
    ensures { act_of tree.now.words.now (links_in tree.now) result
        ≡ act_up (node_in tree.now ((links_in tree.now).parent part)) ((links_in tree.now).parent part)
        (next_of (links_in tree.now) part (row_at tree.now.words.now part)) (completion_of c) }
{
    let k = tree.parent(part);
    let last = previous(k);
    match tree.word(k, 0) {
        BLOCK => on_or_out(next_part(tree, part), k, c, c),
        IF => Turn::out_of(k, c.labelled(tree.label(k, 4))),
        SWITCH => {
            let out = c.breakable().labelled(tree.label(k, 4));
            on_or_out(next_part(tree, part), k, c, out)
        }
        DOWHILE => {
            let test = tree.begin(last);
            up_loop(
                tree.label(k, 2),
                Turn::round(test..k, k, previous(test)),
                k,
                c,
            )
        }
        WHILE => {
            let test = tree.begin(k)..tree.begin(last);
            up_loop(tree.label(k, 2), Turn::round(test, k, last), k, c)
        }
        FOR => up_loop(tree.label(k, 2), for_again(tree, k), k, c),
        LABEL => Turn::out_of(k, c.labelled(tree.label(k, 2))),
        _ => Turn::out_of(k, c),
    }
}
