// The parts that a row takes, and where they begin.
ghost use Rattle.std.specs.Prelude.{◌≡◌, [], ◌∷◌, ◌+◌, ◌*◌, ◌≤◌, length, get_or};
ghost use Rattle.tree_grammar.specs.Needs.{a_value, a_block, serves, made_by, many, if_present, parts_of, needs_by_op};
ghost use Rattle.tree_check.specs.Takes.{sort_of, parts_taken};
ghost use Rattle.tree_check.specs.Found.{row_at, parts_begin};

use crate::ops::{
    BLOCK, CASE, COND, DOWHILE, FOR, FORIN, FOROF, IF, INSTR, LABEL, LOGICAL, OPTIONAL, PRUNED,
    SCOPE, SEQ, SWITCH, TRY, WHILE,
};
use crate::words::{Rows, word};

// A part: what a row leaves for a later one to take.
#[derive(Clone, Copy, Debug, PartialEq, Eq)]
pub enum Part {
    Value,
    Instr,
    Statement,
    Block,
    Case,
}

// `count` parts of the sort `first`, the latest first, and then `more` parts of the sort `then`.
// (None of the second sort is a count of 0: an option of it would be one more case in `next_begin`.)
#[derive(Clone, Copy)]
pub struct Takes {
    pub count: u32,
    pub first: Part,
    pub more: u32,
    pub then: Part,
}

// What a row leaves. Paper 01: "values ops 1 to 3 and 5 to 8, statements 4, 10 and 12 to 25".
#[tactic(auto, using(crate::proofs::SortLaws::value_made, crate::proofs::SortLaws::statement_made), unfolding(tree_grammar::specs::Needs::made_by))]
fn made_by(op: u32) -> Part
    ensures { sort_of result ≡ made_by op }
{
    match op {
        INSTR => Part::Instr,
        0..=OPTIONAL => Part::Value,
        BLOCK => Part::Block,
        CASE => Part::Case,
        _ => Part::Statement,
    }
}

// Whether a part serves: an INSTR is a statement too.
fn serves(wanted: Part, found: Part) -> bool
    ensures { result ≡ serves (sort_of wanted) (sort_of found) }
{
    wanted == found || wanted == Part::Statement && found == Part::Instr
}

fn one_sort(count: u32, first: Part) -> Takes
    ensures { result ≡ record { count = count; first = first; more = 0; then = Part.Value } }
{
    two_sorts(count, first, 0, Part::Value)
}

fn two_sorts(count: u32, first: Part, more: u32, then: Part) -> Takes
    ensures { result ≡ record { count = count; first = first; more = more; then = then } }
{
    Takes {
        count,
        first,
        more,
        then,
    }
}

// (A flag of a lent row is a word: 0 is absent, as in the definition's `if_present`.)
// An IF has one BLOCK, and one more where its alternate is present.
#[tactic(auto, using(crate::proofs::PartLaws::is_present))]
fn if_blocks(alternate: u32) -> u32
    ensures { many result a_block [] ≡ if_present alternate a_block (a_block ∷ []) }
{
    if alternate == 0 { 1 } else { 2 }
}

// A FOR has two values, and one more where its update is present.
#[tactic(auto, using(crate::proofs::PartLaws::is_present))]
fn for_values(update: u32) -> u32
    ensures { many result a_value [] ≡ if_present update a_value (a_value ∷ a_value ∷ []) }
{
    if update == 0 { 2 } else { 3 }
}

// The parts of a row, by its op: paper 01, "Parts come first (..), then the closing row."
fn row_takes(op: u32, a: u32, b: u32, c: u32) -> Takes
    ensures { parts_taken result ≡ get_or (needs_by_op a b c) op [] }
{
    match op {
        INSTR | OPTIONAL => one_sort(1, Part::Value),
        SEQ => two_sorts(1, Part::Value, a, Part::Instr),
        LOGICAL => one_sort(2, Part::Value),
        COND => one_sort(3, Part::Value),
        BLOCK => one_sort(a, Part::Statement),
        IF => one_sort(if_blocks(b), Part::Block),
        CASE | LABEL | SCOPE | PRUNED => one_sort(1, Part::Block),
        SWITCH => one_sort(b, Part::Case),
        DOWHILE => two_sorts(1, Part::Value, 1, Part::Block),
        WHILE | FORIN => two_sorts(1, Part::Block, 1, Part::Value),
        FOR => two_sorts(1, Part::Block, for_values(c), Part::Value),
        FOROF => two_sorts(1, Part::Block, 2, Part::Value),
        TRY => one_sort(2, Part::Block),
        _ => one_sort(0, Part::Value), // PLAIN, LOAD, UNDEF, RETURN, THROW, BREAK, CONTINUE
    }
}

impl Rows<'_> {
    // Where the part begins that closes before row `at`, if it is of this sort.
    fn part_begin(self, at: u32, wanted: Part) -> Option<u32>
        requires { at ≤ self.count }
        ensures { result ≡ parts_begin self.entry.words.now self.entry.begin.now (sort_of wanted ∷ []) at }
    {
        let last = at.checked_sub(1)?;
        let found = made_by(word(self.words, last, 0));
        if serves(wanted, found) {
            Some(self.begin[last as usize])
        } else {
            None
        }
    }

    // Where so many parts of a sort begin, of which the latest closes before row `at`.
    fn parts_begin(self, mut at: u32, count: u32, wanted: Part) -> Option<u32>
        requires { at ≤ self.count }
        ensures { result ≡ parts_begin self.entry.words.now self.entry.begin.now (many count (sort_of wanted) []) at }
    {
        for _ in 0..count {
            at = self.part_begin(at, wanted)?;
        }
        Some(at)
    }

    // Where the parts begin of the row after these.
    pub fn next_begin(self) -> Option<u32>
        requires { self.count * 6 + 6 ≤ length self.words.now }
        ensures { result ≡ parts_begin self.entry.words.now self.entry.begin.now (parts_of (row_at self.entry.words.now self.entry.count)) self.entry.count }
    {
        let op = word(self.words, self.count, 0);
        let a = word(self.words, self.count, 1);
        let b = word(self.words, self.count, 2);
        let c = word(self.words, self.count, 3);
        let takes = row_takes(op, a, b, c);
        let at = self.parts_begin(self.count, takes.count, takes.first)?;
        self.parts_begin(at, takes.more, takes.then)
    }
}
