// The ranges of a row's columns. A column fits where it is below its limit: `limit` of table/specs/Answer.antt says which limit a rule is.
ghost use Rattle.std.specs.Prelude.{◌≡◌, ◌+◌, ◌*◌, ◌≤◌, length, nat_lt};
ghost use Rattle.std.specs.List.{list_all, zip};
ghost use Rattle.tree_grammar.specs.Ranges.{in_range};
ghost use Rattle.tree_check.specs.Takes.{limits_of};
ghost use Rattle.tree_check.specs.Found.{row_at};

use crate::ops::{
    BLOCK, BREAK, CASE, COND, CONTINUE, DOWHILE, FOR, FORIN, FOROF, IF, INSTR, LABEL, LOAD,
    LOGICAL, OPTIONAL, PLAIN, PRUNED, RETURN, SCOPE, SEQ, SWITCH, THROW, TRY, UNDEF, WHILE,
};
use crate::words::word;
use table_check::limits::{ANY, CHOICE, FLAG, UNUSED, row_or_none};

// More loops than a jump can cross.
const CROSSED: u32 = 129;

const BLOCKS: u32 = 1024;

const COUNTS: u32 = 2048;

const INSTRUCTIONS: u32 = 4096;

const PLACES: u32 = 4096;

// The limits by op, a line for each: M-100, "blocks are below 1,024 (a label may be none), ..".
#[tactic(auto, unfolding(tree_grammar::specs::Ranges::row_rules))]
fn row_limits(op: u32, a: u32, b: u32, c: u32, d: u32) -> [u32; 4]
    ensures { result ≡ limits_of op a b c d }
{
    let test = row_or_none(PLACES, a);
    let label = row_or_none(BLOCKS, b);
    let binding = row_or_none(PLACES, c);
    let label_d = row_or_none(BLOCKS, d);
    match op {
        PLAIN => [INSTRUCTIONS, UNUSED, UNUSED, UNUSED],
        LOAD => [PLACES, UNUSED, UNUSED, UNUSED],
        UNDEF => [ANY, ANY, UNUSED, UNUSED],
        INSTR => [ANY, PLACES, ANY, ANY],
        SEQ => [COUNTS, ANY, UNUSED, UNUSED],
        LOGICAL => [CHOICE, UNUSED, UNUSED, UNUSED],
        COND => [UNUSED; 4],
        OPTIONAL => [FLAG, UNUSED, UNUSED, UNUSED],
        BLOCK => [COUNTS, UNUSED, UNUSED, UNUSED],
        IF => [PLACES, FLAG, ANY, label_d],
        CASE => [test, UNUSED, UNUSED, UNUSED],
        SWITCH => [PLACES, COUNTS, ANY, label_d],
        DOWHILE => [ANY, label, UNUSED, UNUSED],
        WHILE => [ANY, label, UNUSED, UNUSED],
        FOR => [ANY, label, FLAG, UNUSED],
        FOROF => [ANY, label, ANY, ANY],
        FORIN => [ANY, label, ANY, ANY],
        LABEL => [ANY, label, UNUSED, UNUSED],
        TRY => [ANY, label, binding, UNUSED],
        SCOPE => [ANY, UNUSED, UNUSED, UNUSED],
        PRUNED => [ANY, UNUSED, UNUSED, UNUSED],
        RETURN => [PLACES, ANY, UNUSED, UNUSED],
        THROW => [PLACES, ANY, UNUSED, UNUSED],
        BREAK => [BLOCKS, ANY, CHOICE, CROSSED],
        CONTINUE => [BLOCKS, ANY, CHOICE, CROSSED],
        _ => [UNUSED; 4],
    }
}

// Whether each word is below its limit.
fn all_below(words: &[u32], limits: &[u32]) -> bool
    ensures { result ≡ list_all (λ p. nat_lt p.0 p.1) (zip words.now limits.now) }
{
    words.iter().zip(limits).all(|(word, limit)| word < limit)
}

// Whether a row's op and columns are in range.
pub fn in_range(tree: &[u32], row: u32) -> bool
    requires { row * 6 + 6 ≤ length tree.now }
    ensures { result ≡ in_range (row_at tree.now row) }
{
    let op = word(tree, row, 0);
    if op == 0 || op > 25 {
        return false;
    }
    let a = word(tree, row, 1);
    let b = word(tree, row, 2);
    let c = word(tree, row, 3);
    let d = word(tree, row, 4);
    all_below(&[a, b, c, d], &row_limits(op, a, b, c, d)) && word(tree, row, 5) == 0
}
