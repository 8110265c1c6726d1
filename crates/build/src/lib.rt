// build_reactive_function: words of a block table in, rows of the tree and lines of its index (M-101) out, or a refusal with its place.
#![tactic(auto)]

pub mod answer;
pub mod file;

ghost use Rattle.std.specs.Prelude.{◌≡◌, length, OnOk};
ghost use Rattle.table.specs.Table.{table_of};
ghost use Rattle.definition.specs.Around.{rust, language};
ghost use Rattle.definition.specs.Build.{built};
ghost use Rattle.definition.specs.Plain.{Plain, with_switch};
ghost use Rattle.definition.specs.PlainLoops.{without_switch};
ghost use Rattle.definition.specs.RunLaw.{RunLaw, SwitchLaw};
ghost use Rattle.control.specs.Rule.{rule_of};
ghost use Rattle.build.specs.Entry.{outcome, outcome_cleared};

use crate::answer::BuildError;
use control::rule::Rule;
use values::rows::clear;
use walk::answer::{Walked, tell};
use walk::entry::walk;

// The build, before what is left of the buffers is cleared. The code is 40 if the rows do not fit, else 41 if the lines do not.
fn try_build(
    rule: Rule,
    words: &[u32],
    tree: &mut [u32],
    index: &mut [u32],
) -> Result<Walked, BuildError>
    ensures { outcome_cleared result tree.new index.new ≡ built (rule_of rule) words.now (length tree.old) (length index.old) }
{
    let walked = walk(rule, words, tree, index)?;
    if walked.rows as usize > tree.len() / 6 {
        return Err(BuildError::NoRoomForRows {
            rows: walked.rows,
            visits: walked.visits,
        });
    }
    if walked.lines as usize > index.len() / 3 {
        return Err(BuildError::NoRoomForLines {
            visits: walked.visits,
        });
    }
    Ok(walked)
}

// The build by the rule of either entry. If the table is accepted, the buffers hold the rows and the lines, then zeros.
// "A refused build leaves zeros in both buffers."
pub fn build(
    rule: Rule,
    words: &[u32],
    tree: &mut [u32],
    index: &mut [u32],
) -> Result<Walked, BuildError>
    ensures { outcome result tree.new index.new ≡ built (rule_of rule) words.now (length tree.old) (length index.old) }
{
    match try_build(rule, words, tree, index) {
        Ok(built) => {
            clear(tree, built.rows as usize * 6);
            clear(index, built.lines as usize * 3);
            Ok(built)
        }
        Err(error) => {
            clear(tree, 0);
            clear(index, 0);
            Err(error)
        }
    }
}

/// Builds the tree of a table of blocks as the Rust does: the rows of the tree and the lines of its index, each then zeros, or an error
/// and zeros alone. It takes any words and buffers of any lengths. On a plain table the tree runs as the blocks do.
pub fn build_reactive_function(
    words: &[u32],
    tree: &mut [u32],
    index: &mut [u32],
) -> Result<Walked, BuildError>
    ensures definition { outcome result tree.new index.new ≡ built rust words.now (length tree.old) (length index.old) }
    ensures runs { OnOk result (Plain without_switch (table_of words.now) → RunLaw words.now (outcome result tree.new index.new)) }
{
    build(Rule::Rust, words, tree, index)
}

/// The same by the language's rule: a break without a label leaves the nearest loop or switch, and a jump's label is around it, or the
/// code is 29. Its tree runs as the blocks do on plain tables with Switch too.
pub fn build_language(
    words: &[u32],
    tree: &mut [u32],
    index: &mut [u32],
) -> Result<Walked, BuildError>
    ensures definition { outcome result tree.new index.new ≡ built language words.now (length tree.old) (length index.old) }
    ensures runs { OnOk result (Plain without_switch (table_of words.now) → RunLaw words.now (outcome result tree.new index.new)) }
    ensures runs_with_switches { OnOk result (Plain with_switch (table_of words.now) → SwitchLaw words.now (outcome result tree.new index.new)) }
{
    build(Rule::Language, words, tree, index)
}

// The same for callers in C or Rust: the code, and the other four words by reference, as C takes them.
// (Two entries, one for each rule: C and the theorems name them.)
pub fn reactive_build(
    words: &[u32],
    tree: &mut [u32],
    index: &mut [u32],
    at: &mut u32,
    rows: &mut u32,
    visits: &mut u32,
    lines: &mut u32,
) -> u32
    ensures { record { code = result; at = at.new; rows = rows.new; visits = visits.new; lines = lines.new; buffer = tree.new; index = index.new } ≡ built rust words.now (length tree.old) (length index.old) }
{
    let answer = build_reactive_function(words, tree, index);
    tell(answer, at, rows, visits, lines)
}

pub fn reactive_build_language(
    words: &[u32],
    tree: &mut [u32],
    index: &mut [u32],
    at: &mut u32,
    rows: &mut u32,
    visits: &mut u32,
    lines: &mut u32,
) -> u32
    ensures { record { code = result; at = at.new; rows = rows.new; visits = visits.new; lines = lines.new; buffer = tree.new; index = index.new } ≡ built language words.now (length tree.old) (length index.old) }
{
    let answer = build_language(words, tree, index);
    tell(answer, at, rows, visits, lines)
}
