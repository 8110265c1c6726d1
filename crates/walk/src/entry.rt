// The whole walk: of a table, and of any words.
ghost use Rattle.std.specs.Prelude.{◌≡◌, IfOk};
ghost use Rattle.table.specs.Table.{table_of};
ghost use Rattle.definition.specs.Build.{report};
ghost use Rattle.control.specs.Rule.{rule_of};
ghost use Rattle.control.specs.Contract.{Created};
ghost use Rattle.walk.specs.Report.{Reported, TableReported, Rooted, words_report};

use crate::answer::{WalkError, Walked};
use crate::around::Around;
use crate::refusal::Refused;
use crate::state::Walk;
use control::Context;
use control::rule::Rule;
use table::Table;
use table_check::check;
use values::result::Tally;

impl Walk<'_> {
    // From the table's entry on, before anything is put out.
    fn traverse_root(&mut self, rule: Rule, table: Table<'_>) -> Result<(), Refused>
        requires created { Created self.old.cx }
        requires nothing { (self.old.tally ≡ record { rows = 0; visits = 0 }) × (self.old.lines ≡ 0) }
        ensures tree { IfOk result (λ _. self.new.tree.ghost_name ≡ self.old.tree.ghost_name) }
        ensures index { IfOk result (λ _. self.new.index.ghost_name ≡ self.old.index.ghost_name) }
        ensures report { Rooted (report (rule_of rule) (table_of table.entry.words.now)) result self.new }
    {
        let around = Around::Outermost(rule);
        self.traverse_block(table, &around, 128, table.entry())
    }
}

// The walk of a table.
#[tactic(auto, using(crate::proofs::EntryLaws::accepted_in))]
fn walk_table(
    rule: Rule,
    table: Table<'_>,
    tree: &mut [u32],
    index: &mut [u32],
) -> Result<Walked, Refused>
    ensures { TableReported (report (rule_of rule) (table_of table.entry.words.now)) result tree.new index.new }
{
    let mut walk = Walk {
        cx: Context::new(),
        tally: Tally { rows: 0, visits: 0 },
        lines: 0,
        tree: &mut *tree,
        index: &mut *index,
    };
    walk.traverse_root(rule, table)?;
    Ok(Walked {
        rows: walk.tally.rows,
        visits: walk.tally.visits,
        lines: walk.lines,
    })
}

/// The walk of the table in the words, which may be any words. It fills the buffers as far as they have room, and
/// counts on: its caller tests whether the rows and the lines fit, and clears the buffers after a refusal.
pub fn walk(
    rule: Rule,
    words: &[u32],
    tree: &mut [u32],
    index: &mut [u32],
) -> Result<Walked, WalkError>
    ensures { Reported (words_report (rule_of rule) words.now) result tree.new index.new }
{
    Ok(walk_table(rule, check(words)?, tree, index)?)
}
