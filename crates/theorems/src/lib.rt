// What is proved: a public function for each claim, whose contract is the claim. specs/Claims.antt has the statements, with a sentence
// for each; proofs/NAME has the proof. The two claims about a call make the call; the others speak of the definition, for all words, and
// do nothing.
#![tactic(auto)]

// The claims on tables with values.
pub mod value_claims;

ghost use Rattle.std.specs.Prelude.{◌≡◌, length};
ghost use Rattle.control.specs.Rule.{rule_of};
ghost use Rattle.definition.specs.Build.{built};
ghost use Rattle.build.specs.Entry.{outcome};
ghost use Rattle.theorems.specs.Claims.{EveryCallAnswers, EveryAnswerIsTheDefinitions};
ghost use Rattle.theorems.specs.Claims.{TheTreeRunsAsTheBlocks, WithSwitches, WithLoopsAndSwitches};
ghost use Rattle.theorems.specs.Claims.{NeitherEverStopsOtherwise, WhatIsBuiltIsOneTree, RowsHaveOneReading, WhatIsBuiltPassesTheCheck};
ghost use Rattle.theorems.specs.Claims.{NoLabelStandsTwice, ALookupFindsTheStatement, TheLabelsAreThere, TheEntriesDifferOnlySo};
ghost use Rattle.theorems.specs.Claims.{APreviewIsTheBuilds, AnyRenumberingBuildsTheSame, TheWalkingOrderCanBeUndone, TextsComeBack};
ghost use Rattle.theorems.specs.Claims.{TheRunnerDoesWhatTheRunsDo, VisitsAreAtMost8192, TheStackHoldsAtMost1152Entries, TheDepthIsAtMost128};
ghost use Rattle.theorems.specs.Claims.{FourMessagesNeverOccur, TheSamplesComeOut};

use build::answer::BuildError;
use build::{build_language, build_reactive_function};
use control::rule::Rule;
use walk::answer::Walked;

// A call of the entry that a rule names.
fn call(
    rule: Rule,
    words: &[u32],
    tree: &mut [u32],
    index: &mut [u32],
) -> Result<Walked, BuildError>
    ensures { outcome result tree.new index.new ≡ built (rule_of rule) words.now (length tree.old) (length index.old) }
{
    match rule {
        Rule::Rust => build_reactive_function(words, tree, index),
        Rule::Language => build_language(words, tree, index),
    }
}

/// Every call answers.
pub fn every_call_answers(
    rule: Rule,
    words: &[u32],
    tree: &mut [u32],
    index: &mut [u32],
) -> Result<Walked, BuildError>
    ensures { EveryCallAnswers tree.old index.old result tree.new index.new }
{
    call(rule, words, tree, index)
}

/// Every answer is the definition's.
pub fn every_answer_is_the_definitions(
    rule: Rule,
    words: &[u32],
    tree: &mut [u32],
    index: &mut [u32],
) -> Result<Walked, BuildError>
    ensures { EveryAnswerIsTheDefinitions (rule_of rule) words.now tree.old index.old result tree.new index.new }
{
    call(rule, words, tree, index)
}

/// The tree runs as the blocks do.
pub fn the_tree_runs_as_the_blocks()
    ensures { TheTreeRunsAsTheBlocks }
{}

/// So it does with Switch, by the language's rule.
pub fn with_switches()
    ensures { WithSwitches }
{}

/// So it does with DoWhile and For, and with Switch as a compiler makes it.
pub fn with_loops_and_switches()
    ensures { WithLoopsAndSwitches }
{}

/// Both stop for a return, for a throw, or because no answer is left.
pub fn neither_ever_stops_otherwise()
    ensures { NeitherEverStopsOtherwise }
{}

/// Accepted rows are read as one tree, and as no other.
pub fn what_is_built_is_one_tree()
    ensures { WhatIsBuiltIsOneTree }
{}

/// Any list of rows is read as one tree at most.
pub fn rows_have_one_reading()
    ensures { RowsHaveOneReading }
{}

/// What is built, of at most 2,048 rows, passes the row check.
pub fn what_is_built_passes_the_check()
    ensures { WhatIsBuiltPassesTheCheck }
{}

/// No two lines of the index have the same label.
pub fn no_label_stands_twice()
    ensures { NoLabelStandsTwice }
{}

/// A lookup of a statement's label gives just that statement's rows.
pub fn a_lookup_finds_the_statement()
    ensures { ALookupFindsTheStatement }
{}

/// A jump's number counts the loops that it leaves, and the label that it names is around it.
pub fn the_labels_are_there()
    ensures { TheLabelsAreThere }
{}

/// The two entries differ only in 29 and in breaks that are Labeled.
pub fn the_entries_differ_only_so()
    ensures { TheEntriesDifferOnlySo }
{}

/// A preview gives the numbers of a build with room enough.
pub fn a_preview_is_the_builds()
    ensures { APreviewIsTheBuilds }
{}

/// A table with its blocks renumbered builds the same, renumbered.
pub fn any_renumbering_builds_the_same()
    ensures { AnyRenumberingBuildsTheSame }
{}

/// A table in walking order is a renumbering, from which the first can be restored.
pub fn the_walking_order_can_be_undone()
    ensures { TheWalkingOrderCanBeUndone }
{}

/// A text converted to the other form and back is the same text.
pub fn texts_come_back()
    ensures { TextsComeBack }
{}

/// The runner gives the rows that the blocks perform, and their reason.
pub fn the_runner_does_what_the_runs_do()
    ensures { TheRunnerDoesWhatTheRunsDo }
{}

/// No build makes more than 8,192 visits.
pub fn visits_are_at_most_8192()
    ensures { VisitsAreAtMost8192 }
{}

/// The control stack holds at most 1,152 entries.
pub fn the_stack_holds_at_most_1152_entries()
    ensures { TheStackHoldsAtMost1152Entries }
{}

/// No block is deeper than 128.
pub fn the_depth_is_at_most_128()
    ensures { TheDepthIsAtMost128 }
{}

/// Four messages of the Rust never occur.
pub fn four_messages_never_occur()
    ensures { FourMessagesNeverOccur }
{}

/// The samples of the rules come out as the rules say.
pub fn the_samples_come_out()
    ensures { TheSamplesComeOut }
{}
