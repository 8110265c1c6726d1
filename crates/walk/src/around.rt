// What is being built around a jump: the rule, and the statements, the innermost first. An arm puts its own statement
// before those around it.
ghost use Rattle.std.specs.Prelude.{◌≡◌, ◌||◌, ◌&&◌, ℕ, Bool, not};
ghost use Rattle.table.specs.Columns.{maybe_of};
ghost use Rattle.definition.specs.Around.{is_label, is_switch_inside, names_statement, names_loop, kind_by, unnamed};
ghost use Rattle.definition.specs.Around.{break_kind_in, break_unnamed, continue_unnamed};
ghost use Rattle.control.specs.Abstraction.{kind_of, resolution_of};
ghost use Rattle.control.specs.Rule.{rule_of};
ghost use Rattle.walk.specs.Around.{around_of};

use control::rule::Rule;
use control::{ReactiveTerminalTargetKind, Resolution};

/// A statement that is being built, with its label: the fallthrough that it took, if any. A scope and a Branch have
/// none.
#[derive(Clone, Copy, Drop)]
pub enum Enclosing {
    Loop(Option<u32>),
    Switch(Option<u32>),
    Another(Option<u32>),
}

/// The rule, and the statements around, the innermost first.
#[derive(Clone, Copy, Drop)]
pub enum Around<'a> {
    Outermost(Rule),
    Within {
        rule: Rule,
        statement: Enclosing,
        outer: &'a Around<'a>,
    },
}

/// Which entry is asked for.
pub fn rule(around: &Around<'_>) -> Rule
    ensures { rule_of result ≡ (around_of around.now).rule }
{
    match around {
        Around::Outermost(rule) | Around::Within { rule, .. } => *rule,
    }
}

// The label is this block.
#[tactic(auto, unfolding(definition::specs::Around::is_label))]
fn is_label(label: Option<u32>, target: u32) -> bool
    ensures { result ≡ is_label (maybe_of label) target }
{
    match label {
        None => false,
        Some(label) => label == target,
    }
}

// A switch is being built inside of the innermost loop.
#[tactic(auto, unfolding(definition::specs::Around::is_switch_inside))]
fn is_switch_inside(around: &Around<'_>) -> bool
    ensures { result ≡ is_switch_inside (around_of around.now).statements }
{
    match around {
        Around::Outermost(_) => false,
        Around::Within {
            statement,
            outer,
            ..
        } => match *statement {
            Enclosing::Loop(_) => false,
            Enclosing::Switch(_) => true,
            Enclosing::Another(_) => is_switch_inside(outer),
        },
    }
}

// A statement around has this label.
#[tactic(auto, unfolding(definition::specs::Around::names_statement))]
fn names_statement(around: &Around<'_>, target: u32) -> bool
    ensures { result ≡ names_statement (around_of around.now).statements target }
{
    match around {
        Around::Outermost(_) => false,
        Around::Within {
            statement,
            outer,
            ..
        } => match *statement {
            Enclosing::Loop(label) | Enclosing::Switch(label) | Enclosing::Another(label) => {
                is_label(label, target) || names_statement(outer, target)
            }
        },
    }
}

// The loop with so many loops inside of it has this label.
#[tactic(auto, unfolding(definition::specs::Around::names_loop))]
fn names_loop(around: &Around<'_>, loops: u32, target: u32) -> bool
    ensures { result ≡ names_loop (around_of around.now).statements loops target }
{
    match around {
        Around::Outermost(_) => false,
        Around::Within {
            statement,
            outer,
            ..
        } => match *statement {
            Enclosing::Loop(label) => {
                if loops == 0 {
                    return is_label(label, target);
                }
                names_loop(outer, loops - 1, target)
            }
            Enclosing::Switch(_) | Enclosing::Another(_) => names_loop(outer, loops, target),
        },
    }
}

// In the language entry a break to a loop is also Labeled when a switch is being built in between.
#[tactic(auto, unfolding(definition::specs::Around::kind_by))]
fn kind_by(
    rule: Rule,
    between: bool,
    kind: ReactiveTerminalTargetKind,
) -> ReactiveTerminalTargetKind
    ensures { kind_of result ≡ kind_by (rule_of rule) between (kind_of kind) }
{
    match (rule, kind) {
        (Rule::Language, ReactiveTerminalTargetKind::Unlabeled) if between => {
            ReactiveTerminalTargetKind::Labeled
        }
        _ => kind,
    }
}

// Only a Labeled jump of the language entry names a label.
#[tactic(auto, unfolding(definition::specs::Around::unnamed))]
fn asks_label(rule: Rule, kind: ReactiveTerminalTargetKind) -> bool
    ensures { (named : Bool) → unnamed (rule_of rule) (kind_of kind) named ≡ (result && not named) }
{
    rule == Rule::Language && kind == ReactiveTerminalTargetKind::Labeled
}

// Only an Unlabeled break of the language entry asks for a switch.
#[tactic(auto, unfolding(definition::specs::Around::kind_by))]
fn asks_switch(rule: Rule, kind: ReactiveTerminalTargetKind) -> bool
    ensures { (between : Bool) → kind_by (rule_of rule) between (kind_of kind)
        ≡ kind_by (rule_of rule) (result && between) (kind_of kind) }
{
    rule == Rule::Language && kind == ReactiveTerminalTargetKind::Unlabeled
}

/// The kind of a break that resolves to this kind.
#[tactic(auto, unfolding(definition::specs::Around::break_kind_in))]
pub fn break_kind_in(
    around: &Around<'_>,
    kind: ReactiveTerminalTargetKind,
) -> ReactiveTerminalTargetKind
    ensures { kind_of result ≡ break_kind_in (around_of around.now) (kind_of kind) }
{
    let rule = rule(around);
    kind_by(
        rule,
        asks_switch(rule, kind) && is_switch_inside(around),
        kind,
    )
}

/// Whether a break is refused because it is Labeled and no statement around has its label. Only the language entry
/// asks.
#[tactic(auto, unfolding(definition::specs::Around::break_unnamed))]
pub fn break_unnamed(around: &Around<'_>, found: Resolution) -> bool
    ensures { result ≡ break_unnamed (around_of around.now) (resolution_of found) }
{
    asks_label(rule(around), break_kind_in(around, found.kind))
        && !names_statement(around, found.block() as u32)
}

/// The same of a continue, whose label must be that of the loop that it resolves to.
#[tactic(auto, unfolding(definition::specs::Around::continue_unnamed))]
pub fn continue_unnamed(around: &Around<'_>, found: Resolution) -> bool
    ensures { result ≡ continue_unnamed (around_of around.now) (resolution_of found) }
{
    asks_label(rule(around), found.kind) && !names_loop(around, found.loops, found.block() as u32)
}
