// ECMA-262's operations on completions, as the runner has them.
ghost use Rattle.std.specs.Prelude.{◌≡◌};
ghost use Rattle.definition.specs.Completion.{label_set, loop_continues, breakable, labelled};
ghost use Rattle.tree_run.specs.Abstraction.{if_any, completion_of, stops};

// How a part of the tree ended. A break or a continue without label has the empty target, and `jump` is its row.
#[derive(Clone, Copy, Debug, Drop, PartialEq, Eq)]
pub enum Completion {
    Normal,
    Break { target: Option<u32>, jump: u32 },
    Continue { target: Option<u32>, jump: u32 },
    Return { value: u32, id: u32 },
    Throw { value: u32, id: u32 },
    // An answer is due, and none is left.
    Unanswered,
    // The row is one that is not run.
    NotRun,
}

// Whether a loop with this label goes on after its body completed so: ECMA-262, LoopContinues(completion, labelSet), step by step.
#[tactic(auto, unfolding(definition::specs::Completion::loop_continues))]
pub fn loop_continues(completion: Completion, label: Option<u32>) -> bool
    ensures { result ≡ loop_continues (completion_of completion) (label_set (if_any label)) }
{
    // 1. If completion is a normal completion, return true.
    if matches!(completion, Completion::Normal) {
        return true;
    }
    // 2. If completion is not a continue completion, return false.
    let Completion::Continue { target, .. } = completion else {
        return false;
    };
    // 3. If completion.[[Target]] is empty, return true.
    if target.is_none() {
        return true;
    }
    // 4. If labelSet contains completion.[[Target]], return true. 5. Return false.
    target == label
}

impl Completion {
    // A loop or a SWITCH takes a break without label.
    #[tactic(auto, unfolding(definition::specs::Completion::breakable))]
    pub fn breakable(self) -> Completion
        ensures { completion_of result ≡ breakable (completion_of self) }
    {
        match self {
            Completion::Break { target: None, .. } => Completion::Normal,
            other => other,
        }
    }

    // A statement takes a break with its label.
    #[tactic(auto, unfolding(definition::specs::Completion::labelled))]
    pub fn labelled(self, label: Option<u32>) -> Completion
        ensures { completion_of result ≡ labelled (if_any label) (completion_of self) }
    {
        match self {
            Completion::Break {
                target: Some(target),
                ..
            } if label == Some(target) => Completion::Normal,
            other => other,
        }
    }

    // Whether it stops the run.
    pub fn stops(self) -> bool
        ensures { result ≡ stops (completion_of self) }
    {
        !matches!(
            self,
            Completion::Normal | Completion::Break { .. } | Completion::Continue { .. }
        )
    }
}
