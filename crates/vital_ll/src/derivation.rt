ghost use Rattle.std.specs.Prelude.{◌≡◌};

use std::marker::Model;

/// One choice of a derivation: the rule, and the alternative of it that was taken, both from 0.
#[derive(Clone, Copy, Debug, PartialEq, Eq)]
pub struct Step {
    pub rule: u16,
    pub alternative: u16,
}

/// A derivation: the alternatives chosen, in preorder. Contracts see the list.
#[derive(Drop)]
pub struct Tree {
    steps: Vec<Step>,
}

impl Model for Tree {
    ghost use Rattle.std.specs.Prelude.{List};
    ghost use Rattle.vital_ll.specs.declared.derivation.Step.{Step};

    ghost Value = { List Step };

    ghost view = { λ t. t.steps.items };
}

impl Tree {
    /// The derivation of these steps. Takes no memory.
    pub fn from_vec(steps: Vec<Step>) -> Self
        ensures { result ≡ steps.items }
    {
        Tree { steps }
    }

    /// Its steps. Takes no memory.
    pub fn into_vec(self) -> Vec<Step>
        ensures { result.items ≡ self }
    {
        self.steps
    }

    /// Its steps, in preorder.
    pub fn steps(&self) -> &[Step]
        ensures { result.now ≡ self.now }
    {
        self.steps.as_slice()
    }
}
