// The room in which rules are evaluated.
ghost use Rattle.std.specs.Prelude.{◌≡◌, IfOk};

use quantity::OutOfMemory;
use rule_tree::Answer;
use std::alloc::Global;
use std::marker::Model;

/// Room for the answers of a rule's parts, made once and used for many evaluations. It is seen as
/// the number of answers that it was made for, and the number for which it holds memory.
#[derive(Drop)]
pub struct Stack {
    pub(crate) answers: Vec<Answer>,
    depth: usize,
}

impl Model for Stack {
    ghost use Rattle.std.specs.Prelude.{◌≤◌, vec_capacity};
    ghost use Rattle.rule_eval.specs.Room.{Room};

    ghost Value = { Room };

    ghost view = { λ s. record { depth = s.depth; memory = vec_capacity s.answers } };

    ghost invariant = { λ s. s.depth ≤ vec_capacity s.answers };
}

impl Stack {
    /// Room for so many answers at once.
    pub fn for_depth(alloc: Global, depth: usize) -> Result<Stack, OutOfMemory>
        ensures { IfOk result (λ stack. stack.depth ≡ depth) }
    {
        let answers = Vec::with_capacity(alloc, depth)?;
        Ok(Stack { answers, depth })
    }

    /// The number of answers that was asked for.
    pub fn depth(&self) -> usize
        ensures { result ≡ self.now.depth }
    {
        self.depth
    }
}
