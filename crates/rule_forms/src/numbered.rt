// Forms for a port or a variable.
ghost use Rattle.std.specs.Prelude.{◌≡◌, [], ◌∷◌, ◌++◌, IfOk, OnOk, map};
ghost use Rattle.rule_tree.specs.InCode.{expr_of};
ghost use Rattle.rule_tree.specs.declared.node.Give.{Give as AnyGive};
ghost use Rattle.rule_tree.specs.declared.node.SetVariable.{SetVariable as AnySet};
ghost use Rattle.rule_forms.specs.Forms.{expr_of_form};
ghost use Rattle.rule_forms.specs.Numbered.{numbered_expression};

use crate::forms::Form;
use crate::lowering::form_of;
use quantity::OutOfMemory;
use rule_tree::{Give, SetVariable};
use std::alloc::{AllocError, Global};

/// The form of a value for a port or a variable, by its number.
#[derive(Drop)]
pub struct NumberedForm {
    pub number: u8,
    pub form: Form,
}

/// The forms of values for ports.
pub(crate) fn forms_of_gives(
    alloc: Global,
    gives: &[Give],
) -> Result<Vec<NumberedForm>, OutOfMemory>
    ensures { IfOk result (λ forms. map numbered_expression forms.items
        ≡ map (λ (g : AnyGive). (g.port, expr_of g.value)) gives.now) }
{
    let mut forms = Vec::new(alloc);
    for give in gives {
        let form = form_of(alloc, &give.value)?;
        add(&mut forms, give.port, form)?;
    }
    Ok(forms)
}

/// The forms of values for variables.
pub(crate) fn forms_of_sets(
    alloc: Global,
    sets: &[SetVariable],
) -> Result<Vec<NumberedForm>, OutOfMemory>
    ensures { IfOk result (λ forms. map numbered_expression forms.items
        ≡ map (λ (x : AnySet). (x.variable, expr_of x.value)) sets.now) }
{
    let mut forms = Vec::new(alloc);
    for set in sets {
        let form = form_of(alloc, &set.value)?;
        add(&mut forms, set.variable, form)?;
    }
    Ok(forms)
}

fn add(forms: &mut Vec<NumberedForm>, number: u8, form: Form) -> Result<(), OutOfMemory>
    ensures { OnOk result (map numbered_expression forms.new.items
        ≡ map numbered_expression forms.old.items ++ (number, expr_of_form form) ∷ []) }
{
    forms
        .push(NumberedForm { number, form })
        .map_err(AllocError::from)?;
    Ok(())
}
