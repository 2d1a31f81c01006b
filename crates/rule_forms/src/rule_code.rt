// A rule as it is evaluated.
ghost use Rattle.std.specs.Prelude.{◌≡◌, ◌≤◌, IfOk, IfSome, is_some, map};
ghost use Rattle.rule_tree.specs.InCode.{rule_of};
ghost use Rattle.rule_forms.specs.Depth.{rule_depth, rule_nodes};
ghost use Rattle.rule_forms.specs.Forms.{expr_of_form};
ghost use Rattle.rule_forms.specs.Numbered.{numbered_expression, rule_of_forms};
ghost use Rattle.rule_forms.specs.Known.{AlwaysWaits, AlwaysMakes, delay_alone, is_constant};
ghost use Rattle.rule_forms.specs.Known.{StandsAlone, is_alone_in};

use crate::depth::depth_of_rule;
use crate::forms::Form;
use crate::known::{Constant, constant_delay, constant_of, value_alone};
use crate::lowering::form_of;
use crate::numbered::{NumberedForm, forms_of_gives, forms_of_sets};
use quantity::{OutOfMemory, Time};
use rule_tree::RuleTree;
use std::alloc::Global;
use std::marker::Model;

/// A rule as it is evaluated: trees of forms. It is seen as the rule whose expressions they stand
/// for.
#[derive(Drop)]
pub struct RuleCode {
    gives: Vec<NumberedForm>,
    delay: Form,
    condition: Form,
    sets: Vec<NumberedForm>,
    // The delay, where it is the same whatever a cell sees.
    constant_delay: Option<Time>,
    // All that is given, where it is the same whatever a cell sees and nothing is set.
    constant: Option<Constant>,
    depth: usize,
}

impl Model for RuleCode {
    ghost use Rattle.std.specs.Coded.{codes};
    ghost use Rattle.rule_tree.specs.Expression.{Rule};
    ghost use Rattle.rule_forms.specs.Signs.{expr_code};
    ghost use Rattle.rule_forms.specs.Numbered.{rule_of_forms};
    ghost use Rattle.rule_forms.specs.Known.{IsKnown};

    ghost Value = { Rule };

    ghost coded = { Prim.hlevel (codes, expr_code (Prim.hlevel codes)) };

    ghost view = { λ r. rule_of_forms r.gives.items r.delay r.condition r.sets.items };

    ghost invariant = { λ r.
        IsKnown (rule_of_forms r.gives.items r.delay r.condition r.sets.items)
        r.depth r.constant_delay r.constant };
}

impl RuleCode {
    /// The forms of a rule's tree. Its depth is at most the number of nodes of the tree.
    pub fn make(alloc: Global, tree: &RuleTree) -> Result<RuleCode, OutOfMemory>
        ensures rule { IfOk result (λ code. code ≡ rule_of tree.now) }
        ensures depth { IfOk result (λ code. rule_depth code ≤ rule_nodes (rule_of tree.now)) }
    {
        let depth = depth_of_rule(tree)?;
        let gives = forms_of_gives(alloc, &tree.gives)?;
        let sets = forms_of_sets(alloc, &tree.sets)?;
        RuleCode::with_values(alloc, tree, gives, sets, depth)
    }

    /// The forms of a rule's tree, where those of its values are there already.
    fn with_values(
        alloc: Global,
        tree: &RuleTree,
        gives: Vec<NumberedForm>,
        sets: Vec<NumberedForm>,
        depth: usize,
    ) -> Result<RuleCode, OutOfMemory>
        requires gives { map numbered_expression gives.items ≡ (rule_of tree.now).gives }
        requires sets { map numbered_expression sets.items ≡ (rule_of tree.now).sets }
        requires depth { depth ≡ rule_depth (rule_of tree.now) }
        ensures { IfOk result (λ code. code ≡ rule_of tree.now) }
    {
        let delay = form_of(alloc, &tree.delay)?;
        let condition = form_of(alloc, &tree.condition)?;
        Ok(RuleCode::of(gives, delay, condition, sets, depth))
    }

    fn of(
        gives: Vec<NumberedForm>,
        delay: Form,
        condition: Form,
        sets: Vec<NumberedForm>,
        depth: usize,
    ) -> RuleCode
        requires { depth ≡ rule_depth (rule_of_forms gives.items delay condition sets.items) }
        ensures { result ≡ rule_of_forms gives.items delay condition sets.items }
    {
        let constant_delay = constant_delay(&delay);
        let constant = constant_of(&gives, &delay, &sets);
        RuleCode {
            gives,
            delay,
            condition,
            sets,
            constant_delay,
            constant,
            depth,
        }
    }

    /// The forms of the values that it gives, each for a port.
    #[inline(always)]
    pub fn gives(&self) -> &[NumberedForm]
        ensures { map numbered_expression result.now ≡ self.now.gives }
    {
        &self.gives
    }

    /// The form of its delay.
    #[inline(always)]
    pub fn delay(&self) -> &Form
        ensures { expr_of_form result.now ≡ self.now.delay }
    {
        &self.delay
    }

    /// The form of its condition.
    #[inline(always)]
    pub fn condition(&self) -> &Form
        ensures { expr_of_form result.now ≡ self.now.condition }
    {
        &self.condition
    }

    /// The forms of the values that it sets, each for a variable.
    #[inline(always)]
    pub fn sets(&self) -> &[NumberedForm]
        ensures { map numbered_expression result.now ≡ self.now.sets }
    {
        &self.sets
    }

    /// Its delay, where its text is a number: that is the same whatever a cell sees.
    #[inline(always)]
    pub fn constant_delay(&self) -> Option<Time>
        ensures always { IfSome result (AlwaysWaits self.now.delay) }
        ensures each { result ≡ delay_alone self.now.delay }
    {
        self.constant_delay
    }

    /// All that it gives, where its values and its delay are numbers and nothing is set: that is
    /// the same whatever a cell sees.
    #[inline(always)]
    pub fn constant(&self) -> Option<&Constant>
        ensures always { IfSome result (λ c. AlwaysMakes self.now c.now) }
        ensures each { is_some result ≡ is_constant self.now }
    {
        match &self.constant {
            Some(constant) => Some(constant),
            None => None,
        }
    }

    /// The form of the value that it gives, where it gives one alone, at the port `out`, and sets
    /// nothing.
    #[inline(always)]
    pub fn value_alone(&self) -> Option<&Form>
        ensures always { IfSome result
            (λ f. StandsAlone (expr_of_form f.now) self.now.gives self.now.sets) }
        ensures each { is_some result ≡ is_alone_in self.now.gives self.now.sets }
    {
        value_alone(self.gives(), self.sets())
    }

    /// The most arguments of functions that stand on the stack at once while a part of the rule is
    /// evaluated: at most the number of nodes of the rule's trees.
    pub fn depth(&self) -> usize
        ensures { result ≡ rule_depth self.now }
    {
        self.depth
    }
}
