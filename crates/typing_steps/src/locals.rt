//! What one process does alone: it sets a variable, asks a host function, shows a value or decides.

ghost use Rattle.std.specs.Prelude.{◌≡◌, OnOk};
ghost use Rattle.chor_base.specs.Expr.{term_of};
ghost use Rattle.chor_base.specs.declared.value.Sort.TheVariants as sort;
ghost use Rattle.delegation.specs.Checks.{IsJudged};
ghost use Rattle.typing_rules.specs.After.{with_sort};
ghost use Rattle.typing_rules.specs.Checks.{has_sort, sort_at};
ghost use Rattle.typing_steps.specs.Known.{environment_of, operands_rule, question_rule, condition_rule, setting};

use crate::judging::{ask, judged};
use crate::known::Known;
use chor_base::{Expr, NameId, Rule, Sort};
use chor_tree::Named;
use delegation::OwnFault;

impl Known {
    // Judges a variable that is set to an expression, and goes past it.
    pub(crate) fn set(&mut self, process: &Named, var: NameId, expr: &Expr) -> Result<(), OwnFault>
        ensures rule { IsJudged (has_sort (sort_at (environment_of self.old) process.now (term_of expr.now))) result }
        ensures ok { OnOk result (environment_of self.new ≡ setting (environment_of self.old) process.now var (term_of expr.now)) }
    {
        match self.sorts.sort_of(process.name, expr) {
            Ok(sort) => {
                self.sorts.set(process.name, var, sort)?;
                Ok(())
            }
            Err(rule) => Err(OwnFault::Rule(rule)),
        }
    }

    // Judges a question to a host function, and goes past it.
    pub(crate) fn ask(
        &mut self,
        process: &Named,
        var: NameId,
        left: &Expr,
        right: &Expr,
    ) -> Result<(), OwnFault>
        ensures rule { IsJudged (question_rule (environment_of self.old) process.now (term_of left.now) (term_of right.now)) result }
        ensures ok { OnOk result (environment_of self.new ≡ with_sort (environment_of self.old) process.now.name var (Ok sort.Int)) }
    {
        let first = self.sorts.sort_of(process.name, left);
        let second = self.sorts.sort_of(process.name, right);
        judged(operands_rule(first, second))?;
        self.sorts.set(process.name, var, Sort::Int)?;
        Ok(())
    }

    // The rule that a shown expression violates, if any.
    pub(crate) fn show_rule(&self, process: &Named, expr: &Expr) -> Option<Rule>
        ensures { result ≡ has_sort (sort_at (environment_of self.now) process.now (term_of expr.now)) }
    {
        match self.sorts.sort_of(process.name, expr) {
            Ok(_) => None,
            Err(rule) => Some(rule),
        }
    }

    // The rule that a condition violates, if any.
    pub(crate) fn condition_rule(&self, process: &Named, expr: &Expr) -> Option<Rule>
        ensures { result ≡ condition_rule (environment_of self.now) process.now (term_of expr.now) }
    {
        match self.sorts.sort_of(process.name, expr) {
            Ok(sort) => ask(Sort::Bool.is_same(sort), Rule::T3),
            Err(rule) => Some(rule),
        }
    }
}

// The rule on the operands of a host function, by their sorts.
fn operands_rule(left: Result<Sort, Rule>, right: Result<Sort, Rule>) -> Option<Rule>
    ensures { result ≡ operands_rule left right }
{
    match (left, right) {
        (Err(rule), _) => Some(rule),
        (Ok(_), Err(rule)) => Some(rule),
        (Ok(one), Ok(other)) => ask(Sort::Int.is_same(one) && Sort::Int.is_same(other), Rule::T3),
    }
}
