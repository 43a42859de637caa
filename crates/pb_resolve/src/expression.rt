ghost use Rattle.std.specs.Prelude.{◌≡◌, [], ◌++◌, map, IfOk, IfErr, OnOk};
ghost use Rattle.std.specs.List.{flat_map};
ghost use Rattle.pb_program.specs.Exprs.{bare, call, cell, operands};
ghost use Rattle.pb_names.specs.Faults.{Fails};
ghost use Rattle.pb_names.specs.Bodies.{called, called_faults, named, use_faults};
ghost use Rattle.pb_resolve.specs.Working.{expr_in, faults_in, exprs_in, exprs_faults_in, operand_in, operand_faults_in, operands_in, operands_faults_in};

use crate::scope::Scope;
use pb_names::{Fault, make};
use pb_program::Expr;
use pb_syntax::{ExprText, Level, Operator};
use pb_values::Name;

impl<'t, 'p> Scope<'t, 'p> {
    /// Resolves an expression.
    #[cycle(expression)]
    #[tactic(auto, using(crate::proofs::FaultLemmas::fails_left, crate::proofs::FaultLemmas::fails_right, crate::proofs::FaultLemmas::fails_memory, crate::proofs::ListLemmas::chain_in, crate::proofs::ListLemmas::chain_faults_in), unfolding(crate::specs::Working::expr_in, crate::specs::Working::faults_in, crate::specs::Working::exprs_in, crate::specs::Working::exprs_faults_in, crate::specs::Working::operands_in, crate::specs::Working::operands_faults_in))]
    pub(crate) fn expression(&self, e: &ExprText) -> Result<Expr, Fault>
        ensures found { IfOk result (λ x. bare x ≡ expr_in self.now e.now) }
        ensures faultless { OnOk result (faults_in self.now e.now ≡ []) }
        ensures refused { IfErr result (λ f. Fails f (faults_in self.now e.now)) }
    {
        match e {
            ExprText::Number { at, value } => Ok(make::number(*at, *value)),
            ExprText::Name(name) => Ok(make::name(self.named(name)?)),
            ExprText::Call { called, arguments } => self.call(called, arguments),
            ExprText::Parentheses { at, inner } => {
                let inner = self.expression(inner)?;
                Ok(make::parentheses(self.alloc, *at, inner)?)
            }
            ExprText::Cell { view, coordinates } => self.cell(view, coordinates),
            ExprText::Width(view) => Ok(make::width(self.named(view)?)),
            ExprText::Height(view) => Ok(make::height(self.named(view)?)),
            ExprText::Signed { at, sign, operand } => {
                let operand = self.expression(operand)?;
                Ok(make::signed(self.alloc, *at, *sign, operand)?)
            }
            ExprText::Chain { level, first, rest } => {
                let first = self.expression(first)?;
                let rest = self.operands(rest)?;
                Ok(make::chain(self.alloc, *level, first, rest)?)
            }
            ExprText::Compare {
                left,
                relation,
                right,
            } => {
                let left = self.expression(left)?;
                let right = self.expression(right)?;
                Ok(make::compare(self.alloc, left, *relation, right)?)
            }
        }
    }

    #[cycle(expression)]
    #[tactic(auto, using(crate::proofs::FaultLemmas::fails_left, crate::proofs::FaultLemmas::fails_right, crate::proofs::ListLemmas::exprs_listed, crate::proofs::ListLemmas::exprs_faults_listed))]
    fn call(&self, name: &Name, arguments: &[ExprText]) -> Result<Expr, Fault>
        ensures found { IfOk result (λ x. bare x ≡ call (called self.now name.now) (exprs_in self.now arguments.now)) }
        ensures faultless { OnOk result (called_faults self.now name.now ++ exprs_faults_in self.now arguments.now ≡ []) }
        ensures refused { IfErr result (λ f. Fails f (called_faults self.now name.now ++ exprs_faults_in self.now arguments.now)) }
    {
        let called = self.called(name)?;
        Ok(make::call(called, self.expressions(arguments)?))
    }

    #[cycle(expression)]
    #[tactic(auto, using(crate::proofs::FaultLemmas::fails_left, crate::proofs::FaultLemmas::fails_right, crate::proofs::ListLemmas::exprs_listed, crate::proofs::ListLemmas::exprs_faults_listed))]
    fn cell(&self, view: &Name, coordinates: &[ExprText]) -> Result<Expr, Fault>
        ensures found { IfOk result (λ x. bare x ≡ cell (named self.now view.now) (exprs_in self.now coordinates.now)) }
        ensures faultless { OnOk result (use_faults self.now view.now ++ exprs_faults_in self.now coordinates.now ≡ []) }
        ensures refused { IfErr result (λ f. Fails f (use_faults self.now view.now ++ exprs_faults_in self.now coordinates.now)) }
    {
        let view = self.named(view)?;
        Ok(make::cell(view, self.expressions(coordinates)?))
    }

    /// Resolves expressions in their order.
    #[cycle(expression)]
    #[tactic(auto, using(crate::proofs::FaultLemmas::fails_memory, crate::proofs::FaultLemmas::fails_next, crate::proofs::FaultLemmas::faultless_next))]
    pub(crate) fn expressions(&self, expressions: &[ExprText]) -> Result<Vec<Expr>, Fault>
        ensures found { IfOk result (λ xs. map bare xs.items ≡ map (expr_in self.now) expressions.now) }
        ensures faultless { OnOk result (flat_map (faults_in self.now) expressions.now ≡ []) }
        ensures refused { IfErr result (λ f. Fails f (flat_map (faults_in self.now) expressions.now)) }
    {
        let mut found = Vec::new(self.alloc);
        for next in expressions {
            found.push(self.expression(next)?)?;
        }
        Ok(found)
    }

    #[cycle(expression)]
    #[tactic(auto, using(crate::proofs::FaultLemmas::fails_memory, crate::proofs::ListLemmas::operand_passes, crate::proofs::ListLemmas::operand_fails, crate::proofs::ListLemmas::operands_end, crate::proofs::ListLemmas::operands_faultless), unfolding(crate::specs::Working::operand_in))]
    fn operands(&self, rest: &[(Operator, ExprText)]) -> Result<Vec<(Operator, Expr)>, Fault>
        ensures found { IfOk result (λ xs. operands (map (λ o. (o.0, bare o.1)) xs.items) ≡ operands_in self.now rest.now) }
        ensures faultless { OnOk result (operands_faults_in self.now rest.now ≡ []) }
        ensures refused { IfErr result (λ f. Fails f (operands_faults_in self.now rest.now)) }
    {
        let mut found = Vec::new(self.alloc);
        for next in rest {
            found.push((next.0, self.expression(&next.1)?))?;
        }
        Ok(found)
    }
}
