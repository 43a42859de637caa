ghost use Rattle.std.specs.Prelude.{◌≡◌, ◌++◌, [], map, IfOk, IfErr, OnOk};
ghost use Rattle.std.specs.List.{AllByRecursion};
ghost use Rattle.pb_program.specs.Stmts.{bare_stmt as resolved};
ghost use Rattle.pb_program.specs.Plans.{calls_of};
ghost use Rattle.pb_program.specs.Trees.{bare_rule as resolved_rule};
ghost use Rattle.pb_syntax.specs.Stmts.{bare_stmt};
ghost use Rattle.pb_syntax.specs.Trees.{bare_rule};
ghost use Rattle.pb_syntax.specs.declared.tree.view.UseText.{UseText};
ghost use Rattle.pb_syntax.specs.WithinLimits.{MarkWithin, RuleWithin, StmtWithin};
ghost use Rattle.pb_names.specs.Faults.{Fails};
ghost use Rattle.pb_names.specs.Rules.{inner, is_single, kind_by, locals_of, plan_by, priority_of, rule_faults, rule_of};
ghost use Rattle.pb_resolve.specs.RuleWords.{rule_in, rule_faults_in, IsRuleWithin};
ghost use Rattle.pb_resolve.specs.Locals.{IsWithin, local_in};

use crate::scope::Scope;
use pb_names::{Fault, Matrices, calls, copy_name, is_single, kind_by, priority_of, some_plans};
use pb_program::{Body, Decl, Plan, Rule, RuleKind, Stmt};
use pb_syntax::{MarkText, RuleText, StmtText, UseText};
use pb_values::Name;
use std::alloc::AllocError;

impl<'t, 'p> Scope<'t, 'p> {
    /// Adds the matrix that a statement declares, if it declares one.
    #[tactic(auto, unfolding(crate::specs::Locals::local_in, crate::specs::Locals::IsWithin))]
    fn local(&self, s: &StmtText, found: &mut Vec<Decl>) -> Result<(), AllocError>
        requires { IsWithin s.now }
        ensures { OnOk result (found.new.items ≡ found.old.items ++ local_in self.now.names s.now) }
    {
        match s {
            StmtText::LetMatrix { name, dims, .. } => {
                found.push(self.decl(name, dims)?)?;
                Ok(())
            }
            _ => Ok(()),
        }
    }

    /// The names that a body has for its outputs.
    fn bound_names(&self, outs: &[UseText]) -> Result<Vec<Name>, AllocError>
        ensures { IfOk result (λ names. names.items ≡ map (λ (u : UseText). u.bound) outs.now) }
    {
        let mut names = Vec::new(self.alloc);
        for out in outs {
            names.push(copy_name(self.alloc, &out.bound)?)?;
        }
        Ok(names)
    }

    /// The matrices that statements declare.
    #[tactic(auto, using(crate::proofs::LocalLemmas::all_within, crate::proofs::LocalLemmas::local_next, crate::proofs::LocalLemmas::locals_end))]
    fn locals(&self, ss: &[StmtText]) -> Result<Vec<Decl>, AllocError>
        requires { AllByRecursion (StmtWithin 1) (map bare_stmt ss.now) }
        ensures { IfOk result (λ ds. ds.items ≡ locals_of self.now.names (map bare_stmt ss.now)) }
    {
        let mut found = Vec::new(self.alloc);
        for next in ss {
            self.local(next, &mut found)?;
        }
        Ok(found)
    }

    /// The plan of a rule, if it is one and each of its statements is a call or declares a matrix.
    fn plan(
        &self,
        is_plan: bool,
        texts: &[StmtText],
        ss: &[Stmt],
    ) -> Result<Option<Plan>, AllocError>
        requires { AllByRecursion (StmtWithin 1) (map bare_stmt texts.now) }
        ensures { IfOk result (λ p. p ≡ plan_by is_plan (locals_of self.now.names (map bare_stmt texts.now)) (calls_of (map resolved ss.now))) }
    {
        if !is_plan {
            return Ok(None);
        }
        match calls(self.alloc, ss)? {
            Some(calls) => Ok(Some(Plan {
                locals: self.locals(texts)?,
                calls,
            })),
            None => Ok(None),
        }
    }

    #[tactic(auto, using(crate::proofs::FaultLemmas::fails_left, crate::proofs::FaultLemmas::fails_right, crate::proofs::FaultLemmas::fails_memory, crate::proofs::ScopeLemmas::body_is, crate::proofs::ScopeLemmas::body_faults_are), unfolding(pb_names::specs::Kinds::some_plans_in))]
    fn rule_within(&mut self, matrices: &Matrices<'t>, r: &'t RuleText) -> Result<Rule, Fault>
        requires { RuleWithin (bare_rule r.now) }
        ensures found { IfOk result (λ x. resolved_rule x ≡ rule_of matrices.now self.old (bare_rule r.now)) }
        ensures left { OnOk result (self.new ≡ inner self.old (bare_rule r.now)) }
        ensures faultless { OnOk result (rule_faults matrices.now self.old (bare_rule r.now) ≡ []) }
        ensures refused { IfErr result (λ f. Fails f (rule_faults matrices.now self.old (bare_rule r.now))) }
    {
        let is_cell = self.is_cell(r.outs.as_slice());
        let single = is_single(r.outs.as_slice());
        let names = self.bound_names(r.outs.as_slice())?;
        let outs = self.outputs(matrices, single, r.outs.as_slice())?;
        let reads = self.reads(matrices, r.reads.as_slice())?;
        let conds = self.conditions(r.conds.as_slice())?;
        let stmts = self.block(r.stmts.as_slice())?;
        let is_plan = some_plans(stmts.as_slice());
        let plan = self.plan(is_plan, r.stmts.as_slice(), stmts.as_slice())?;
        Ok(Rule {
            priority: priority_of(r.mark),
            kind: kind_by(is_plan, is_cell),
            outs,
            names,
            reads,
            conds,
            body: Body { stmts, plan },
        })
    }

    /// Resolves a rule, and forgets what it declares.
    #[tactic(auto, unfolding(crate::specs::RuleWords::rule_in, crate::specs::RuleWords::rule_faults_in, crate::specs::RuleWords::IsRuleWithin))]
    pub(crate) fn rule(&mut self, matrices: &Matrices<'t>, r: &'t RuleText) -> Result<Rule, Fault>
        requires { IsRuleWithin r.now }
        ensures found { IfOk result (λ x. resolved_rule x ≡ rule_in matrices.now self.old r.now) }
        ensures left { OnOk result (self.new ≡ self.old) }
        ensures faultless { OnOk result (rule_faults_in matrices.now self.old r.now ≡ []) }
        ensures refused { IfErr result (λ f. Fails f (rule_faults_in matrices.now self.old r.now)) }
    {
        let mark = self.mark();
        let rule = self.rule_within(matrices, r)?;
        self.leave(mark);
        Ok(rule)
    }
}
