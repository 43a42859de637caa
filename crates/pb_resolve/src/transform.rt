ghost use Rattle.std.specs.Prelude.{◌≡◌, ◌+◌, ◌≤◌, ◌++◌, [], map, IfOk, IfErr, OnOk, length};
ghost use Rattle.std.specs.List.{AllByRecursion, flat_map};
ghost use Rattle.pb_program.specs.Trees.{bare_rule as resolved_rule, bare_transform as resolved_transform};
ghost use Rattle.pb_syntax.specs.Trees.{bare_rule, bare_transform};
ghost use Rattle.pb_syntax.specs.WithinLimits.{RuleWithin, TransformWithin};
ghost use Rattle.pb_names.specs.Faults.{Fails};
ghost use Rattle.pb_names.specs.Turns.{turn_faults};
ghost use Rattle.pb_names.specs.Rules.{rule_of, rule_faults};
ghost use Rattle.pb_resolve.specs.RuleWords.{rule_in, rule_faults_in, IsRuleWithin};
ghost use Rattle.pb_names.specs.Transforms.{all_matrices, decls_faults, decls_of, matrices_of, minimum_faults, minimums_of, next_minimum, seen, sizes as sizes_named, transform_faults, transform_of};
ghost use Rattle.pb_names.specs.declared.fault.Fault.TheVariants.{Memory};
ghost use Rattle.pb_syntax.specs.declared.limits.TheConstants.{MOST_SIZES};

use crate::scope::Scope;
use crate::sizes::sizes;
use pb_names::{Fault, Matrices, Names, copy_name, ranges};
use pb_program::{Decl, Rule, Transform};
use pb_syntax::{RuleText, TransformText};
use pb_values::Name;
use std::alloc::Global;

impl<'t, 'p> Scope<'t, 'p> {
    /// Resolves rules in their order.
    #[tactic(auto, using(crate::proofs::FaultLemmas::fails_memory, crate::proofs::FaultLemmas::fails_next, crate::proofs::FaultLemmas::faultless_next), unfolding(crate::specs::RuleWords::IsRuleWithin))]
    fn rules(&mut self, matrices: &Matrices<'t>, rules: &'t [RuleText]) -> Result<Vec<Rule>, Fault>
        requires { AllByRecursion IsRuleWithin rules.now }
        ensures found { IfOk result (λ rs. map resolved_rule rs.items ≡ map (rule_in matrices.now self.old) rules.now) }
        ensures left { OnOk result (self.new ≡ self.old) }
        ensures faultless { OnOk result (flat_map (rule_faults_in matrices.now self.old) rules.now ≡ []) }
        ensures refused { IfErr result (λ f. Fails f (flat_map (rule_faults_in matrices.now self.old) rules.now)) }
    {
        let mut found = Vec::new(self.alloc);
        for next in rules {
            found.push(self.rule(matrices, next)?)?;
        }
        Ok(found)
    }

    fn minimums_of(&self, t: &'t TransformText) -> Result<Names<'t, u64>, Fault>
        ensures found { IfOk result (λ known. known ≡ minimums_of (bare_transform t.now)) }
        ensures faultless { OnOk result (turn_faults next_minimum (minimum_faults self.now) [] t.now.minimums ≡ []) }
        ensures refused { IfErr result (λ f. Fails f (turn_faults next_minimum (minimum_faults self.now) [] t.now.minimums)) }
    {
        self.minimums(t.minimums.as_slice())
    }

    #[tactic(auto, using(crate::proofs::TransformLemmas::rules_are, crate::proofs::TransformLemmas::rules_faults_are, crate::proofs::TransformLemmas::rules_within))]
    fn rules_of(
        &mut self,
        matrices: &Matrices<'t>,
        t: &'t TransformText,
    ) -> Result<Vec<Rule>, Fault>
        requires { TransformWithin (bare_transform t.now) }
        ensures found { IfOk result (λ rs. map resolved_rule rs.items ≡ map (rule_of matrices.now self.old) (map bare_rule t.now.rules)) }
        ensures faultless { OnOk result (flat_map (rule_faults matrices.now self.old) (map bare_rule t.now.rules) ≡ []) }
        ensures refused { IfErr result (λ f. Fails f (flat_map (rule_faults matrices.now self.old) (map bare_rule t.now.rules))) }
    {
        self.rules(matrices, t.rules.as_slice())
    }

    /// Resolves the matrices of a transform.
    #[tactic(auto, using(crate::proofs::FaultLemmas::fails_left, crate::proofs::FaultLemmas::fails_right))]
    fn all_matrices(
        &self,
        matrices: &mut Matrices<'t>,
        t: &'t TransformText,
    ) -> Result<Vec<Decl>, Fault>
        requires within { TransformWithin (bare_transform t.now) }
        requires none { matrices.old.names ≡ [] }
        ensures found { IfOk result (λ ds. ds.items ≡ decls_of self.now (bare_transform t.now)) }
        ensures left { OnOk result (matrices.new ≡ record { names = all_matrices (bare_transform t.now); inputs = matrices.old.inputs }) }
        ensures faultless { OnOk result (decls_faults self.now (bare_transform t.now) ≡ []) }
        ensures refused { IfErr result (λ f. Fails f (decls_faults self.now (bare_transform t.now))) }
    {
        let mut found = Vec::new(self.alloc);
        self.matrices(matrices, t.from.as_slice(), &mut found)?;
        self.matrices(matrices, t.through.as_slice(), &mut found)?;
        self.matrices(matrices, t.to.as_slice(), &mut found)?;
        Ok(found)
    }

    /// Resolves the matrices and the rules of a transform.
    #[tactic(auto, using(crate::proofs::FaultLemmas::fails_left, crate::proofs::FaultLemmas::fails_right))]
    fn parts(&mut self, t: &'t TransformText) -> Result<(Vec<Decl>, Vec<Rule>), Fault>
        requires { TransformWithin (bare_transform t.now) }
        ensures matrices { IfOk result (λ r. r.0.items ≡ decls_of self.old (bare_transform t.now)) }
        ensures rules { IfOk result (λ r. map resolved_rule r.1.items ≡ map (rule_of (matrices_of (bare_transform t.now)) self.old) (map bare_rule t.now.rules)) }
        ensures faultless { OnOk result (decls_faults self.old (bare_transform t.now) ++ flat_map (rule_faults (matrices_of (bare_transform t.now)) self.old) (map bare_rule t.now.rules) ≡ []) }
        ensures refused { IfErr result (λ f. Fails f (decls_faults self.old (bare_transform t.now) ++ flat_map (rule_faults (matrices_of (bare_transform t.now)) self.old) (map bare_rule t.now.rules))) }
    {
        let mut matrices = Matrices::new(self.alloc, t.from.len() as u32);
        let decls = self.all_matrices(&mut matrices, t)?;
        let rules = self.rules_of(&matrices, t)?;
        Ok((decls, rules))
    }
}

/// What the header of a transform sees; the names of its sizes are added to `found`.
#[tactic(auto, using(crate::proofs::FaultLemmas::fails_memory, pb_names::proofs::SizeNames::sizes_few))]
fn seen<'t, 'p>(
    alloc: Global,
    transforms: &'p Names<'t, u32>,
    t: &'t TransformText,
    found: &mut Vec<Name>,
) -> Result<Scope<'t, 'p>, Fault>
    requires within { TransformWithin (bare_transform t.now) }
    requires none { found.old.items ≡ [] }
    ensures scope { IfOk result (λ s. s ≡ seen transforms.now (bare_transform t.now)) }
    ensures found { OnOk result (found.new.items ≡ sizes_named (bare_transform t.now)) }
    ensures few { OnOk result (length found.new.items ≤ MOST_SIZES) }
    ensures refused { IfErr result (λ f. f ≡ Memory) }
{
    let mut names = Names::new(alloc);
    sizes(alloc, &mut names, found, t.from.as_slice())?;
    Ok(Scope::new(alloc, transforms, names))
}

/// Resolves a transform.
#[tactic(auto, using(crate::proofs::FaultLemmas::fails_left, crate::proofs::FaultLemmas::fails_right, crate::proofs::FaultLemmas::fails_memory))]
pub(crate) fn transform<'t>(
    alloc: Global,
    transforms: &Names<'t, u32>,
    t: &'t TransformText,
) -> Result<Transform, Fault>
    requires { TransformWithin (bare_transform t.now) }
    ensures found { IfOk result (λ x. resolved_transform x ≡ transform_of transforms.now (bare_transform t.now)) }
    ensures faultless { OnOk result (transform_faults transforms.now (bare_transform t.now) ≡ []) }
    ensures refused { IfErr result (λ f. Fails f (transform_faults transforms.now (bare_transform t.now))) }
{
    let name = copy_name(alloc, &t.name)?;
    let mut sizes = Vec::new(alloc);
    let mut scope = seen(alloc, transforms, t, &mut sizes)?;
    let minimums = scope.minimums_of(t)?;
    let (matrices, rules) = scope.parts(t)?;
    Ok(Transform {
        name,
        ranges: ranges(&minimums, sizes.as_slice()),
        sizes,
        matrices,
        inputs: t.from.len() as u32,
        middles: t.through.len() as u32,
        rules,
    })
}
