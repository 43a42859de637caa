ghost use Rattle.std.specs.Prelude.{◌≡◌, ◌+◌, ◌≤◌, ◌<◌, [], ◌++◌, IfOk, IfErr, OnOk, length};
ghost use Rattle.std.specs.List.{AllByRecursion, flat_map};
ghost use Rattle.pb_linear.specs.Limits.{is_zero_from};
ghost use Rattle.pb_syntax.specs.WithinLimits.{DeclWithin};
ghost use Rattle.pb_syntax.specs.declared.limits.TheConstants.{MOST_MATRICES};
ghost use Rattle.pb_names.specs.Faults.{Fails};
ghost use Rattle.pb_names.specs.Turns.{after_turns, turns, turn_faults};
ghost use Rattle.pb_names.specs.Rules.{decl_of};
ghost use Rattle.pb_names.specs.Transforms.{count_of, header_faults, header_form_faults, header_term_faults, least_at, matrix_faults, matrix_of, minimum_faults, next_matrix, next_minimum, ranges_of};

use crate::scope::Scope;
use pb_linear::Ranges;
use pb_names::{Fault, Matrices, Matrix, Names, copy_name, count_of, is_size};
use pb_program::Decl;
use pb_syntax::{DeclText, FormText, TermText};
use pb_values::Name;

impl<'t, 'p> Scope<'t, 'p> {
    fn header_name(&self, name: &Name) -> Result<(), Fault>
        ensures faultless { OnOk result (header_faults self.now name.now ≡ []) }
        ensures refused { IfErr result (λ f. Fails f (header_faults self.now name.now)) }
    {
        if is_size(self.meaning(name)) {
            return Ok(());
        }
        Err(Fault::NotBound(copy_name(self.alloc, name)?))
    }

    fn header_term(&self, term: &TermText) -> Result<(), Fault>
        ensures faultless { OnOk result (header_term_faults self.now term.now ≡ []) }
        ensures refused { IfErr result (λ f. Fails f (header_term_faults self.now term.now)) }
    {
        match &term.name {
            Some(name) => self.header_name(name),
            None => Ok(()),
        }
    }

    #[tactic(auto, using(crate::proofs::FaultLemmas::fails_next, crate::proofs::FaultLemmas::faultless_next))]
    fn header_terms(&self, terms: &[TermText]) -> Result<(), Fault>
        ensures faultless { OnOk result (flat_map (header_term_faults self.now) terms.now ≡ []) }
        ensures refused { IfErr result (λ f. Fails f (flat_map (header_term_faults self.now) terms.now)) }
    {
        for next in terms {
            self.header_term(next)?;
        }
        Ok(())
    }

    fn header_form(&self, form: &FormText) -> Result<(), Fault>
        ensures faultless { OnOk result (header_form_faults self.now form.now ≡ []) }
        ensures refused { IfErr result (λ f. Fails f (header_form_faults self.now form.now)) }
    {
        self.header_terms(form.terms.as_slice())
    }

    #[tactic(auto, using(crate::proofs::FaultLemmas::fails_next, crate::proofs::FaultLemmas::faultless_next))]
    fn header_forms(&self, forms: &[FormText]) -> Result<(), Fault>
        ensures faultless { OnOk result (flat_map (header_form_faults self.now) forms.now ≡ []) }
        ensures refused { IfErr result (λ f. Fails f (flat_map (header_form_faults self.now) forms.now)) }
    {
        for next in forms {
            self.header_form(next)?;
        }
        Ok(())
    }

    #[tactic(auto, using(crate::proofs::FaultLemmas::fails_left, crate::proofs::FaultLemmas::fails_right, crate::proofs::FaultLemmas::fails_memory))]
    fn minimum(&self, known: &mut Names<'t, u64>, minimum: &'t (Name, u64)) -> Result<(), Fault>
        ensures left { OnOk result (known.new ≡ next_minimum known.old minimum.now) }
        ensures faultless { OnOk result (minimum_faults self.now known.old minimum.now ≡ []) }
        ensures refused { IfErr result (λ f. Fails f (minimum_faults self.now known.old minimum.now)) }
    {
        if known.find(minimum.0.bytes()).is_some() {
            return Err(Fault::Duplicate(copy_name(self.alloc, &minimum.0)?));
        }
        self.header_name(&minimum.0)?;
        known.add(minimum.0.bytes(), minimum.1)?;
        Ok(())
    }

    /// The least values that the header gives, by the names of sizes.
    #[tactic(auto, using(crate::proofs::TurnLemmas::none_passed, crate::proofs::TurnLemmas::passed, crate::proofs::TurnLemmas::pass_fails, crate::proofs::TurnLemmas::pass_clean, crate::proofs::TurnLemmas::pass_seen))]
    pub(crate) fn minimums(&self, minimums: &'t [(Name, u64)]) -> Result<Names<'t, u64>, Fault>
        ensures found { IfOk result (λ known. known ≡ after_turns next_minimum [] minimums.now) }
        ensures faultless { OnOk result (turn_faults next_minimum (minimum_faults self.now) [] minimums.now ≡ []) }
        ensures refused { IfErr result (λ f. Fails f (turn_faults next_minimum (minimum_faults self.now) [] minimums.now)) }
    {
        let mut known = Names::new(self.alloc);
        for next in minimums {
            self.minimum(&mut known, next)?;
        }
        Ok(known)
    }

    #[tactic(auto, using(crate::proofs::FaultLemmas::fails_left, crate::proofs::FaultLemmas::fails_right, crate::proofs::FaultLemmas::fails_memory))]
    fn matrix(&self, matrices: &mut Matrices<'t>, decl: &'t DeclText) -> Result<Decl, Fault>
        requires few { length matrices.old.names < MOST_MATRICES }
        requires within { DeclWithin decl.now }
        ensures found { IfOk result (λ d. d ≡ decl_of self.now.names decl.now.name decl.now.dims) }
        ensures left { OnOk result (matrices.new ≡ record { names = next_matrix matrices.old.names decl.now; inputs = matrices.old.inputs }) }
        ensures faultless { OnOk result (matrix_faults self.now matrices.old.names decl.now ≡ []) }
        ensures refused { IfErr result (λ f. Fails f (matrix_faults self.now matrices.old.names decl.now)) }
    {
        if is_size(self.meaning(&decl.name)) || matrices.find(decl.name.bytes()).is_some() {
            return Err(Fault::Duplicate(copy_name(self.alloc, &decl.name)?));
        }
        self.header_forms(decl.dims.as_slice())?;
        matrices.add(decl.name.bytes(), count_of(decl.dims.as_slice()))?;
        Ok(self.decl(&decl.name, decl.dims.as_slice())?)
    }

    /// Resolves matrices in turn: adds their names to `matrices`, and the matrices to `found`.
    #[tactic(auto, using(crate::proofs::FaultLemmas::fails_memory, crate::proofs::TurnLemmas::none_added, crate::proofs::TurnLemmas::added, crate::proofs::TurnLemmas::add_fails, crate::proofs::TurnLemmas::add_built, crate::proofs::TurnLemmas::add_clean, crate::proofs::TurnLemmas::add_seen, crate::proofs::TurnLemmas::next_length))]
    pub(crate) fn matrices(
        &self,
        matrices: &mut Matrices<'t>,
        decls: &'t [DeclText],
        found: &mut Vec<Decl>,
    ) -> Result<(), Fault>
        requires few { length matrices.old.names + length decls.now ≤ MOST_MATRICES }
        requires within { AllByRecursion DeclWithin decls.now }
        ensures counted { OnOk result (length matrices.new.names ≡ length matrices.old.names + length decls.now) }
        ensures found { OnOk result (found.new.items ≡ found.old.items ++ turns next_matrix (matrix_of self.now) matrices.old.names decls.now) }
        ensures left { OnOk result (matrices.new ≡ record { names = after_turns next_matrix matrices.old.names decls.now; inputs = matrices.old.inputs }) }
        ensures faultless { OnOk result (turn_faults next_matrix (matrix_faults self.now) matrices.old.names decls.now ≡ []) }
        ensures refused { IfErr result (λ f. Fails f (turn_faults next_matrix (matrix_faults self.now) matrices.old.names decls.now)) }
    {
        for next in decls {
            found.push(self.matrix(matrices, next)?)?;
        }
        Ok(())
    }
}
