ghost use Rattle.std.specs.Prelude.{◌≡◌, ◌+◌, ◌^◌, ◌≤◌, ◌<◌, [], ◌∷◌, ◌++◌, IfOk, IfErr, OnOk, length, option_copied};
ghost use Rattle.std.specs.List.{AllByRecursion};
ghost use Rattle.pb_program.specs.declared.meaning.Meaning.TheVariants as meaning;
ghost use Rattle.pb_syntax.specs.declared.limits.TheConstants.{MOST_VIEWS};
ghost use Rattle.pb_syntax.specs.Limits.{alone};
ghost use Rattle.pb_syntax.specs.WithinLimits.{UseWithin};
ghost use Rattle.pb_names.specs.Faults.{Fails};
ghost use Rattle.pb_names.specs.Binders.{names_in};
ghost use Rattle.pb_names.specs.Rules.{is_cell};
ghost use Rattle.pb_names.specs.Views.{after_outs, bind, binders, bound_faults, coordinate_names, coordinates_faults, has_names, is_bad_output, is_row, is_size, out_faults, out_of, out_scope, outs_faults, outs_of, repeats, variables_faults, with_variables};

use crate::scope::Scope;
use pb_names::{Binders, Fault, Matrices, alone, copy_name, is_row, is_size};
use pb_program::{Meaning, Read};
use pb_syntax::{FormText, UseText, ViewText};
use pb_values::Name;

impl<'t, 'p> Scope<'t, 'p> {
    /// The rule variables that an output binds.
    fn binders(&self, u: &'t UseText) -> Binders<'t>
        ensures { names_in result ≡ binders self.now u.now }
    {
        match &u.view {
            ViewText::Cell { x, y: None } => match alone(x) {
                Some(x) => {
                    if is_size(self.meaning(x)) {
                        Binders::None
                    } else {
                        Binders::One(x)
                    }
                }
                None => Binders::None,
            },
            ViewText::Cell { x, y: Some(y) } => match (alone(x), alone(y)) {
                (Some(x), Some(y)) => {
                    if is_size(self.meaning(x)) || is_size(self.meaning(y)) {
                        Binders::None
                    } else {
                        Binders::Two(x, y)
                    }
                }
                _ => Binders::None,
            },
            _ => Binders::None,
        }
    }

    /// Whether outputs are one alone that binds rule variables.
    pub(crate) fn is_cell(&self, outs: &'t [UseText]) -> bool
        ensures { result ≡ is_cell self.now outs.now }
    {
        match outs {
            [only] => self.binders(only).are_there(),
            _ => false,
        }
    }

    fn is_bad_output(
        &self,
        matrices: &Matrices<'t>,
        single: bool,
        u: &UseText,
        binders: &Binders<'t>,
    ) -> bool
        ensures { result ≡ is_bad_output matrices.now single u.now (names_in binders.now) }
    {
        if matrices.is_given(matrices.find(u.matrix.bytes())) {
            return true;
        }
        if is_row(&u.view) {
            return true;
        }
        if !single && binders.are_there() {
            return true;
        }
        binders.repeat()
    }

    /// Judges the coordinates of an output, and adds the rule variables that they are.
    #[tactic(auto, using(crate::proofs::FaultLemmas::fails_left, crate::proofs::FaultLemmas::fails_right))]
    fn coordinates(
        &mut self,
        matrices: &Matrices<'t>,
        u: &UseText,
        binders: Binders<'t>,
    ) -> Result<(), Fault>
        ensures left { OnOk result (self.new ≡ with_variables self.old (names_in binders.entry)) }
        ensures faultless { OnOk result (coordinates_faults matrices.now self.old u.now (names_in binders.entry) ≡ []) }
        ensures refused { IfErr result (λ f. Fails f (coordinates_faults matrices.now self.old u.now (names_in binders.entry))) }
    {
        match binders {
            Binders::None => self.view_forms(&u.view),
            Binders::One(x) => self.bind(matrices, x, Meaning::RuleX),
            Binders::Two(x, y) => {
                self.bind(matrices, x, Meaning::RuleX)?;
                self.bind(matrices, y, Meaning::RuleY)
            }
        }
    }

    /// Resolves an output, and adds its rule variables.
    #[tactic(auto, using(crate::proofs::FaultLemmas::fails_left, crate::proofs::FaultLemmas::fails_right, crate::proofs::FaultLemmas::fails_memory))]
    fn output(
        &mut self,
        matrices: &Matrices<'t>,
        single: bool,
        u: &'t UseText,
    ) -> Result<Read, Fault>
        requires { UseWithin u.now }
        ensures found { IfOk result (λ r. r ≡ out_of matrices.now self.old u.now) }
        ensures left { OnOk result (self.new ≡ out_scope self.old u.now) }
        ensures faultless { OnOk result (out_faults matrices.now single self.old u.now ≡ []) }
        ensures refused { IfErr result (λ f. Fails f (out_faults matrices.now single self.old u.now)) }
    {
        match matrices.find(u.matrix.bytes()) {
            Some(matrix) => {
                let binders = self.binders(u);
                if self.is_bad_output(matrices, single, u, &binders) {
                    return Err(Fault::BadOutput(u.matrix.at()));
                }
                self.coordinates(matrices, u, binders)?;
                Ok(self.view_of(matrix, u))
            }
            None => Err(Fault::Unknown(copy_name(self.alloc, &u.matrix)?)),
        }
    }

    #[tactic(auto, using(crate::proofs::FaultLemmas::fails_left, crate::proofs::FaultLemmas::fails_right))]
    fn next_output(
        &mut self,
        matrices: &Matrices<'t>,
        single: bool,
        k: u32,
        u: &'t UseText,
    ) -> Result<Read, Fault>
        requires { UseWithin u.now }
        ensures found { IfOk result (λ r. r ≡ out_of matrices.now self.old u.now) }
        ensures left { OnOk result (self.new ≡ bind (out_scope self.old u.now) u.now.bound (meaning.Output k)) }
        ensures faultless { OnOk result (out_faults matrices.now single self.old u.now ++ bound_faults matrices.now (out_scope self.old u.now) u.now.bound ≡ []) }
        ensures refused { IfErr result (λ f. Fails f (out_faults matrices.now single self.old u.now ++ bound_faults matrices.now (out_scope self.old u.now) u.now.bound)) }
    {
        let read = self.output(matrices, single, u)?;
        self.bind(matrices, &u.bound, Meaning::Output(k))?;
        Ok(read)
    }

    /// Resolves the outputs of a rule in turn, and adds their names.
    #[tactic(auto, using(crate::proofs::FaultLemmas::fails_memory, crate::proofs::TurnLemmas::none_turned, crate::proofs::TurnLemmas::turn_fails, crate::proofs::TurnLemmas::turned, crate::proofs::TurnLemmas::all_built, crate::proofs::TurnLemmas::all_clean, crate::proofs::TurnLemmas::all_seen))]
    pub(crate) fn outputs(
        &mut self,
        matrices: &Matrices<'t>,
        single: bool,
        uses: &'t [UseText],
    ) -> Result<Vec<Read>, Fault>
        requires few { length uses.now ≤ MOST_VIEWS }
        requires within { AllByRecursion UseWithin uses.now }
        ensures found { IfOk result (λ rs. rs.items ≡ outs_of matrices.now self.old uses.now) }
        ensures left { OnOk result (self.new ≡ after_outs self.old uses.now) }
        ensures faultless { OnOk result (outs_faults matrices.now single self.old uses.now ≡ []) }
        ensures refused { IfErr result (λ f. Fails f (outs_faults matrices.now single self.old uses.now)) }
    {
        let mut found = Vec::new(self.alloc);
        for (k, u) in uses.iter().enumerate() {
            found.push(self.next_output(matrices, single, k as u32, u)?)?;
        }
        Ok(found)
    }
}
