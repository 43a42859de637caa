ghost use Rattle.std.specs.Prelude.{◌≡◌, ◌+◌, ◌^◌, ◌≤◌, ◌<◌, [], ◌∷◌, IfErr, OnOk, length, unsigned_abs};
ghost use Rattle.std.specs.List.{AllByRecursion, flat_map};
ghost use Rattle.pb_syntax.specs.WithinLimits.{FormWithin, TermWithin};
ghost use Rattle.pb_names.specs.Faults.{Fails};
ghost use Rattle.pb_names.specs.Sums.{add_term, add_terms, collected, signed};
ghost use Rattle.pb_resolve.specs.SumValue.{value_of};
ghost use Rattle.pb_names.specs.Views.{view_name_faults, view_term_faults, view_form_faults, forms_of, is_in_views};

use crate::scope::Scope;
use crate::sum::Sum;
use pb_names::{Fault, copy_name};
use pb_program::{Coordinate, Meaning};
use pb_syntax::{FormText, TermText, ViewText};
use pb_values::Name;

/// A factor with its sign.
fn signed(minus: bool, factor: u64) -> i64
    requires { factor ≤ 2 ^ 20 }
    ensures value { result ≡ signed minus factor }
    ensures small { unsigned_abs result ≤ 2 ^ 20 }
{
    if minus {
        -(factor as i64)
    } else {
        factor as i64
    }
}

/// Whether a view or a condition may have this name.
fn is_in_views(what: Option<Meaning>) -> bool
    ensures { result ≡ is_in_views what }
{
    match what {
        Some(Meaning::Size(_)) => true,
        Some(Meaning::RuleX) => true,
        Some(Meaning::RuleY) => true,
        _ => false,
    }
}

impl<'t, 'p> Scope<'t, 'p> {
    fn view_name(&self, name: &Name) -> Result<(), Fault>
        ensures faultless { OnOk result (view_name_faults self.now name.now ≡ []) }
        ensures refused { IfErr result (λ f. Fails f (view_name_faults self.now name.now)) }
    {
        if is_in_views(self.meaning(name)) {
            return Ok(());
        }
        Err(Fault::Unknown(copy_name(self.alloc, name)?))
    }

    fn view_term(&self, term: &TermText) -> Result<(), Fault>
        ensures faultless { OnOk result (view_term_faults self.now term.now ≡ []) }
        ensures refused { IfErr result (λ f. Fails f (view_term_faults self.now term.now)) }
    {
        match &term.name {
            Some(name) => self.view_name(name),
            None => Ok(()),
        }
    }

    /// Whether each name of some terms is a size or a rule variable.
    #[tactic(auto, using(crate::proofs::FaultLemmas::fails_next, crate::proofs::FaultLemmas::faultless_next))]
    fn view_terms(&self, terms: &[TermText]) -> Result<(), Fault>
        ensures faultless { OnOk result (flat_map (view_term_faults self.now) terms.now ≡ []) }
        ensures refused { IfErr result (λ f. Fails f (flat_map (view_term_faults self.now) terms.now)) }
    {
        for next in terms {
            self.view_term(next)?;
        }
        Ok(())
    }

    /// Whether each name of a form is a size or a rule variable.
    pub(crate) fn view_form(&self, form: &FormText) -> Result<(), Fault>
        ensures faultless { OnOk result (view_form_faults self.now form.now ≡ []) }
        ensures refused { IfErr result (λ f. Fails f (view_form_faults self.now form.now)) }
    {
        self.view_terms(form.terms.as_slice())
    }

    #[tactic(auto, using(crate::proofs::FaultLemmas::fails_left, crate::proofs::FaultLemmas::fails_right))]
    fn two_forms(&self, a: &FormText, b: &FormText) -> Result<(), Fault>
        ensures faultless { OnOk result (flat_map (view_form_faults self.now) (a.now ∷ b.now ∷ []) ≡ []) }
        ensures refused { IfErr result (λ f. Fails f (flat_map (view_form_faults self.now) (a.now ∷ b.now ∷ []))) }
    {
        self.view_form(a)?;
        self.view_form(b)
    }

    /// Whether each name of a view's forms is a size or a rule variable.
    #[tactic(auto, using(crate::proofs::FaultLemmas::fails_left, crate::proofs::FaultLemmas::fails_right, crate::proofs::FaultLemmas::four_first, crate::proofs::FaultLemmas::four_second, crate::proofs::FaultLemmas::four_faultless))]
    pub(crate) fn view_forms(&self, view: &ViewText) -> Result<(), Fault>
        ensures faultless { OnOk result (flat_map (view_form_faults self.now) (forms_of view.now) ≡ []) }
        ensures refused { IfErr result (λ f. Fails f (flat_map (view_form_faults self.now) (forms_of view.now))) }
    {
        match view {
            ViewText::Whole => Ok(()),
            ViewText::Cell { x, y: None } => self.view_form(x),
            ViewText::Cell { x, y: Some(y) } => self.two_forms(x, y),
            ViewText::Row(y) => self.view_form(y),
            ViewText::Column(x) => self.view_form(x),
            ViewText::Between { low, high } => self.two_forms(low, high),
            ViewText::Region { x0, y0, x1, y1 } => {
                self.two_forms(x0, y0)?;
                self.two_forms(x1, y1)
            }
        }
    }

    fn add_term(&self, sum: Sum, minus: bool, term: &TermText) -> Sum
        requires terms { sum.terms < 2 ^ 20 }
        requires factor { term.now.factor ≤ 2 ^ 20 }
        ensures value { value_of result ≡ add_term self.now.names (value_of sum) minus term.now }
        ensures terms { result.terms ≤ sum.terms + 1 }
    {
        let d = signed(minus, term.factor);
        match &term.name {
            None => sum.with_number(d),
            Some(name) => match self.meaning(name) {
                Some(what) => sum.with_named(what, term.quotient, d),
                None => sum,
            },
        }
    }

    fn add_terms(&self, mut sum: Sum, terms: &[TermText]) -> Sum
        requires terms { sum.terms ≤ 1 }
        requires few { length terms.now ≤ 7 }
        requires factors { AllByRecursion TermWithin terms.now }
        ensures value { value_of result ≡ add_terms self.now.names (value_of sum) terms.now }
        ensures terms { result.terms ≤ 8 }
    {
        for next in terms {
            sum = self.add_term(sum, next.minus, next);
        }
        sum
    }

    /// A form with its terms collected.
    pub(crate) fn collected(&self, form: &FormText) -> Coordinate
        requires { FormWithin form.now }
        ensures { result ≡ collected self.now.names form.now }
    {
        let sum = match form.terms.as_slice() {
            [] => Sum::new(),
            [first, rest @ ..] => self.add_terms(
                self.add_term(Sum::new(), form.minus, first),
                rest,
            ),
        };
        sum.into_coordinate()
    }
}
