ghost use Rattle.std.specs.Prelude.{◌≡◌, [], map, IfOk, IfErr, OnOk};
ghost use Rattle.std.specs.List.{flat_map};
ghost use Rattle.pb_names.specs.Faults.{Fails};
ghost use Rattle.pb_names.specs.Bodies.{named, use_faults, term_of, term_faults, local_form, form_faults};

use crate::scope::Scope;
use pb_names::Fault;
use pb_program::{LocalForm, LocalTerm, Named};
use pb_syntax::{FormText, TermText};
use pb_values::Name;

impl<'t, 'p> Scope<'t, 'p> {
    /// What names name, in their order.
    #[tactic(auto, using(crate::proofs::FaultLemmas::fails_memory, crate::proofs::FaultLemmas::fails_next, crate::proofs::FaultLemmas::faultless_next))]
    pub(crate) fn names(&self, names: &[Name]) -> Result<Vec<Named>, Fault>
        ensures found { IfOk result (λ ns. ns.items ≡ map (named self.now) names.now) }
        ensures faultless { OnOk result (flat_map (use_faults self.now) names.now ≡ []) }
        ensures refused { IfErr result (λ f. Fails f (flat_map (use_faults self.now) names.now)) }
    {
        let mut found = Vec::new(self.alloc);
        for next in names {
            found.push(self.named(next)?)?;
        }
        Ok(found)
    }

    /// Resolves the dimensions of a local matrix.
    #[tactic(auto, using(crate::proofs::FaultLemmas::fails_memory, crate::proofs::FaultLemmas::fails_next, crate::proofs::FaultLemmas::faultless_next))]
    pub(crate) fn dims(&self, dims: &[FormText]) -> Result<Vec<LocalForm>, Fault>
        ensures found { IfOk result (λ fs. fs.items ≡ map (local_form self.now) dims.now) }
        ensures faultless { OnOk result (flat_map (form_faults self.now) dims.now ≡ []) }
        ensures refused { IfErr result (λ f. Fails f (flat_map (form_faults self.now) dims.now)) }
    {
        let mut found = Vec::new(self.alloc);
        for next in dims {
            let terms = self.terms(next.terms.as_slice())?;
            found.push(LocalForm {
                minus: next.minus,
                terms,
            })?;
        }
        Ok(found)
    }

    #[tactic(auto, using(crate::proofs::FaultLemmas::fails_memory, crate::proofs::FaultLemmas::fails_next, crate::proofs::FaultLemmas::faultless_next))]
    fn terms(&self, terms: &[TermText]) -> Result<Vec<LocalTerm>, Fault>
        ensures found { IfOk result (λ ts. ts.items ≡ map (term_of self.now) terms.now) }
        ensures faultless { OnOk result (flat_map (term_faults self.now) terms.now ≡ []) }
        ensures refused { IfErr result (λ f. Fails f (flat_map (term_faults self.now) terms.now)) }
    {
        let mut found = Vec::new(self.alloc);
        for next in terms {
            found.push(self.term(next)?)?;
        }
        Ok(found)
    }

    fn term(&self, term: &TermText) -> Result<LocalTerm, Fault>
        ensures found { IfOk result (λ t. t ≡ term_of self.now term.now) }
        ensures faultless { OnOk result (term_faults self.now term.now ≡ []) }
        ensures refused { IfErr result (λ f. Fails f (term_faults self.now term.now)) }
    {
        let name = match &term.name {
            Some(name) => Some(self.named(name)?),
            None => None,
        };
        Ok(LocalTerm {
            minus: term.minus,
            factor: term.factor,
            name,
            quotient: term.quotient,
        })
    }
}
