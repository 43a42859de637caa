ghost use Rattle.std.specs.Prelude.{◌≡◌, ◌+◌, ◌^◌, ◌≤◌, ◌<◌, [], ◌∷◌, ◌++◌, IfOk, IfErr, OnOk, length, map};
ghost use Rattle.std.specs.List.{AllByRecursion, flat_map};
ghost use Rattle.pb_program.specs.Forms.{nothing};
ghost use Rattle.pb_syntax.specs.WithinLimits.{CondWithin, UseWithin, ViewWithin};
ghost use Rattle.pb_names.specs.Faults.{Fails};
ghost use Rattle.pb_program.specs.declared.meaning.Meaning.TheVariants as meaning;
ghost use Rattle.pb_syntax.specs.declared.limits.TheConstants.{MOST_VIEWS};
ghost use Rattle.pb_names.specs.Views.{after_reads, bind, bound_faults, cond_faults, cond_of, read_faults, read_of, reads_faults, reads_of, view_of};

use crate::scope::Scope;
use crate::sum::Sum;
use pb_linear::{Form, VForm};
use pb_names::{Fault, Matrices, Matrix, copy_name};
use pb_program::{Cond, Coordinate, Meaning, Read, ReadView};
use pb_syntax::{CondText, UseText, ViewText};
use pb_values::Name;

/// A coordinate that a view doesn't have.
fn nothing() -> Coordinate
    ensures { result ≡ nothing }
{
    Sum::new().into_coordinate()
}

/// A view with its lower corner alone.
fn at_corner(matrix: u32, at: u32, view: ReadView, dims: u8, x0: Coordinate, y0: Coordinate) -> Read
    ensures { result ≡ record { matrix = matrix; at = at; view = view; dims = dims; x0 = x0; y0 = y0; x1 = nothing; y1 = nothing } }
{
    Read {
        matrix,
        at,
        view,
        dims,
        x0,
        y0,
        x1: nothing(),
        y1: nothing(),
    }
}

impl<'t, 'p> Scope<'t, 'p> {
    /// Adds a name of a view or a rule variable.
    #[tactic(auto, using(crate::proofs::FaultLemmas::fails_memory))]
    pub(crate) fn bind(
        &mut self,
        matrices: &Matrices<'t>,
        name: &'t Name,
        what: Meaning,
    ) -> Result<(), Fault>
        ensures bound { OnOk result (self.new ≡ bind self.old name.now what) }
        ensures faultless { OnOk result (bound_faults matrices.now self.old name.now ≡ []) }
        ensures refused { IfErr result (λ f. Fails f (bound_faults matrices.now self.old name.now)) }
    {
        if matrices.find(name.bytes()).is_some() {
            return Err(Fault::Duplicate(copy_name(self.alloc, name)?));
        }
        if self.meaning(name).is_some() {
            return Err(Fault::Duplicate(copy_name(self.alloc, name)?));
        }
        self.add(name, what)
    }

    /// The view of a matrix.
    pub(crate) fn view_of(&self, matrix: Matrix, u: &UseText) -> Read
        requires { ViewWithin u.now.view }
        ensures { result ≡ view_of self.now.names matrix u.now }
    {
        let at = u.matrix.at();
        let k = matrix.number;
        match &u.view {
            ViewText::Whole => at_corner(k, at, ReadView::Whole, matrix.dims, nothing(), nothing()),
            ViewText::Cell { x, y: None } => {
                at_corner(k, at, ReadView::Cell, 1, self.collected(x), nothing())
            }
            ViewText::Cell { x, y: Some(y) } => {
                let x = self.collected(x);
                at_corner(k, at, ReadView::Cell, 2, x, self.collected(y))
            }
            ViewText::Row(y) => at_corner(k, at, ReadView::Row, 2, nothing(), self.collected(y)),
            ViewText::Column(x) => {
                at_corner(k, at, ReadView::Column, 2, self.collected(x), nothing())
            }
            ViewText::Between { low, high } => Read {
                x1: self.collected(high),
                ..at_corner(k, at, ReadView::Region, 1, self.collected(low), nothing())
            },
            ViewText::Region { x0, y0, x1, y1 } => Read {
                x1: self.collected(x1),
                y1: self.collected(y1),
                ..at_corner(
                    k,
                    at,
                    ReadView::Region,
                    2,
                    self.collected(x0),
                    self.collected(y0),
                )
            },
        }
    }

    /// Resolves a view that is read.
    #[tactic(auto, using(crate::proofs::FaultLemmas::fails_left, crate::proofs::FaultLemmas::fails_right, crate::proofs::FaultLemmas::fails_memory))]
    fn read(&self, matrices: &Matrices<'t>, u: &UseText) -> Result<Read, Fault>
        requires { ViewWithin u.now.view }
        ensures found { IfOk result (λ r. r ≡ read_of matrices.now self.now u.now) }
        ensures faultless { OnOk result (read_faults matrices.now self.now u.now ≡ []) }
        ensures refused { IfErr result (λ f. Fails f (read_faults matrices.now self.now u.now)) }
    {
        match matrices.find(u.matrix.bytes()) {
            Some(matrix) => {
                self.view_forms(&u.view)?;
                Ok(self.view_of(matrix, u))
            }
            None => Err(Fault::Unknown(copy_name(self.alloc, &u.matrix)?)),
        }
    }

    /// Resolves a condition.
    #[tactic(auto, using(crate::proofs::FaultLemmas::fails_left, crate::proofs::FaultLemmas::fails_right))]
    fn condition(&self, c: &CondText) -> Result<Cond, Fault>
        requires { CondWithin c.now }
        ensures found { IfOk result (λ r. r ≡ cond_of self.now c.now) }
        ensures faultless { OnOk result (cond_faults self.now c.now ≡ []) }
        ensures refused { IfErr result (λ f. Fails f (cond_faults self.now c.now)) }
    {
        self.view_form(&c.left)?;
        self.view_form(&c.right)?;
        Ok(Cond {
            left: self.collected(&c.left),
            relation: c.relation,
            right: self.collected(&c.right),
        })
    }

    #[tactic(auto, using(crate::proofs::FaultLemmas::fails_left, crate::proofs::FaultLemmas::fails_right))]
    fn next_read(&mut self, matrices: &Matrices<'t>, k: u32, u: &'t UseText) -> Result<Read, Fault>
        requires { UseWithin u.now }
        ensures found { IfOk result (λ r. r ≡ read_of matrices.now self.old u.now) }
        ensures left { OnOk result (self.new ≡ bind self.old u.now.bound (meaning.Read k)) }
        ensures faultless { OnOk result (read_faults matrices.now self.old u.now ++ bound_faults matrices.now self.old u.now.bound ≡ []) }
        ensures refused { IfErr result (λ f. Fails f (read_faults matrices.now self.old u.now ++ bound_faults matrices.now self.old u.now.bound)) }
    {
        let read = self.read(matrices, u)?;
        self.bind(matrices, &u.bound, Meaning::Read(k))?;
        Ok(read)
    }

    /// Resolves the reads of a rule in turn, and adds their names.
    #[tactic(auto, using(crate::proofs::FaultLemmas::fails_memory, crate::proofs::TurnLemmas::none_turned, crate::proofs::TurnLemmas::turn_fails, crate::proofs::TurnLemmas::turned, crate::proofs::TurnLemmas::all_built, crate::proofs::TurnLemmas::all_clean, crate::proofs::TurnLemmas::all_seen))]
    pub(crate) fn reads(
        &mut self,
        matrices: &Matrices<'t>,
        uses: &'t [UseText],
    ) -> Result<Vec<Read>, Fault>
        requires few { length uses.now ≤ MOST_VIEWS }
        requires within { AllByRecursion UseWithin uses.now }
        ensures found { IfOk result (λ rs. rs.items ≡ reads_of matrices.now self.old uses.now) }
        ensures left { OnOk result (self.new ≡ after_reads self.old uses.now) }
        ensures faultless { OnOk result (reads_faults matrices.now self.old uses.now ≡ []) }
        ensures refused { IfErr result (λ f. Fails f (reads_faults matrices.now self.old uses.now)) }
    {
        let mut found = Vec::new(self.alloc);
        for (k, u) in uses.iter().enumerate() {
            found.push(self.next_read(matrices, k as u32, u)?)?;
        }
        Ok(found)
    }

    /// Resolves the conditions of a rule.
    #[tactic(auto, using(crate::proofs::FaultLemmas::fails_memory, crate::proofs::FaultLemmas::fails_next, crate::proofs::FaultLemmas::faultless_next))]
    pub(crate) fn conditions(&self, conds: &[CondText]) -> Result<Vec<Cond>, Fault>
        requires { AllByRecursion CondWithin conds.now }
        ensures found { IfOk result (λ cs. cs.items ≡ map (cond_of self.now) conds.now) }
        ensures faultless { OnOk result (flat_map (cond_faults self.now) conds.now ≡ []) }
        ensures refused { IfErr result (λ f. Fails f (flat_map (cond_faults self.now) conds.now)) }
    {
        let mut found = Vec::new(self.alloc);
        for next in conds {
            found.push(self.condition(next)?)?;
        }
        Ok(found)
    }
}
