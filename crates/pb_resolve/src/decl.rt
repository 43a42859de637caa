ghost use Rattle.std.specs.Prelude.{◌≡◌, ◌^◌, ◌≤◌, IfOk, unsigned_abs};
ghost use Rattle.pb_linear.specs.Form.{numbers};
ghost use Rattle.pb_program.specs.Forms.{constant_numbers};
ghost use Rattle.pb_syntax.specs.WithinLimits.{DimsWithin};
ghost use Rattle.pb_names.specs.Rules.{decl_of};

use crate::scope::Scope;
use crate::sum::Sum;
use pb_linear::Form;
use pb_names::copy_name;
use pb_program::{Coordinate, Decl};
use pb_syntax::FormText;
use pb_values::Name;
use std::alloc::AllocError;

/// The form over the sizes of a coordinate.
fn rest_of(c: Coordinate) -> Form
    ensures { numbers result ≡ c.rest }
{
    let Coordinate { form, quotient: _ } = c;
    form.rest
}

/// The form of a number.
fn constant(k: i64) -> Form
    requires { unsigned_abs k ≤ 2 ^ 20 }
    ensures { numbers result ≡ constant_numbers k }
{
    rest_of(Sum::new().with_number(k).into_coordinate())
}

impl<'t, 'p> Scope<'t, 'p> {
    /// A matrix with its dimensions.
    pub(crate) fn decl(&self, name: &Name, dims: &[FormText]) -> Result<Decl, AllocError>
        requires { DimsWithin dims.now }
        ensures { IfOk result (λ d. d ≡ decl_of self.now.names name.now dims.now) }
    {
        let name = copy_name(self.alloc, name)?;
        match dims {
            [] => Ok(Decl {
                name,
                dims: 1,
                w: constant(0),
                h: constant(1),
            }),
            [w] => Ok(Decl {
                name,
                dims: 1,
                w: rest_of(self.collected(w)),
                h: constant(1),
            }),
            [w, h, ..] => Ok(Decl {
                name,
                dims: 2,
                w: rest_of(self.collected(w)),
                h: rest_of(self.collected(h)),
            }),
        }
    }
}
