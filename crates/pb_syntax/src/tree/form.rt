use pb_values::Name;
use std::marker::Model;

/// A matrix and its one or two dimensions.
#[derive(Drop)]
pub struct DeclText {
    pub name: Name,
    pub dims: Vec<FormText>,
}

impl Model for DeclText {
    ghost use Rattle.pb_syntax.specs.Forms.{DeclValue};

    ghost Value = { DeclValue };

    ghost view = { λ d. record { name = d.name; dims = d.dims.items } };
}

/// A sum of terms; `minus` stands before the first.
#[derive(Drop)]
pub struct FormText {
    pub minus: bool,
    pub terms: Vec<TermText>,
}

impl Model for FormText {
    ghost use Rattle.pb_syntax.specs.Forms.{FormValue};

    ghost Value = { FormValue };

    ghost view = { λ f. record { minus = f.minus; terms = f.terms.items } };
}

/// A number, or a name with a factor or a quotient: `factor`, `factor * name` or `name / quotient`. Where no
/// factor is written before the name it is 1, and where no quotient is written it is 0. `minus` stands before a
/// term that isn't the first.
#[derive(Drop)]
pub struct TermText {
    pub minus: bool,
    pub factor: u64,
    pub name: Option<Name>,
    pub quotient: u8,
}
