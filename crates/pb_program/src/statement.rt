use crate::expression::Expr;
use crate::meaning::{Called, Named};
use std::marker::Model;

/// A statement whose names are resolved. It has the shape of the written one; `at` is the place of its first byte.
#[derive(Drop)]
pub enum Stmt {
    Let {
        at: u32,
        name: Named,
        value: Expr,
    },
    LetMatrix {
        at: u32,
        name: Named,
        dims: Vec<LocalForm>,
    },
    Assign {
        target: Named,
        value: Expr,
    },
    Call {
        targets: Vec<Named>,
        called: Called,
        arguments: Vec<Expr>,
    },
    AssignCell {
        target: Named,
        coordinates: Vec<Expr>,
        value: Expr,
    },
    If {
        at: u32,
        test: Expr,
        then: Vec<Stmt>,
        otherwise: Option<Vec<Stmt>>,
    },
    For {
        at: u32,
        name: Named,
        start: Expr,
        end: Expr,
        body: Vec<Stmt>,
    },
}

/// A dimension of a local matrix: a sum of terms; `minus` stands before the first.
#[derive(Drop)]
pub struct LocalForm {
    pub minus: bool,
    pub terms: Vec<LocalTerm>,
}

impl Model for LocalForm {
    ghost use Rattle.pb_program.specs.Forms.{LocalFormValue};

    ghost Value = { LocalFormValue };

    ghost view = { λ f. record { minus = f.minus; terms = f.terms.items } };
}

/// A term as it is written: a number, or a name with a factor or a quotient. Where no factor is written before the name
/// it is 1, and where no quotient is written it is 0.
#[derive(Clone, Copy, Debug)]
pub struct LocalTerm {
    pub minus: bool,
    pub factor: u64,
    pub name: Option<Named>,
    pub quotient: u8,
}
