use crate::meaning::{Called, Named};
use pb_syntax::{Level, Operator, Relation, UnarySign};

/// An expression whose names are resolved. It has the shape of the written one; `at` is the place of its first byte.
#[derive(Drop)]
pub enum Expr {
    Number {
        at: u32,
        value: u64,
    },
    Name(Named),
    Call {
        called: Called,
        arguments: Vec<Expr>,
    },
    Parentheses {
        at: u32,
        inner: Box<Expr>,
    },
    Cell {
        view: Named,
        coordinates: Vec<Expr>,
    },
    Width(Named),
    Height(Named),
    Signed {
        at: u32,
        sign: UnarySign,
        operand: Box<Expr>,
    },
    Chain {
        level: Level,
        first: Box<Expr>,
        rest: Vec<(Operator, Expr)>,
    },
    Compare {
        left: Box<Expr>,
        relation: Relation,
        right: Box<Expr>,
    },
}
