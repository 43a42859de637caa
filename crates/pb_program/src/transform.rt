use crate::rule::Rule;
use pb_linear::{Form, Ranges};
use pb_values::Name;
use std::marker::Model;

/// A matrix: its name, its number of dimensions, 1 or 2, its width and its height. The height is 1 where there is one
/// dimension.
#[derive(Drop)]
pub struct Decl {
    pub name: Name,
    pub dims: u8,
    pub w: Form,
    pub h: Form,
}

impl Model for Decl {
    ghost use Rattle.pb_linear.specs.Form.{numbers};
    ghost use Rattle.pb_program.specs.Forms.{DeclValue};

    ghost Value = { DeclValue };

    ghost view = { λ d. record { name = d.name; dims = d.dims; w = numbers d.w; h = numbers d.h } };
}

/// A transform: the names of its size variables with their ranges; its matrices, of which the first `inputs` are given,
/// the next `middles` are kept and the others are its results; and its rules.
#[derive(Drop)]
pub struct Transform {
    pub name: Name,
    pub ranges: Ranges,
    pub sizes: Vec<Name>,
    pub matrices: Vec<Decl>,
    pub inputs: u32,
    pub middles: u32,
    pub rules: Vec<Rule>,
}

impl Model for Transform {
    ghost use Rattle.std.specs.Coded.{codes};
    ghost use Rattle.pb_program.specs.contracts.statement.Stmt as statement;
    ghost use Rattle.pb_program.specs.Transforms.{TransformValue};

    ghost Value = { TransformValue };

    ghost coded = { Prim.hlevel (codes, statement.the_row.coded) };

    ghost view = { λ t. record {
      name = t.name;
      ranges = t.ranges;
      sizes = t.sizes.items;
      matrices = t.matrices.items;
      inputs = t.inputs;
      middles = t.middles;
      rules = t.rules.items;
    } };
}

/// A program whose names are resolved.
#[derive(Drop)]
pub struct Prog {
    pub transforms: Vec<Transform>,
}

impl Model for Prog {
    ghost use Rattle.std.specs.Coded.{codes};
    ghost use Rattle.pb_program.specs.contracts.statement.Stmt as statement;
    ghost use Rattle.pb_program.specs.Transforms.{ProgValue};

    ghost Value = { ProgValue };

    ghost coded = { Prim.hlevel (codes, statement.the_row.coded) };

    ghost view = { λ p. record { transforms = p.transforms.items } };
}
