use crate::tree::{DeclText, RuleText};
use pb_values::Name;
use std::marker::Model;

/// A program as it is written, transform by transform.
#[derive(Drop)]
pub struct Text {
    pub transforms: Vec<TransformText>,
}

impl Model for Text {
    ghost use Rattle.std.specs.Coded.{codes};
    ghost use Rattle.pb_syntax.specs.contracts.tree.statement.StmtText as statement;
    ghost use Rattle.pb_syntax.specs.Transforms.{TextValue};

    ghost Value = { TextValue };

    ghost coded = { Prim.hlevel (codes, statement.the_row.coded) };

    ghost view = { λ t. record { transforms = t.transforms.items } };
}

/// A transform: its name, its size variables' least values, the matrices that it takes, keeps and gives, and its
/// rules.
#[derive(Drop)]
pub struct TransformText {
    pub name: Name,
    pub minimums: Vec<(Name, u64)>,
    pub from: Vec<DeclText>,
    pub through: Vec<DeclText>,
    pub to: Vec<DeclText>,
    pub rules: Vec<RuleText>,
}

impl Model for TransformText {
    ghost use Rattle.std.specs.Coded.{codes};
    ghost use Rattle.pb_syntax.specs.contracts.tree.statement.StmtText as statement;
    ghost use Rattle.pb_syntax.specs.Transforms.{TransformValue};

    ghost Value = { TransformValue };

    ghost coded = { Prim.hlevel (codes, statement.the_row.coded) };

    ghost view = { λ t. record {
      name = t.name;
      minimums = t.minimums.items;
      from = t.from.items;
      through = t.through.items;
      to = t.to.items;
      rules = t.rules.items;
    } };
}
