use crate::tree::{CondText, MarkText, StmtText, UseText};
use std::marker::Model;

/// A rule: its mark, the views that it writes, those that it reads, its conditions and its body.
#[derive(Drop)]
pub struct RuleText {
    pub mark: MarkText,
    pub outs: Vec<UseText>,
    pub reads: Vec<UseText>,
    pub conds: Vec<CondText>,
    pub stmts: Vec<StmtText>,
}

impl Model for RuleText {
    ghost use Rattle.std.specs.Coded.{codes};
    ghost use Rattle.pb_syntax.specs.Rules.{RuleValue};
    ghost use Rattle.pb_syntax.specs.contracts.tree.statement.StmtText as statement;

    ghost Value = { RuleValue };

    ghost coded = { Prim.hlevel (codes, statement.the_row.coded) };

    ghost view = { λ r. record {
      mark = r.mark;
      outs = r.outs.items;
      reads = r.reads.items;
      conds = r.conds.items;
      stmts = r.stmts.items;
    } };
}
