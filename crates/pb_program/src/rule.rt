use crate::plan::Plan;
use crate::statement::Stmt;
use crate::view::{Cond, Read};
use pb_values::Name;
use std::marker::Model;

/// The kinds of rules: one that makes a single cell, whose coordinates are its rule variables; one that computes a region
/// or more at once; one that calls transforms.
#[derive(Clone, Copy, Debug)]
pub enum RuleKind {
    Cell,
    Wide,
    Plan,
}

/// A rule: its priority, 0 first; its kind; the views that it writes, with the names that they have in the body, and those that it
/// reads; its conditions and its body.
#[derive(Drop)]
pub struct Rule {
    pub priority: u32,
    pub kind: RuleKind,
    pub outs: Vec<Read>,
    pub names: Vec<Name>,
    pub reads: Vec<Read>,
    pub conds: Vec<Cond>,
    pub body: Body,
}

impl Model for Rule {
    ghost use Rattle.std.specs.Coded.{codes};
    ghost use Rattle.pb_program.specs.contracts.statement.Stmt as statement;
    ghost use Rattle.pb_program.specs.Rules.{RuleValue};

    ghost Value = { RuleValue };

    ghost coded = { Prim.hlevel (codes, statement.the_row.coded) };

    ghost view = { λ r. record {
      priority = r.priority;
      kind = r.kind;
      outs = r.outs.items;
      names = r.names.items;
      reads = r.reads.items;
      conds = r.conds.items;
      body = r.body;
    } };
}

/// The statements of a rule; for a rule that calls transforms also what it calls, where each statement is a declaration of
/// a matrix or a call whose targets and arguments are outputs, reads and such matrices.
#[derive(Drop)]
pub struct Body {
    pub stmts: Vec<Stmt>,
    pub plan: Option<Plan>,
}

impl Model for Body {
    ghost use Rattle.std.specs.Coded.{codes};
    ghost use Rattle.pb_program.specs.contracts.statement.Stmt as statement;
    ghost use Rattle.pb_program.specs.Rules.{BodyValue};

    ghost Value = { BodyValue };

    ghost coded = { Prim.hlevel (codes, statement.the_row.coded) };

    ghost view = { λ b. record { stmts = b.stmts.items; plan = b.plan } };
}
