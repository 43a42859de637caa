use crate::transform::Decl;
use std::marker::Model;

/// A matrix in a plan: an output or a read of the rule, or a local matrix, by its number.
#[derive(Clone, Copy, Debug)]
pub enum Slot {
    Out(u32),
    Read(u32),
    Local(u32),
}

/// The local matrices of a plan and its calls, in the order in which they are written.
#[derive(Drop)]
pub struct Plan {
    pub locals: Vec<Decl>,
    pub calls: Vec<PlanCall>,
}

impl Model for Plan {
    ghost use Rattle.pb_program.specs.Plans.{PlanValue};

    ghost Value = { PlanValue };

    ghost view = { λ p. record { locals = p.locals.items; calls = p.calls.items } };
}

/// A call of a transform, by its number: the matrices that it gives, and those that it takes.
#[derive(Drop)]
pub struct PlanCall {
    pub transform: u32,
    pub targets: Vec<Slot>,
    pub arguments: Vec<Slot>,
}

impl Model for PlanCall {
    ghost use Rattle.pb_program.specs.Plans.{PlanCallValue};

    ghost Value = { PlanCallValue };

    ghost view = { λ c. record { transform = c.transform; targets = c.targets.items; arguments = c.arguments.items } };
}
