use crate::form::Form;
use crate::vform::VForm;
use std::marker::Model;

/// Where a rule applies on one output: the lower bounds of x and y, of which the greatest counts,
/// and the upper bounds, of which the least counts. An upper bound is exclusive.
#[derive(Drop)]
pub struct RuleBox {
    pub rule: u32,
    pub priority: u32,
    pub guarded: bool,
    pub wide: bool,
    pub lower_x: Vec<Form>,
    pub upper_x: Vec<Form>,
    pub lower_y: Vec<Form>,
    pub upper_y: Vec<Form>,
}

impl Model for RuleBox {
    ghost use Rattle.pb_linear.specs.RuleBox.{Bounds};

    ghost Value = { Bounds };

    ghost view = { λ b. record {
      rule = b.rule;
      priority = b.priority;
      guarded = b.guarded;
      wide = b.wide;
      lower_x = b.lower_x.items;
      upper_x = b.upper_x.items;
      lower_y = b.lower_y.items;
      upper_y = b.upper_y.items;
    } };
}

/// The cells of a matrix that a rule reads: x from `x0` to before `x1`, y from `y0` to before `y1`.
#[derive(Clone, Copy, PartialEq, Eq, Debug)]
pub struct ReadBox {
    pub rule: u32,
    pub wide: bool,
    pub matrix: u32,
    pub x0: VForm,
    pub x1: VForm,
    pub y0: VForm,
    pub y1: VForm,
}

/// A direction along an axis.
#[derive(Clone, Copy, PartialEq, Eq, Debug)]
pub enum Sign {
    Plus,
    Minus,
}

/// A step along an axis: 0 is x, 1 is y.
#[derive(Clone, Copy, PartialEq, Eq, Debug)]
pub struct Step {
    pub axis: u8,
    pub sign: Sign,
}
