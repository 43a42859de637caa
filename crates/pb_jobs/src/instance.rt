use crate::windows::Windows;
use pb_linear::Sizes;
use pb_program::{Prog, Read, Transform};
use pb_values::View;
use pb_views::Window;
use std::marker::Model;

/// An instance of a transform: the program, the transform with its number, the sizes, its matrices as views of cells, and the
/// views of its rules at these sizes. A matrix that is given may be a view of another instance's cells.
#[derive(Drop)]
pub struct Instance<'a> {
    pub program: &'a Prog,
    pub number: u32,
    pub transform: &'a Transform,
    pub sizes: &'a Sizes,
    pub views: &'a [View],
    pub windows: &'a [Windows],
}

impl<'a> Model for Instance<'a> {
    ghost use Rattle.std.specs.Coded.{codes};
    ghost use Rattle.pb_program.specs.contracts.statement.Stmt as statement;
    ghost use Rattle.pb_jobs.specs.Instances.{InstanceValue};

    ghost Value = { InstanceValue };

    ghost coded = { Prim.hlevel (codes, statement.the_row.coded) };

    ghost view = { λ i. record {
      program = i.program.now;
      number = i.number;
      transform = i.transform.now;
      sizes = i.sizes.now;
      views = i.views.now;
      windows = i.windows.now;
    } };
}

impl<'a> Instance<'a> {
    ghost use Rattle.std.specs.Prelude.{◌≡◌, ◌<◌, Some, length, slice_get};
    ghost use Rattle.pb_program.specs.Trees.{ProgRule};
    ghost use Rattle.pb_jobs.specs.Instances.{IsReady, of_sizes, of_transform};
    ghost use Rattle.pb_jobs.specs.Shown.{AreWindows};

    pub(crate) fn program(&self) -> &Prog
        ensures { result.now ≡ self.now.program }
    {
        self.program
    }

    pub(crate) fn transform_number(&self) -> u32
        ensures { result ≡ self.now.number }
    {
        self.number
    }

    pub(crate) fn sizes(&self) -> &Sizes
        ensures { result.now ≡ self.now.sizes }
    {
        self.sizes
    }

    pub(crate) fn views(&self) -> &[View]
        ensures { result.now ≡ self.now.views }
    {
        self.views
    }

    /// What the rule with this number reads.
    pub(crate) fn reads(&self, k: u32) -> &[Read]
        requires { k < length self.now.transform.rules }
        ensures { (r : ProgRule) → slice_get (of_transform self.now).rules k ≡ Some r → result.now ≡ r.reads }
    {
        let transform = self.transform;
        let rule = &transform.rules[k as usize];
        &rule.reads
    }

    /// Its outputs.
    pub(crate) fn outs(&self, k: u32) -> &[Read]
        requires { k < length self.now.transform.rules }
        ensures { (r : ProgRule) → slice_get (of_transform self.now).rules k ≡ Some r → result.now ≡ r.outs }
    {
        let transform = self.transform;
        let rule = &transform.rules[k as usize];
        &rule.outs
    }

    /// What it reads, at the instance's sizes.
    pub(crate) fn read_windows(&self, k: u32) -> &[Window]
        requires ready { IsReady self.now }
        requires below { k < length self.now.transform.rules }
        ensures { (r : ProgRule) → slice_get (of_transform self.now).rules k ≡ Some r → AreWindows (of_sizes self.now) r.reads result.now }
    {
        let windows = &self.windows[k as usize];
        &windows.reads
    }

    /// Its outputs, at the instance's sizes.
    pub(crate) fn out_windows(&self, k: u32) -> &[Window]
        requires ready { IsReady self.now }
        requires below { k < length self.now.transform.rules }
        ensures { (r : ProgRule) → slice_get (of_transform self.now).rules k ≡ Some r → AreWindows (of_sizes self.now) r.outs result.now }
    {
        let windows = &self.windows[k as usize];
        &windows.outs
    }
}
