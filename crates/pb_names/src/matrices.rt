use crate::names::Names;
use std::alloc::{AllocFailed, Global};
use std::marker::Model;

/// A declared matrix: its number, from 0, and its number of dimensions.
#[derive(Clone, Copy)]
pub struct Matrix {
    pub number: u32,
    pub dims: u8,
}

/// The matrices of a transform by their names; the first `inputs` are given.
#[derive(Drop)]
pub struct Matrices<'t> {
    names: Names<'t, Matrix>,
    inputs: u32,
}

impl<'t> Model for Matrices<'t> {
    ghost use Rattle.pb_names.specs.Views.{Matrices as Known};

    ghost Value = { Known };

    ghost view = { λ m. record { names = m.names; inputs = m.inputs } };
}

impl<'t> Matrices<'t> {
    ghost use Rattle.std.specs.Prelude.{◌≡◌, ◌^◌, ◌<◌, [], ◌∷◌, ◌++◌, None, OnOk, length};
    ghost use Rattle.pb_names.specs.Names.{look};
    ghost use Rattle.pb_names.specs.Views.{is_given};

    /// No matrices, of which the first `inputs` are given.
    pub fn new(alloc: Global, inputs: u32) -> Matrices<'t>
        ensures { result ≡ record { names = []; inputs = inputs } }
    {
        Matrices {
            names: Names::new(alloc),
            inputs,
        }
    }

    /// Adds a matrix with the next number.
    pub fn add(&mut self, name: &'t [u8], dims: u8) -> Result<(), AllocFailed<(&'t [u8], Matrix)>>
        requires few { length self.old.names < 2 ^ 32 }
        requires new { look name.now self.old.names ≡ None }
        ensures { OnOk result (self.new ≡ record { names = self.old.names ++ (name.now, record { number = length self.old.names; dims = dims }) ∷ []; inputs = self.old.inputs }) }
    {
        let number = self.names.count() as u32;
        self.names.add(name, Matrix { number, dims })
    }

    /// The matrix of this name.
    pub fn find(&self, name: &[u8]) -> Option<Matrix>
        ensures { result ≡ look name.now self.now.names }
    {
        self.names.find(name)
    }

    /// Whether a matrix is given to the transform.
    pub fn is_given(&self, matrix: Option<Matrix>) -> bool
        ensures { result ≡ is_given self.now matrix }
    {
        match matrix {
            Some(matrix) => matrix.number < self.inputs,
            None => false,
        }
    }
}
