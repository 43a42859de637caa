ghost use Rattle.std.specs.Prelude.{◌≡◌, IfOk};
ghost use Rattle.pb_names.specs.Bodies.{function_of};

use pb_names::{Fault, Names, copy_name, function_of};
use pb_program::{Called, Callee, Function, Meaning, Named};
use pb_values::Name;
use std::alloc::{AllocError, Global};
use std::marker::Model;

/// What a place of a body sees: the transforms of the program, and the names of sizes, rule variables, bound views and
/// locals.
#[derive(Drop)]
pub(crate) struct Scope<'t, 'p> {
    pub(crate) alloc: Global,
    transforms: &'p Names<'t, u32>,
    names: Names<'t, Meaning>,
    locals: u32,
}

impl<'t, 'p> Model for Scope<'t, 'p> {
    ghost use Rattle.pb_names.specs.Bodies.{Visible};

    ghost Value = { Visible };

    ghost view = { λ s. record { transforms = s.transforms.now; names = s.names; locals = s.locals } };
}

/// A place in a scope to which it can go back.
#[derive(Clone, Copy)]
pub(crate) struct Mark {
    names: usize,
    locals: u32,
}

impl Mark {
    ghost use Rattle.std.specs.Prelude.{◌≡◌};

    /// The number of the next local at the mark.
    pub(crate) fn locals(&self) -> u32
        ensures { result ≡ self.now.locals }
    {
        self.locals
    }
}

impl<'t, 'p> Scope<'t, 'p> {
    ghost use Rattle.std.specs.Prelude.{◌+◌, [], ◌∷◌, ◌++◌, None, IfErr, OnOk, take, length};
    ghost use Rattle.pb_names.specs.Faults.{Fails};
    ghost use Rattle.pb_names.specs.declared.fault.Fault.TheVariants.{Memory};
    ghost use Rattle.pb_names.specs.Names.{look};
    ghost use Rattle.pb_names.specs.Bodies.{named, called, use_faults, called_faults, declared_faults};

    /// What the header of a transform sees: the transforms, and its sizes.
    pub(crate) fn new(
        alloc: Global,
        transforms: &'p Names<'t, u32>,
        names: Names<'t, Meaning>,
    ) -> Scope<'t, 'p>
        ensures { result ≡ record { transforms = transforms.now; names = names.entry; locals = 0 } }
    {
        Scope {
            alloc,
            transforms,
            names,
            locals: 0,
        }
    }

    /// What a name names, if it is visible.
    pub(crate) fn meaning(&self, name: &Name) -> Option<Meaning>
        ensures { result ≡ look name.now.bytes self.now.names }
    {
        self.names.find(name.bytes())
    }

    /// What a name names.
    pub(crate) fn named(&self, name: &Name) -> Result<Named, Fault>
        ensures found { IfOk result (λ n. n ≡ named self.now name.now) }
        ensures faultless { OnOk result (use_faults self.now name.now ≡ []) }
        ensures refused { IfErr result (λ f. Fails f (use_faults self.now name.now)) }
    {
        match self.names.find(name.bytes()) {
            Some(what) => Ok(Named {
                at: name.at(),
                what,
            }),
            None => Err(Fault::Unknown(copy_name(self.alloc, name)?)),
        }
    }

    /// What the name of a call calls.
    pub(crate) fn called(&self, name: &Name) -> Result<Called, Fault>
        ensures found { IfOk result (λ n. n ≡ called self.now name.now) }
        ensures faultless { OnOk result (called_faults self.now name.now ≡ []) }
        ensures refused { IfErr result (λ f. Fails f (called_faults self.now name.now)) }
    {
        match self.callee(name.bytes()) {
            Some(what) => Ok(Called {
                at: name.at(),
                what,
            }),
            None => Err(Fault::Unknown(copy_name(self.alloc, name)?)),
        }
    }

    ghost use Rattle.pb_names.specs.Bodies.{called_name};

    fn callee(&self, name: &[u8]) -> Option<Callee>
        ensures { result ≡ called_name self.now name.now }
    {
        if let Some(function) = function_of(name) {
            return Some(Callee::Function(function));
        }
        let transform = self.transforms.find(name)?;
        Some(Callee::Transform(transform))
    }

    /// Whether a local may have this name: none that is visible has it.
    pub(crate) fn is_new(&self, name: &Name) -> Result<(), Fault>
        ensures new { OnOk result (look name.now.bytes self.now.names ≡ None) }
        ensures faultless { OnOk result (declared_faults self.now name.now ≡ []) }
        ensures refused { IfErr result (λ f. Fails f (declared_faults self.now name.now)) }
    {
        match self.names.find(name.bytes()) {
            Some(_) => Err(Fault::Duplicate(copy_name(self.alloc, name)?)),
            None => Ok(()),
        }
    }

    /// The number of the next local.
    pub(crate) fn next_local(&self) -> u32
        ensures { result ≡ self.now.locals }
    {
        self.locals
    }

    /// Adds a name that isn't visible.
    pub(crate) fn add(&mut self, name: &'t Name, what: Meaning) -> Result<(), Fault>
        requires { look name.now.bytes self.old.names ≡ None }
        ensures added { OnOk result (self.new ≡ record {
          transforms = self.old.transforms;
          names = self.old.names ++ (name.now.bytes, what) ∷ [];
          locals = self.old.locals;
        }) }
        ensures refused { IfErr result (λ f. f ≡ Memory) }
    {
        self.names.add(name.bytes(), what)?;
        Ok(())
    }

    /// Adds a local.
    pub(crate) fn declare(&mut self, name: &'t Name, what: Meaning) -> Result<Named, Fault>
        requires { look name.now.bytes self.old.names ≡ None }
        ensures found { IfOk result (λ n. n ≡ record { at = name.now.at; what = what }) }
        ensures declared { OnOk result (self.new ≡ record {
          transforms = self.old.transforms;
          names = self.old.names ++ (name.now.bytes, what) ∷ [];
          locals = self.old.locals + 1;
        }) }
        ensures refused { IfErr result (λ f. Fails f []) }
    {
        let locals = self.locals.checked_add(1).ok_or(Fault::Memory)?;
        self.names.add(name.bytes(), what)?;
        self.locals = locals;
        Ok(Named {
            at: name.at(),
            what,
        })
    }

    /// The place to which the scope goes back after a block.
    pub(crate) fn mark(&self) -> Mark
        ensures { result ≡ record { names = length self.now.names; locals = self.now.locals } }
    {
        Mark {
            names: self.names.count(),
            locals: self.locals,
        }
    }

    /// Forgets what was declared after the mark.
    pub(crate) fn leave(&mut self, mark: Mark)
        ensures { self.new ≡ record { transforms = self.old.transforms; names = take mark.names self.old.names; locals = mark.locals } }
    {
        self.names.forget(mark.names);
        self.locals = mark.locals;
    }
}
