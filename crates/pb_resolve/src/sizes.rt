ghost use Rattle.std.specs.Prelude.{◌≡◌, ◌≤◌, IfErr, OnOk, length};
ghost use Rattle.pb_syntax.specs.Limits.{alone};
ghost use Rattle.pb_syntax.specs.declared.limits.TheConstants.{MOST_SIZES};
ghost use Rattle.pb_names.specs.declared.fault.Fault.TheVariants.{Memory};
ghost use Rattle.pb_names.specs.Transforms.{entries, put_size, sizes_in, sizes_of};

use pb_names::{Fault, Names, alone, copy_name};
use pb_program::Meaning;
use pb_syntax::{DeclText, FormText};
use pb_values::Name;
use std::alloc::Global;

/// Adds the size variable that a dimension is, if it is one that isn't known.
#[tactic(auto, using(pb_names::proofs::SizeNames::entries_more))]
fn put_size<'t>(
    alloc: Global,
    names: &mut Names<'t, Meaning>,
    found: &mut Vec<Name>,
    form: &'t FormText,
) -> Result<(), Fault>
    requires few { length found.old.items ≤ MOST_SIZES }
    requires agree { names.old ≡ entries 0 found.old.items }
    ensures found { OnOk result (found.new.items ≡ put_size found.old.items (alone form.now)) }
    ensures agree { OnOk result (names.new ≡ entries 0 found.new.items) }
    ensures refused { IfErr result (λ f. f ≡ Memory) }
{
    if let Some(name) = alone(form) {
        if names.find(name.bytes()).is_none() {
            names.add(name.bytes(), Meaning::Size(found.len() as u32))?;
            found.push(copy_name(alloc, name)?)?;
        }
    }
    Ok(())
}

#[tactic(auto, using(crate::proofs::SizeLemmas::in_next, crate::proofs::SizeLemmas::in_few, crate::proofs::SizeLemmas::in_end))]
fn sizes_in<'t>(
    alloc: Global,
    names: &mut Names<'t, Meaning>,
    found: &mut Vec<Name>,
    forms: &'t [FormText],
) -> Result<(), Fault>
    requires few { length (sizes_in found.old.items forms.now) ≤ MOST_SIZES }
    requires agree { names.old ≡ entries 0 found.old.items }
    ensures found { OnOk result (found.new.items ≡ sizes_in found.old.items forms.now) }
    ensures agree { OnOk result (names.new ≡ entries 0 found.new.items) }
    ensures refused { IfErr result (λ f. f ≡ Memory) }
{
    for next in forms {
        put_size(alloc, names, found, next)?;
    }
    Ok(())
}

/// Adds the size variables of matrices that are given, in the order in which they are first alone.
#[tactic(auto, using(crate::proofs::SizeLemmas::of_next, crate::proofs::SizeLemmas::of_few, crate::proofs::SizeLemmas::of_end))]
pub(crate) fn sizes<'t>(
    alloc: Global,
    names: &mut Names<'t, Meaning>,
    found: &mut Vec<Name>,
    decls: &'t [DeclText],
) -> Result<(), Fault>
    requires few { length (sizes_of found.old.items decls.now) ≤ MOST_SIZES }
    requires agree { names.old ≡ entries 0 found.old.items }
    ensures found { OnOk result (found.new.items ≡ sizes_of found.old.items decls.now) }
    ensures agree { OnOk result (names.new ≡ entries 0 found.new.items) }
    ensures refused { IfErr result (λ f. f ≡ Memory) }
{
    for next in decls {
        sizes_in(alloc, names, found, next.dims.as_slice())?;
    }
    Ok(())
}
