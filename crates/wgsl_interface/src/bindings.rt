//! Resources at one group and binding (WGSL: resource interface).

ghost use Rattle.std.specs.Prelude.{◌≡◌, IfOk, OnOk, if◌then◌else◌};
ghost use Rattle.std.specs.Option.{option_or};
ghost use Rattle.wgsl_interface.specs.Bindings.{is_same, firsts, binding_of, pairs};
ghost use Rattle.wgsl_interface.specs.FirstNumbers.{number_at};
ghost use Rattle.wgsl_interface.specs.declared.bindings.Binding.{Binding};

use std::alloc::{AllocError, Global};
use std::collections::BTreeMap;

/// The group and the binding of a resource.
#[derive(Clone, Copy, Debug, PartialEq, Eq, PartialOrd, Ord)]
pub struct Binding {
    pub group: u32,
    pub binding: u32,
}

/// Two resources at one group and binding, by the numbers of their declarations.
#[derive(Clone, Copy, Debug, PartialEq, Eq)]
pub struct BindingPair {
    /// The first of all that are there.
    pub first: usize,
    pub later: usize,
}

/// For each of these, the number of the first in front of it that is the same; `None` where there is
/// none (WGSL: resource interface). Resources of one entry point differ.
///
/// Memory alone is refused. It takes time as n log n.
pub fn first_at_binding(
    alloc: Global,
    bindings: &[Binding],
) -> Result<Vec<Option<usize>>, AllocError>
    ensures { IfOk result (λ found. found.items ≡ firsts bindings.now) }
{
    let mut found = Vec::with_capacity(alloc, bindings.len())?;
    let mut firsts = Firsts::new(alloc);
    for (i, binding) in bindings.iter().enumerate() {
        let first = firsts.enter(*binding, i)?;
        found.push(first)?;
    }
    Ok(found)
}

/// The declarations that are, in the interface of one entry point, at the group and binding of another
/// in front of them, each with the first one there (WGSL: resource interface). `bindings` has the group
/// and the binding of each declaration that has them, by its number, and `used` the numbers of those
/// that the entry point uses, each once, as [`reached`](crate::reached) gives them.
///
/// Memory alone is refused. It takes time as n log n for n that are used.
pub fn pairs_at_binding(
    alloc: Global,
    bindings: &[Option<Binding>],
    used: &[usize],
) -> Result<Vec<BindingPair>, AllocError>
    ensures { IfOk result (λ found. found.items ≡ pairs bindings.now used.now) }
{
    let mut found = Vec::new(alloc);
    let mut firsts = Firsts::new(alloc);
    for &later in used {
        let Some(binding) = binding_of(bindings, later) else {
            continue;
        };
        if let Some(first) = firsts.enter(binding, later)? {
            found.push(BindingPair { first, later })?;
        }
    }
    Ok(found)
}

fn binding_of(bindings: &[Option<Binding>], declaration: usize) -> Option<Binding>
    ensures { result ≡ binding_of bindings.now declaration }
{
    bindings.get(declaration).copied()?
}

/// What came first at each group and binding.
#[derive(Drop)]
struct Firsts {
    numbers: BTreeMap<Binding, usize>,
}

impl Firsts {
    fn new(alloc: Global) -> Self
        ensures { (x : Binding) → number_at result x ≡ None }
    {
        Firsts {
            numbers: BTreeMap::new(alloc),
        }
    }

    // The number that came first at the binding. Where none came, this one does.
    fn enter(&mut self, binding: Binding, number: usize) -> Result<Option<usize>, AllocError>
        ensures first { IfOk result (λ first. first ≡ number_at self.old binding) }
        ensures entered { OnOk result ((x : Binding) → number_at self.new x ≡ option_or (number_at self.old x) (if is_same x binding then Some number else None)) }
    {
        let first = self.numbers.get(&binding).copied();
        if first.is_none() {
            self.numbers.insert(binding, number)?;
        }
        Ok(first)
    }
}
