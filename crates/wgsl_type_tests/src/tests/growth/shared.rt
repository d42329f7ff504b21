//! What types break of the rules of address spaces, what declarations reach, and resources at one binding.

use crate::tests::asserts::assert_same;
use std::alloc::{AllocError, Global};
use std::process::Abort;
use wgsl_interface::{
    Binding, BindingPair, ShareFault, ShareRule, first_at_binding, pairs_at_binding, reached,
    share_faults, struct_faults,
};
use wgsl_rules::{AddressSpace, StructType, Type};
use wgsl_samples::types::{array, member, struct_type};

/// struct S { on: bool, rows: array<array<f32>, 2> }
fn of_two_faults(alloc: Global) -> Result<StructType, AllocError> {
    let on = member(alloc, "on", Type::Bool, None)?;
    let rows = array(alloc, array(alloc, Type::F32, None)?, Some(2))?;
    let rows = member(alloc, "rows", rows, None)?;
    struct_type(alloc, "S", vec![in alloc; on, rows]?)
}

/// struct S { s: S { on: bool, rows: array<array<f32>, 2> } }
fn of_faults_inside(alloc: Global) -> Result<Type, AllocError> {
    let inside = Type::Struct(Box::new(alloc, of_two_faults(alloc)?)?);
    let ty = struct_type(
        alloc,
        "S",
        vec![in alloc; member(alloc, "s", inside, None)?]?,
    )?;
    Ok(Type::Struct(Box::new(alloc, ty)?))
}

/// Asserts that the fault is this one.
fn assert_fault(rt: &impl Abort, fault: Option<&ShareFault>, path: &str, rule: ShareRule) {
    let fault = fault.expect(rt, "a fault");
    assert_same(rt, fault.path.as_str(), path);
    assert_same(rt, fault.rule, rule);
}

/// Asserts what the type breaks, where one growth alone may be refused.
fn assert_shared(rt: &impl Abort, alloc: Global, ty: Type) {
    let space = AddressSpace::Storage;
    let faults = match share_faults(alloc, &ty, space, None) {
        Ok(faults) => faults,
        Err(_) => share_faults(alloc, &ty, space, None).expect(rt, "memory"),
    };
    assert_same(rt, faults.len(), 2);
    assert_fault(rt, faults.first(), "s.on", ShareRule::BoolShared);
    assert_fault(rt, faults.last(), "s.rows[]", ShareRule::RuntimeInArray);
}

#[test]
fn what_a_type_breaks_is_refused_or_told(rt: HostRuntime) {
    let alloc = rt.alloc();
    if let Ok(ty) = of_faults_inside(alloc) {
        assert_shared(&rt, alloc, ty);
    }
}

/// Asserts what the structure breaks, where one growth alone may be refused.
fn assert_declared(rt: &impl Abort, alloc: Global, ty: StructType) {
    let faults = match struct_faults(alloc, &ty) {
        Ok(faults) => faults,
        Err(_) => struct_faults(alloc, &ty).expect(rt, "memory"),
    };
    assert_same(rt, faults.len(), 1);
    assert_fault(rt, faults.first(), "rows[]", ShareRule::RuntimeInArray);
}

#[test]
fn what_a_structure_breaks_is_refused_or_told(rt: HostRuntime) {
    let alloc = rt.alloc();
    if let Ok(ty) = of_two_faults(alloc) {
        assert_declared(&rt, alloc, ty);
    }
}

#[test]
fn firsts_at_a_binding_are_refused_or_found(rt: HostRuntime) {
    let alloc = rt.alloc();
    let mut bindings = [Binding {
        group: 0,
        binding: 0,
    }; 9];
    bindings[4] = Binding {
        group: 0,
        binding: 1,
    };
    let firsts = match first_at_binding(alloc, &bindings) {
        Ok(firsts) => firsts,
        Err(_) => first_at_binding(alloc, &bindings).expect(&rt, "memory"),
    };
    assert_same(&rt, firsts.len(), 9);
    assert_same(&rt, firsts[0], None);
    assert_same(&rt, firsts[4], None);
    assert_same(&rt, firsts[8], Some(0));
}

#[test]
fn pairs_at_a_binding_are_refused_or_found(rt: HostRuntime) {
    let alloc = rt.alloc();
    let bindings = [Some(Binding {
        group: 0,
        binding: 0,
    }); 9];
    let used = [0, 1, 2, 3, 4, 5, 6, 7, 8];
    let pairs = match pairs_at_binding(alloc, &bindings, &used) {
        Ok(pairs) => pairs,
        Err(_) => pairs_at_binding(alloc, &bindings, &used).expect(&rt, "memory"),
    };
    assert_same(&rt, pairs.len(), 8);
    assert_same(&rt, pairs[0], BindingPair { first: 0, later: 1 });
    assert_same(&rt, pairs[7], BindingPair { first: 0, later: 8 });
}

/// Ten declarations, of which the first names all others.
fn of_many_uses(alloc: Global) -> Result<Vec<Vec<usize>>, AllocError> {
    let mut uses = Vec::with_capacity(alloc, 10)?;
    uses.push(Vec::from_slice(alloc, &[1, 2, 3, 4, 5, 6, 7, 8, 9])?)?;
    for _ in 1..10 {
        uses.push(Vec::new(alloc))?;
    }
    Ok(uses)
}

/// Asserts what the first one reaches, where one growth alone may be refused.
fn assert_reached(rt: &impl Abort, alloc: Global, uses: &[Vec<usize>]) {
    let found = match reached(alloc, uses, 0) {
        Ok(found) => found,
        Err(_) => reached(alloc, uses, 0).expect(rt, "memory"),
    };
    let wanted: &[usize] = &[0, 1, 2, 3, 4, 5, 6, 7, 8, 9];
    assert_same(rt, found.as_slice(), wanted);
}

#[test]
fn what_is_reached_is_refused_or_found(rt: HostRuntime) {
    let alloc = rt.alloc();
    if let Ok(uses) = of_many_uses(alloc) {
        assert_reached(&rt, alloc, uses.as_slice());
    }
}
