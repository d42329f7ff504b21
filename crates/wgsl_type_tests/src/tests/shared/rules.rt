//! The rules by their codes, sections and words, and those that variables themselves break.

use crate::tests::asserts::{assert_row, assert_same};
use std::alloc::Global;
use std::process::Abort;
use wgsl_interface::{ShareRule, VariableRules, variable_rules};
use wgsl_rules::{AccessMode, AddressSpace};

/// A rule, with its code, its section and its words.
type Rule = (ShareRule, &'static str, &'static str, &'static str);

/// Asserts the code, the section and the words of the rule.
fn assert_rule(
    rt: &impl Abort,
    alloc: Global,
    rule: ShareRule,
    code: &str,
    section: &str,
    words: &str,
) {
    assert_same(rt, rule.code(), code);
    assert_row(rt, code, rule.section(), section);
    let text = rule.to_string(alloc).expect(rt, "memory");
    assert_row(rt, code, text.as_str(), words);
    drop(text);
}

const EACH_TYPE: [Rule; 7] = [
    (
        ShareRule::Shape,
        "shape",
        "composite types",
        "a vector has 2 to 4 scalars, a matrix 2 to 4 columns and rows of numbers, an array an element, a structure a member",
    ),
    (
        ShareRule::NotPlain,
        "not-plain",
        "plain types",
        "a pointer, a reference, a texture or a sampler is no plain type",
    ),
    (
        ShareRule::Abstract,
        "abstract-type",
        "storable types",
        "an abstract number is not stored",
    ),
    (
        ShareRule::AtomicContent,
        "atomic-content",
        "atomic types",
        "an atomic holds an i32 or a u32",
    ),
    (
        ShareRule::RuntimeNotLast,
        "runtime-not-last",
        "structure types",
        "a runtime-sized array is the last member",
    ),
    (
        ShareRule::RuntimeInStruct,
        "runtime-in-struct",
        "structure types",
        "a structure that ends in a runtime-sized array is no member",
    ),
    (
        ShareRule::RuntimeInArray,
        "runtime-in-array",
        "array types",
        "an element of an array neither is nor ends in a runtime-sized array",
    ),
];

#[test]
fn rules_that_a_type_breaks_wherever_it_stands(rt: HostRuntime) {
    for (rule, code, section, words) in EACH_TYPE {
        assert_rule(&rt, rt.alloc(), rule, code, section, words);
        assert_row(&rt, code, rule.is_of_each_type(), true);
    }
}

const IN_A_SPACE: [Rule; 5] = [
    (
        ShareRule::BoolShared,
        "bool-shared",
        "host-shareable types",
        "a bool is not shared with the host",
    ),
    (
        ShareRule::RuntimeSpace,
        "runtime-space",
        "address spaces",
        "a runtime-sized array stands in a storage variable alone",
    ),
    (
        ShareRule::AtomicSpace,
        "atomic-space",
        "atomic types",
        "an atomic stands in a storage or workgroup variable alone",
    ),
    (
        ShareRule::AtomicAccess,
        "atomic-access",
        "atomic types",
        "an atomic needs access read_write",
    ),
    (
        ShareRule::NotHandle,
        "not-handle",
        "address spaces",
        "only a texture or a sampler has no address space",
    ),
];

#[test]
fn rules_that_a_type_breaks_in_a_space(rt: HostRuntime) {
    for (rule, code, section, words) in IN_A_SPACE {
        assert_rule(&rt, rt.alloc(), rule, code, section, words);
        assert_row(&rt, code, rule.is_of_each_type(), false);
    }
}

const OF_VARIABLES: [Rule; 7] = [
    (
        ShareRule::WriteAccess,
        "write-access",
        "address spaces",
        "a storage variable has no access write",
    ),
    (
        ShareRule::AccessSpace,
        "access-space",
        "var declarations",
        "only a storage variable is given an access mode",
    ),
    (
        ShareRule::GroupMissing,
        "group-missing",
        "resource interface",
        "a resource needs @group",
    ),
    (
        ShareRule::BindingMissing,
        "binding-missing",
        "resource interface",
        "a resource needs @binding",
    ),
    (
        ShareRule::GroupSpace,
        "group-space",
        "resource interface",
        "only a resource has @group",
    ),
    (
        ShareRule::BindingSpace,
        "binding-space",
        "resource interface",
        "only a resource has @binding",
    ),
    (
        ShareRule::SameBinding,
        "same-binding",
        "resource interface",
        "resources of one entry point differ in @group or @binding",
    ),
];

#[test]
fn rules_that_variables_break(rt: HostRuntime) {
    for (rule, code, section, words) in OF_VARIABLES {
        assert_rule(&rt, rt.alloc(), rule, code, section, words);
        assert_row(&rt, code, rule.is_of_each_type(), false);
    }
}

/// No access mode, and each.
const MODES: [Option<AccessMode>; 4] = [
    None,
    Some(AccessMode::Read),
    Some(AccessMode::Write),
    Some(AccessMode::ReadWrite),
];

/// Asserts what a variable of the space breaks with each access mode.
fn assert_access(rt: &impl Abort, space: AddressSpace, wanted: [Option<ShareRule>; 4]) {
    for (access, wanted) in MODES.into_iter().zip(wanted) {
        let rules = variable_rules(space, access, false, true);
        assert_same(rt, (space, rules.access), (space, wanted));
    }
}

#[test]
fn access_modes_of_variables(rt: HostRuntime) {
    let write = Some(ShareRule::WriteAccess);
    assert_access(&rt, AddressSpace::Storage, [None, None, write, None]);
    let given = Some(ShareRule::AccessSpace);
    for space in [
        AddressSpace::Function,
        AddressSpace::Private,
        AddressSpace::Workgroup,
        AddressSpace::Uniform,
        AddressSpace::Handle,
    ] {
        assert_access(&rt, space, [None, given, given, given]);
    }
}

const WITH_AND_WITHOUT: [(bool, bool); 4] = [
    (false, false),
    (false, true),
    (true, false),
    (true, true),
];

/// Asserts what a variable of the space, which is one of resources or is not, breaks with and without a group and a binding.
fn assert_resource(rt: &impl Abort, space: AddressSpace, is_resource: bool) {
    for (has_group, has_binding) in WITH_AND_WITHOUT {
        let wanted = if is_resource {
            VariableRules {
                access: None,
                group: (!has_group).then_some(ShareRule::GroupMissing),
                binding: (!has_binding).then_some(ShareRule::BindingMissing),
            }
        } else {
            VariableRules {
                access: None,
                group: has_group.then_some(ShareRule::GroupSpace),
                binding: has_binding.then_some(ShareRule::BindingSpace),
            }
        };
        let rules = variable_rules(space, None, has_group, has_binding);
        assert_same(rt, (space, rules), (space, wanted));
    }
}

#[test]
fn groups_and_bindings_of_resources(rt: HostRuntime) {
    assert_resource(&rt, AddressSpace::Storage, true);
    assert_resource(&rt, AddressSpace::Uniform, true);
    assert_resource(&rt, AddressSpace::Handle, true);
}

#[test]
fn groups_and_bindings_of_what_is_no_resource(rt: HostRuntime) {
    assert_resource(&rt, AddressSpace::Function, false);
    assert_resource(&rt, AddressSpace::Private, false);
    assert_resource(&rt, AddressSpace::Workgroup, false);
}
