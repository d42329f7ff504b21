//! The rules that a variable, or its type, may break.

ghost use Rattle.std.specs.Prelude.{◌≡◌, Some};
ghost use Rattle.wgsl_interface.specs.Texts.{rule_code, rule_section, rule_text, is_of_each_type};

use std::fmt;

/// What a type breaks, wherever it stands or in the address space of a variable, what a variable itself
/// breaks, or what two variables break together.
#[derive(Clone, Copy, Debug, PartialEq, Eq)]
pub enum ShareRule {
    /// A vector has 2 to 4 scalars, a matrix 2 to 4 columns and rows of numbers, an array an element and
    /// a structure a member (WGSL: composite types).
    Shape,
    /// A part of a type is plain: no pointer, reference, texture or sampler (WGSL: plain types).
    NotPlain,
    /// A type that is stored is concrete: no abstract number (WGSL: storable types).
    Abstract,
    /// An atomic holds an i32 or a u32 (WGSL: atomic types).
    AtomicContent,
    /// A runtime-sized array is the last member of its structure (WGSL: structure types).
    RuntimeNotLast,
    /// A structure that ends in a runtime-sized array is no member (WGSL: structure types).
    RuntimeInStruct,
    /// An element of an array is no runtime-sized array, nor a structure that ends in one (WGSL: array
    /// types).
    RuntimeInArray,
    /// A bool is in no storage or uniform variable (WGSL: host-shareable types).
    BoolShared,
    /// A runtime-sized array is in storage variables alone (WGSL: address spaces).
    RuntimeSpace,
    /// An atomic is in storage and workgroup variables alone (WGSL: atomic types).
    AtomicSpace,
    /// A storage variable with an atomic inside is given the access mode read_write (WGSL: atomic types).
    AtomicAccess,
    /// A variable of the handle address space is a texture or a sampler (WGSL: address spaces).
    NotHandle,
    /// A storage variable is not written alone (WGSL: address spaces).
    WriteAccess,
    /// An access mode is given to storage variables alone (WGSL: var declarations).
    AccessSpace,
    /// A resource has a group (WGSL: resource interface).
    GroupMissing,
    /// A resource has a binding (WGSL: resource interface).
    BindingMissing,
    /// What is no resource has no group (WGSL: resource interface).
    GroupSpace,
    /// What is no resource has no binding (WGSL: resource interface).
    BindingSpace,
    /// Two resources that one entry point uses differ in their group or their binding (WGSL: resource
    /// interface).
    SameBinding,
}

impl ShareRule {
    /// A short word for the rule, which stays as it is.
    pub fn code(self) -> &'static str
        ensures { result.now ≡ rule_code self }
    {
        match self {
            ShareRule::Shape => "shape",
            ShareRule::NotPlain => "not-plain",
            ShareRule::Abstract => "abstract-type",
            ShareRule::AtomicContent => "atomic-content",
            ShareRule::RuntimeNotLast => "runtime-not-last",
            ShareRule::RuntimeInStruct => "runtime-in-struct",
            ShareRule::RuntimeInArray => "runtime-in-array",
            ShareRule::BoolShared => "bool-shared",
            ShareRule::RuntimeSpace => "runtime-space",
            ShareRule::AtomicSpace => "atomic-space",
            ShareRule::AtomicAccess => "atomic-access",
            ShareRule::NotHandle => "not-handle",
            ShareRule::WriteAccess => "write-access",
            ShareRule::AccessSpace => "access-space",
            ShareRule::GroupMissing => "group-missing",
            ShareRule::BindingMissing => "binding-missing",
            ShareRule::GroupSpace => "group-space",
            ShareRule::BindingSpace => "binding-space",
            ShareRule::SameBinding => "same-binding",
        }
    }

    /// The section of the WGSL standard that has the rule.
    pub fn section(self) -> &'static str
        ensures { result.now ≡ rule_section self }
    {
        match self {
            ShareRule::Shape => "composite types",
            ShareRule::NotPlain => "plain types",
            ShareRule::Abstract => "storable types",
            ShareRule::AtomicContent => "atomic types",
            ShareRule::RuntimeNotLast => "structure types",
            ShareRule::RuntimeInStruct => "structure types",
            ShareRule::RuntimeInArray => "array types",
            ShareRule::BoolShared => "host-shareable types",
            ShareRule::RuntimeSpace => "address spaces",
            ShareRule::AtomicSpace => "atomic types",
            ShareRule::AtomicAccess => "atomic types",
            ShareRule::NotHandle => "address spaces",
            ShareRule::WriteAccess => "address spaces",
            ShareRule::AccessSpace => "var declarations",
            ShareRule::GroupMissing => "resource interface",
            ShareRule::BindingMissing => "resource interface",
            ShareRule::GroupSpace => "resource interface",
            ShareRule::BindingSpace => "resource interface",
            ShareRule::SameBinding => "resource interface",
        }
    }

    /// Whether a type breaks the rule wherever it stands, and not for the address space of a variable.
    pub fn is_of_each_type(self) -> bool
        ensures { result ≡ is_of_each_type self }
    {
        match self {
            ShareRule::Shape | ShareRule::NotPlain | ShareRule::Abstract => true,
            ShareRule::AtomicContent | ShareRule::RuntimeNotLast => true,
            ShareRule::RuntimeInStruct | ShareRule::RuntimeInArray => true,
            ShareRule::BoolShared | ShareRule::RuntimeSpace | ShareRule::AtomicSpace => false,
            ShareRule::AtomicAccess | ShareRule::NotHandle | ShareRule::WriteAccess => false,
            ShareRule::AccessSpace | ShareRule::GroupMissing | ShareRule::BindingMissing => false,
            ShareRule::GroupSpace | ShareRule::BindingSpace | ShareRule::SameBinding => false,
        }
    }
}

impl fmt::Display for ShareRule {
    ghost output = { λ rule. Some (rule_text rule) };

    fn fmt<W: fmt::Write>(&self, f: &mut fmt::Formatter<W>) -> fmt::Result {
        f.write_str(match self {
            ShareRule::Shape => {
                "a vector has 2 to 4 scalars, a matrix 2 to 4 columns and rows of numbers, an array an element, a structure a member"
            }
            ShareRule::NotPlain =>
                "a pointer, a reference, a texture or a sampler is no plain type",
            ShareRule::Abstract => "an abstract number is not stored",
            ShareRule::AtomicContent => "an atomic holds an i32 or a u32",
            ShareRule::RuntimeNotLast => "a runtime-sized array is the last member",
            ShareRule::RuntimeInStruct => {
                "a structure that ends in a runtime-sized array is no member"
            }
            ShareRule::RuntimeInArray => {
                "an element of an array neither is nor ends in a runtime-sized array"
            }
            ShareRule::BoolShared => "a bool is not shared with the host",
            ShareRule::RuntimeSpace => "a runtime-sized array stands in a storage variable alone",
            ShareRule::AtomicSpace => "an atomic stands in a storage or workgroup variable alone",
            ShareRule::AtomicAccess => "an atomic needs access read_write",
            ShareRule::NotHandle => "only a texture or a sampler has no address space",
            ShareRule::WriteAccess => "a storage variable has no access write",
            ShareRule::AccessSpace => "only a storage variable is given an access mode",
            ShareRule::GroupMissing => "a resource needs @group",
            ShareRule::BindingMissing => "a resource needs @binding",
            ShareRule::GroupSpace => "only a resource has @group",
            ShareRule::BindingSpace => "only a resource has @binding",
            ShareRule::SameBinding => "resources of one entry point differ in @group or @binding",
        })
    }
}
