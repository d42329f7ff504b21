//! What is asked of a variable, whatever its type is (WGSL: address spaces; var declarations; resource
//! interface).

ghost use Rattle.std.specs.Prelude.{◌≡◌};
ghost use Rattle.wgsl_interface.specs.Variables.{
  access_rule,
  is_of_resources,
  group_rule,
  binding_rule,
};

use crate::rule::ShareRule;
use wgsl_rules::{AccessMode, AddressSpace};

/// The rules that a variable itself breaks: of its access mode, its group and its binding.
#[derive(Clone, Copy, Debug, PartialEq, Eq)]
pub struct VariableRules {
    pub access: Option<ShareRule>,
    pub group: Option<ShareRule>,
    pub binding: Option<ShareRule>,
}

/// What a variable of the address space breaks, for which this access mode is given or none, and which
/// has attributes for its group and binding or not. A texture or a sampler is of the handle space.
pub fn variable_rules(
    space: AddressSpace,
    access: Option<AccessMode>,
    has_group: bool,
    has_binding: bool,
) -> VariableRules
    ensures access { result.access ≡ access_rule space access }
    ensures group { result.group ≡ group_rule (is_of_resources space) has_group }
    ensures binding { result.binding ≡ binding_rule (is_of_resources space) has_binding }
{
    let is_resource = is_of_resources(space);
    VariableRules {
        access: access_rule(space, access),
        group: group_rule(is_resource, has_group),
        binding: binding_rule(is_resource, has_binding),
    }
}

fn access_rule(space: AddressSpace, access: Option<AccessMode>) -> Option<ShareRule>
    ensures { result ≡ access_rule space access }
{
    let access = access?;
    match space {
        AddressSpace::Storage => match access {
            AccessMode::Read | AccessMode::ReadWrite => None,
            AccessMode::Write => Some(ShareRule::WriteAccess),
        },
        AddressSpace::Function | AddressSpace::Private => Some(ShareRule::AccessSpace),
        AddressSpace::Workgroup | AddressSpace::Uniform => Some(ShareRule::AccessSpace),
        AddressSpace::Handle => Some(ShareRule::AccessSpace),
    }
}

fn is_of_resources(space: AddressSpace) -> bool
    ensures { result ≡ is_of_resources space }
{
    match space {
        AddressSpace::Uniform | AddressSpace::Storage | AddressSpace::Handle => true,
        AddressSpace::Function | AddressSpace::Private | AddressSpace::Workgroup => false,
    }
}

fn group_rule(is_resource: bool, has_group: bool) -> Option<ShareRule>
    ensures { result ≡ group_rule is_resource has_group }
{
    match (is_resource, has_group) {
        (true, false) => Some(ShareRule::GroupMissing),
        (false, true) => Some(ShareRule::GroupSpace),
        (true, true) | (false, false) => None,
    }
}

fn binding_rule(is_resource: bool, has_binding: bool) -> Option<ShareRule>
    ensures { result ≡ binding_rule is_resource has_binding }
{
    match (is_resource, has_binding) {
        (true, false) => Some(ShareRule::BindingMissing),
        (false, true) => Some(ShareRule::BindingSpace),
        (true, true) | (false, false) => None,
    }
}
