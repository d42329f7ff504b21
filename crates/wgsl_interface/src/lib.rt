//! What a shader and its host may share: which types the variables of an address space may have, and
//! what is asked of a variable; and what an entry point uses (WGSL: storable types; host-shareable
//! types; address spaces; resource interface; statically accessed).
#![tactic(auto)]

mod bindings;
mod faults;
mod nature;
mod reach;
mod rule;
mod shared;
mod variable;
mod workgroup;

pub use bindings::{Binding, BindingPair, first_at_binding, pairs_at_binding};
pub use faults::{ShareFault, share_faults, struct_faults};
pub use reach::reached;
pub use rule::ShareRule;
pub use shared::{
    has_creation_fixed_footprint, has_fixed_footprint, is_concrete, is_constructible,
    is_host_shareable, is_plain, is_storable, may_be_of,
};
pub use variable::{VariableRules, variable_rules};
pub use workgroup::workgroup_memory;
