//! What of a type breaks a rule, and which one (WGSL: plain types; atomic types; array types; structure
//! types; host-shareable types; address spaces).

ghost use Rattle.std.specs.Prelude.{◌≡◌, ◌↔◌, [], IfOk, OnOk, IsTrue};
ghost use Rattle.std.specs.String.{string_bytes};
ghost use Rattle.wgsl_interface.specs.Faults.{
  faults_view,
  first_100,
  share_faults,
  declaration_faults,
  asked_by,
  bool_rule,
  atomic_rule,
  runtime_rule,
  unless,
  scalar_rule,
  component_rule,
  array_rule,
  element_rule,
  member_rule,
  is_last_runtime_sized,
  ends_in_runtime_array,
  told,
  faults,
  struct_faults,
  member_faults,
};
ghost use Rattle.wgsl_interface.specs.declared.rule.ShareRule.TheVariants.{NotHandle};
ghost use Rattle.wgsl_interface.specs.Plain.{is_runtime_sized};
ghost use Rattle.wgsl_interface.specs.Shared.{is_handle, is_storable, has_storable_structures, may_be_of};
ghost use Rattle.wgsl_interface.specs.Walks.{IsTold, element_faults, faults_of_member};
ghost use Rattle.wgsl_rules.specs.Types.{atomic};
ghost use Rattle.wgsl_rules.specs.View.{type_view, struct_view, member_view, members_view};

use crate::nature::{is_atomic_content, is_matrix, is_vector};
use crate::rule::ShareRule;
use crate::shared::{is_handle, is_read_write};
use std::alloc::{AllocError, Global};
use wgsl_rules::{AccessMode, AddressSpace, StructMemberType, StructType, Type};

/// The most faults that are told of a type.
const FAULTS: usize = 100;

/// A rule that is broken, and the part of a type that breaks it: members behind dots, elements as `[]`,
/// as in `a.b[].c`. The path of the whole type is empty.
#[derive(Debug, PartialEq, Eq, Drop)]
pub struct ShareFault {
    pub path: String,
    pub rule: ShareRule,
}

/// The rules that bools, atomics and runtime-sized arrays break where they stand, and whether what is
/// inside structures is asked for.
#[derive(Clone, Copy)]
struct Asked {
    of_bools: Option<ShareRule>,
    of_atomics: Option<ShareRule>,
    of_runtime_arrays: Option<ShareRule>,
    of_structures: bool,
}

/// What a type breaks as that of a variable of the address space, for which this access mode is given or
/// none: each part with its rules, in the order of the type's text, and no more than 100. There are none
/// exactly where a variable [`may_be_of`](crate::may_be_of) the type.
///
/// Memory alone is refused.
/// It calls itself for each level of the type: keep to 4,095 within a stack of 8 MiB.
pub fn share_faults(
    alloc: Global,
    ty: &Type,
    space: AddressSpace,
    access: Option<AccessMode>,
) -> Result<Vec<ShareFault>, AllocError>
    ensures each { IfOk result (λ faults. faults_view faults.items ≡ first_100 (share_faults space access (type_view ty.now))) }
    ensures none { IfOk result (λ faults. (faults.items ≡ []) ↔ IsTrue (may_be_of space access (type_view ty.now))) }
{
    match space {
        AddressSpace::Handle => handle_faults(alloc, ty),
        AddressSpace::Storage | AddressSpace::Uniform | AddressSpace::Workgroup => {
            type_faults(alloc, Asked::by(space, access), ty)
        }
        AddressSpace::Private | AddressSpace::Function => {
            type_faults(alloc, Asked::by(space, access), ty)
        }
    }
}

fn handle_faults(alloc: Global, ty: &Type) -> Result<Vec<ShareFault>, AllocError>
    ensures { IfOk result (λ faults. faults_view faults.items ≡ first_100 (told (unless (is_handle (type_view ty.now)) NotHandle) [])) }
{
    let mut walk = Walk::new(alloc);
    walk.tell(unless(is_handle(ty), ShareRule::NotHandle))?;
    Ok(walk.faults)
}

fn type_faults(alloc: Global, asked: Asked, ty: &Type) -> Result<Vec<ShareFault>, AllocError>
    ensures { IfOk result (λ found. faults_view found.items ≡ first_100 (faults asked [] (type_view ty.now))) }
{
    let mut walk = Walk::new(alloc);
    walk.tell_type(asked, ty)?;
    Ok(walk.faults)
}

/// What a structure breaks where it is declared, whatever variables are of it: that it has no member, or
/// each member with its rules, in their order, and no more than 100. What is inside the structures that its
/// members have is told of these: where they are storable, there are none exactly where this one
/// [is](crate::is_storable).
///
/// Memory alone is refused.
/// It calls itself for each array around what a member holds: keep to 4,095 within a stack of 8 MiB.
pub fn struct_faults(alloc: Global, ty: &StructType) -> Result<Vec<ShareFault>, AllocError>
    ensures each { IfOk result (λ faults. faults_view faults.items ≡ first_100 (declaration_faults (struct_view ty.now))) }
    ensures none { IfOk result (λ faults. IsTrue (has_storable_structures (struct_view ty.now)) → (faults.items ≡ []) ↔ IsTrue (is_storable (struct_view ty.now))) }
{
    let mut walk = Walk::new(alloc);
    walk.tell_struct(Asked::OF_DECLARATIONS, ty)?;
    Ok(walk.faults)
}

impl Asked {
    const OF_DECLARATIONS: Asked = Asked {
        of_bools: None,
        of_atomics: None,
        of_runtime_arrays: None,
        of_structures: false,
    };

    // Of the type of a variable.
    fn by(space: AddressSpace, access: Option<AccessMode>) -> Self
        ensures { result ≡ asked_by space access }
    {
        Asked {
            of_bools: bool_rule(space),
            of_atomics: atomic_rule(space, access),
            of_runtime_arrays: runtime_rule(space),
            of_structures: true,
        }
    }
}

fn bool_rule(space: AddressSpace) -> Option<ShareRule>
    ensures { result ≡ bool_rule space }
{
    match space {
        AddressSpace::Storage | AddressSpace::Uniform => Some(ShareRule::BoolShared),
        AddressSpace::Function | AddressSpace::Private => None,
        AddressSpace::Workgroup | AddressSpace::Handle => None,
    }
}

fn atomic_rule(space: AddressSpace, access: Option<AccessMode>) -> Option<ShareRule>
    ensures { result ≡ atomic_rule space access }
{
    match space {
        AddressSpace::Storage => unless(is_read_write(access), ShareRule::AtomicAccess),
        AddressSpace::Workgroup => None,
        AddressSpace::Function | AddressSpace::Private => Some(ShareRule::AtomicSpace),
        AddressSpace::Uniform | AddressSpace::Handle => Some(ShareRule::AtomicSpace),
    }
}

fn runtime_rule(space: AddressSpace) -> Option<ShareRule>
    ensures { result ≡ runtime_rule space }
{
    match space {
        AddressSpace::Storage => None,
        AddressSpace::Function | AddressSpace::Private => Some(ShareRule::RuntimeSpace),
        AddressSpace::Workgroup | AddressSpace::Uniform => Some(ShareRule::RuntimeSpace),
        AddressSpace::Handle => Some(ShareRule::RuntimeSpace),
    }
}

fn unless(holds: bool, rule: ShareRule) -> Option<ShareRule>
    ensures { result ≡ unless holds rule }
{
    if holds { None } else { Some(rule) }
}

impl Asked {
    fn scalar_rule(self, ty: &Type) -> Option<ShareRule>
        ensures { result ≡ scalar_rule self (type_view ty.now) }
    {
        match ty {
            Type::Bool => self.of_bools,
            Type::AbstractInt | Type::AbstractFloat => Some(ShareRule::Abstract),
            Type::I32 | Type::U32 | Type::F32 | Type::F16 => None,
            Type::I64 | Type::U64 | Type::F64 => None,
            Type::Struct(_) | Type::Array(_, _) | Type::Vec(_, _) | Type::Mat(_, _, _) => None,
            Type::Atomic(_) | Type::Ptr(_, _, _) | Type::Ref(_, _, _) => None,
            Type::Texture(_) | Type::Sampler(_) => None,
        }
    }

    // Of a vector or a matrix of such components, that has a right shape or none.
    fn component_rule(self, is_shape: bool, component: &Type) -> Option<ShareRule>
        ensures { result ≡ component_rule self is_shape (type_view component.now) }
    {
        if is_shape {
            self.scalar_rule(component)
        } else {
            Some(ShareRule::Shape)
        }
    }

    // Of an array of n elements; of a runtime-sized one where n is `None`.
    fn array_rule(self, n: Option<usize>) -> Option<ShareRule>
        ensures { result ≡ array_rule self n }
    {
        match n {
            None => self.of_runtime_arrays,
            Some(n) => unless(1 <= n, ShareRule::Shape),
        }
    }
}

// Of a type as that of elements.
fn element_rule(ty: &Type) -> Option<ShareRule>
    ensures { result ≡ element_rule (type_view ty.now) }
{
    let is_runtime = is_runtime_sized(ty) || ends_in_runtime_array(ty);
    unless(!is_runtime, ShareRule::RuntimeInArray)
}

// Of a type as that of a member, behind which there is no other one or there is.
fn member_rule(is_last: bool, ty: &Type) -> Option<ShareRule>
    ensures { result ≡ member_rule is_last (type_view ty.now) }
{
    if is_runtime_sized(ty) {
        unless(is_last, ShareRule::RuntimeNotLast)
    } else {
        unless(!ends_in_runtime_array(ty), ShareRule::RuntimeInStruct)
    }
}

fn is_runtime_sized(ty: &Type) -> bool
    ensures { result ≡ is_runtime_sized (type_view ty.now) }
{
    match ty {
        Type::Array(_, n) => n.is_none(),
        Type::Bool | Type::AbstractInt | Type::AbstractFloat => false,
        Type::I32 | Type::U32 | Type::F32 | Type::F16 => false,
        Type::I64 | Type::U64 | Type::F64 => false,
        Type::Struct(_) | Type::Vec(_, _) | Type::Mat(_, _, _) => false,
        Type::Atomic(_) | Type::Ptr(_, _, _) | Type::Ref(_, _, _) => false,
        Type::Texture(_) | Type::Sampler(_) => false,
    }
}

// A structure that ends in a runtime-sized array.
fn ends_in_runtime_array(ty: &Type) -> bool
    ensures { result ≡ ends_in_runtime_array (type_view ty.now) }
{
    match ty {
        Type::Struct(ty) => is_last_runtime_sized(ty.members.as_slice()),
        Type::Bool | Type::AbstractInt | Type::AbstractFloat => false,
        Type::I32 | Type::U32 | Type::F32 | Type::F16 => false,
        Type::I64 | Type::U64 | Type::F64 => false,
        Type::Array(_, _) | Type::Vec(_, _) | Type::Mat(_, _, _) => false,
        Type::Atomic(_) | Type::Ptr(_, _, _) | Type::Ref(_, _, _) => false,
        Type::Texture(_) | Type::Sampler(_) => false,
    }
}

fn is_last_runtime_sized(members: &[StructMemberType]) -> bool
    ensures { result ≡ is_last_runtime_sized (members_view members.now) }
{
    match members.last() {
        Some(last) => is_runtime_sized(&last.ty),
        None => false,
    }
}

/// Where a walk down a type stands, and what it has told.
#[derive(Drop)]
struct Walk {
    path: String,
    faults: Vec<ShareFault>,
}

impl Walk {
    fn new(alloc: Global) -> Self
        ensures path { string_bytes result.path ≡ [] }
        ensures faults { result.faults.items ≡ [] }
    {
        Walk {
            path: String::new(alloc),
            faults: Vec::new(alloc),
        }
    }

    // A rule that the part breaks where the walk stands, if it breaks one.
    fn tell(&mut self, rule: Option<ShareRule>) -> Result<(), AllocError>
        ensures { OnOk result (IsTold self.old self.new (told rule (string_bytes self.old.path))) }
    {
        let Some(rule) = rule else {
            return Ok(());
        };
        if self.faults.len() < FAULTS {
            let path = self.path.clone()?;
            self.faults.push(ShareFault { path, rule })?;
        }
        Ok(())
    }

    #[cycle(faults)]
    fn tell_type(&mut self, asked: Asked, ty: &Type) -> Result<(), AllocError>
        ensures { OnOk result (IsTold self.old self.new (faults asked (string_bytes self.old.path) (type_view ty.now))) }
    {
        match ty {
            Type::Vec(n, component) => {
                self.tell(asked.component_rule(is_vector(*n, component), component))
            }
            Type::Mat(columns, rows, component) => {
                let is_shape = is_matrix(*columns, *rows, component);
                self.tell(asked.component_rule(is_shape, component))
            }
            Type::Atomic(content) => self.tell_atomic(asked, content),
            Type::Array(element, n) => {
                self.tell(asked.array_rule(*n))?;
                self.tell_element(asked, element)
            }
            Type::Struct(ty) => {
                if asked.of_structures {
                    self.tell_struct(asked, ty)
                } else {
                    Ok(())
                }
            }
            Type::Ptr(_, _, _) | Type::Ref(_, _, _) => self.tell(Some(ShareRule::NotPlain)),
            Type::Texture(_) | Type::Sampler(_) => self.tell(Some(ShareRule::NotPlain)),
            Type::Bool | Type::AbstractInt | Type::AbstractFloat => {
                self.tell(asked.scalar_rule(ty))
            }
            Type::I32 | Type::U32 | Type::F32 | Type::F16 => Ok(()),
            Type::I64 | Type::U64 | Type::F64 => Ok(()),
        }
    }

    // Of an atomic with this content.
    fn tell_atomic(&mut self, asked: Asked, content: &Type) -> Result<(), AllocError>
        ensures { OnOk result (IsTold self.old self.new (faults asked (string_bytes self.old.path) (atomic (type_view content.now)))) }
    {
        self.tell(unless(is_atomic_content(content), ShareRule::AtomicContent))?;
        self.tell(asked.of_atomics)
    }

    // Of the elements of an array.
    #[cycle(faults)]
    fn tell_element(&mut self, asked: Asked, ty: &Type) -> Result<(), AllocError>
        ensures { OnOk result (IsTold self.old self.new (element_faults asked (string_bytes self.old.path) (type_view ty.now))) }
    {
        let end = self.path.len();
        self.path.push_str("[]")?;
        self.tell(element_rule(ty))?;
        self.tell_type(asked, ty)?;
        self.path.truncate(end);
        Ok(())
    }

    #[cycle(faults)]
    fn tell_struct(&mut self, asked: Asked, ty: &StructType) -> Result<(), AllocError>
        ensures { OnOk result (IsTold self.old self.new (struct_faults asked (string_bytes self.old.path) (struct_view ty.now))) }
    {
        if ty.members.is_empty() {
            self.tell(Some(ShareRule::Shape))
        } else {
            self.tell_members(asked, ty.members.as_slice())
        }
    }

    #[cycle(faults)]
    fn tell_members(&mut self, asked: Asked, members: &[StructMemberType]) -> Result<(), AllocError>
        ensures { OnOk result (IsTold self.old self.new (member_faults asked (string_bytes self.old.path) (members_view members.now))) }
    {
        for (i, member) in members.iter().enumerate() {
            let is_last = i + 1 == members.len();
            self.tell_member(asked, member, is_last)?;
        }
        Ok(())
    }

    // Of a member behind which there is no other one, or there is.
    #[cycle(faults)]
    fn tell_member(
        &mut self,
        asked: Asked,
        member: &StructMemberType,
        is_last: bool,
    ) -> Result<(), AllocError>
        ensures { OnOk result (IsTold self.old self.new (faults_of_member asked (string_bytes self.old.path) is_last (member_view member.now))) }
    {
        let end = self.path.len();
        if end > 0 {
            self.path.push_str(".")?;
        }
        self.path.push_str(member.name.as_str())?;
        self.tell(member_rule(is_last, &member.ty))?;
        self.tell_type(asked, &member.ty)?;
        self.path.truncate(end);
        Ok(())
    }
}
