//! Structures (WGSL: structure types).

ghost use Rattle.std.specs.Borrow.{LendsSo, sem};
ghost use Rattle.std.specs.Cmp.{partial_equiv_from_equiv};
ghost use Rattle.std.specs.Fmt.{WritesOnOk};
ghost use Rattle.std.specs.Prelude.{◌≡◌, ◌↔◌, IfOk, IsTrue, option_map, IfSome, Some};
ghost use Rattle.wgsl_rules.specs.Paths.{member_named, parts};
ghost use Rattle.wgsl_rules.specs.Values.{IsStorable, record_of, type_of};
ghost use Rattle.wgsl_rules.specs.View.{struct_view as struct_type_view};
ghost use Rattle.wgsl_values.specs.Equal.{structs_equiv};
ghost use Rattle.wgsl_values.specs.Rows.{lent_type};
ghost use Rattle.wgsl_values.specs.Same.{same_value};
ghost use Rattle.wgsl_values.specs.Texts.{text_of_value};
ghost use Rattle.wgsl_values.specs.View.{value_of, vals_view, struct_view};
ghost use Rattle.wgsl_values.specs.Written.{IsAsSound, IsWritten, with_member};
ghost use Rattle.wgsl_values.specs.contracts.instance.Instance.{the_row};
ghost use Rattle.wgsl_values.specs.contracts.structure.StructInstance as struct_row;

use crate::instance::Instance;
use crate::lists::{clone_values, have_types, nth, nth_mut, same_parts, write_items};
use crate::shared::SharedStructType;
use std::alloc::{AllocError, Global};
use std::fmt;
use std::fmt::Display;
use wgsl_rules::{Convert, StructType, Ty, Type};

/// A value of a structure type: its members, in the order of the type (WGSL: structure types).
#[cycle(values)]
#[derive(Debug, Drop)]
pub struct StructInstance {
    pub(crate) ty: SharedStructType,
    pub(crate) members: Vec<Instance>,
}

impl StructInstance {
    /// A value of the structure type (WGSL: structure types). The condition: there are as many
    /// members as the type has, each storable and of its member's type.
    pub fn new(ty: StructType, members: Vec<Instance>) -> Self
        requires { IsStorable (record_of (struct_type_view ty) (vals_view members.items)) }
        ensures { struct_view result ≡ record_of (struct_type_view ty) (vals_view members.items) }
    {
        let ty = SharedStructType::own(ty);
        StructInstance { ty, members }
    }

    /// As [`StructInstance::new`], of a type that values share. The condition is the same.
    pub fn of_shared(ty: SharedStructType, members: Vec<Instance>) -> Self
        requires { IsStorable (record_of ty (vals_view members.items)) }
        ensures { struct_view result ≡ record_of ty (vals_view members.items) }
    {
        StructInstance { ty, members }
    }

    /// Whether the condition of [`StructInstance::new`] holds.
    /// It calls itself for each level of the values: keep to 4,095 within a stack of 8 MiB.
    pub fn can_make(ty: &StructType, members: &[Instance]) -> bool
        ensures { IsTrue result ↔ IsStorable (record_of (struct_type_view ty.now) (vals_view members.now)) }
    {
        have_types(members, &ty.members)
    }

    /// The type.
    pub fn struct_ty(&self) -> &StructType
        ensures { struct_type_view result.now ≡ type_of (struct_view self.now) }
    {
        self.ty.get()
    }

    /// The type, as other values may share it.
    pub fn shared_ty(&self) -> &SharedStructType
        ensures { result.now ≡ type_of (struct_view self.now) }
    {
        &self.ty
    }

    /// The members, in the order of the type.
    pub fn members(&self) -> &[Instance]
        ensures { vals_view result.now ≡ parts (struct_view self.now) }
    {
        &self.members
    }

    /// The first member of the name.
    pub fn member(&self, name: &str) -> Option<&Instance>
        ensures { option_map (λ v. value_of v.now) result ≡ option_map (λ p. p.1) (member_named name.now (struct_view self.now)) }
    {
        let i = self.ty.position(name)?;
        nth(&self.members, i)
    }

    /// The first member of the name, to be written (WGSL: structure member access). A structure is
    /// well-formed again where what was written is storable and of the type of what was there.
    pub fn member_mut(&mut self, name: &str) -> Option<&mut Instance>
        ensures* writes_back { sem 𝓛 (LendsSo struct_row.the_row the_row self.entry result
            (λ n w. IsWritten (with_member name.now) (lent_type result) (value_of w) (struct_view self.old) (struct_view n)) (λ n. n ≡ self.old)) }
        ensures value { option_map (λ v. value_of v.now) result ≡ option_map (λ p. p.1) (member_named name.now (struct_view self.old)) }
        ensures sound { IfSome result (λ part. IsAsSound (value_of part.now) (struct_view self.old)) }
    {
        let i = self.ty.position(name)?;
        nth_mut(&mut self.members, i)
    }

    /// A copy of the structure, in memory of its own, but for structure types that values share already: it shares them.
    /// It calls itself for each level of the value: keep to 4,095 within a stack of 8 MiB.
    #[cycle(clone)]
    pub fn clone(&self, alloc: Global) -> Result<StructInstance, AllocError>
        ensures { IfOk result (λ v. struct_view v ≡ struct_view self.now) }
    {
        let ty = self.ty.clone(alloc)?;
        let members = clone_values(alloc, &self.members)?;
        Ok(StructInstance { ty, members })
    }
}

/// A structure's type is the one that it was made with (WGSL: structure types).
impl Ty for StructInstance {
    ghost use Rattle.wgsl_values.specs.View.{struct_view};

    ghost value_of = { struct_view };

    fn ty(&self, alloc: Global) -> Result<Type, AllocError> {
        let ty = self.ty.get().clone(alloc)?;
        Ok(Type::Struct(Box::new(alloc, ty)?))
    }

    fn inner_ty(&self, alloc: Global) -> Result<Type, AllocError> {
        self.ty(alloc)
    }

    fn has_ty(&self, ty: &Type) -> bool {
        match ty.as_struct() {
            Some(other) => self.ty.equals(other),
            None => false,
        }
    }
}

/// A structure converts to its own type alone.
impl Convert for StructInstance {
    ghost use Rattle.wgsl_rules.specs.Converted.{converted};
    ghost use Rattle.wgsl_rules.proofs.lemmas.Converted.{
      converted-type,
      converted-well_formed,
      converted-own,
    };
    ghost use Rattle.wgsl_values.specs.View.{struct_view};

    ghost converted = { converted };

    ghost converted_inner = { converted };

    ghost gives_type = { λ x. converted-type (struct_view x) };

    ghost gives_well_formed = { λ x. converted-well_formed (struct_view x) };

    ghost inner_gives_well_formed = { λ x. converted-well_formed (struct_view x) };

    ghost keeps_own = { λ x. converted-own (struct_view x) };

    fn convert_to(&self, alloc: Global, ty: &Type) -> Result<Option<StructInstance>, AllocError> {
        if self.has_ty(ty) {
            Ok(Some(self.clone(alloc)?))
        } else {
            Ok(None)
        }
    }

    fn convert_inner_to(
        &self,
        alloc: Global,
        ty: &Type,
    ) -> Result<Option<StructInstance>, AllocError> {
        self.convert_to(alloc, ty)
    }
}

/// The name of the type, and the members in parentheses.
/// It calls itself for each level of the value: keep to 4,095 within a stack of 8 MiB.
impl Display for StructInstance {
    ghost output = { λ s. Some (text_of_value (struct_view s)) };

    fn fmt<W: fmt::Write>(&self, f: &mut fmt::Formatter<W>) -> fmt::Result {
        write_struct(f, self)
    }
}

/// It calls itself for each level of the values: keep to 4,095 within a stack of 8 MiB.
impl PartialEq for StructInstance {
    ghost eq = { λ v w. same_value (struct_view v) (struct_view w) };

    ghost laws = { partial_equiv_from_equiv structs_equiv };

    #[cycle(same)]
    fn eq(&self, other: &StructInstance) -> bool {
        self.ty.is_same(&other.ty) && same_parts(&self.members, &other.members)
    }
}

impl Eq for StructInstance {
    ghost laws = { structs_equiv };
}

#[cycle(texts)]
pub(crate) fn write_struct<W: fmt::Write>(
    f: &mut fmt::Formatter<W>,
    value: &StructInstance,
) -> fmt::Result
    ensures { WritesOnOk W.write_str_gives f.old result (text_of_value (struct_view value.now)) f.new }
{
    f.write_str(value.ty.get().name.as_str())?;
    f.write_str("(")?;
    write_items(f, &value.members)?;
    f.write_str(")")
}
