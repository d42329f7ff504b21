//! Values that are written (WGSL: assignment statement).

ghost use Rattle.std.specs.Borrow.{Lends, LendsIf, sem};
ghost use Rattle.std.specs.Prelude.{◌≡◌, option_map, OnErr, OnOk};
ghost use Rattle.std.specs.Result.{result_ok};
ghost use Rattle.wgsl_rules.specs.Paths.{viewed, put_viewed};
ghost use Rattle.wgsl_rules.specs.Values.{IsStorable, IsVector, IsWellFormed};
ghost use Rattle.wgsl_scalar.specs.Answers.{Gives};
ghost use Rattle.wgsl_values.specs.Parts.{as_record, as_vector};
ghost use Rattle.wgsl_values.specs.View.{value_of, array_view, mat_view, struct_view, vec_view, steps_of};
ghost use Rattle.wgsl_values.specs.Written.{as_array, as_matrix, replaced};
ghost use Rattle.wgsl_values.specs.contracts.array.ArrayInstance as array_row;
ghost use Rattle.wgsl_values.specs.contracts.instance.Instance.{the_row};
ghost use Rattle.wgsl_values.specs.contracts.matrix.MatInstance as mat_row;
ghost use Rattle.wgsl_values.specs.contracts.structure.StructInstance as struct_row;
ghost use Rattle.wgsl_values.specs.contracts.vector.VecInstance as vec_row;
ghost use Rattle.wgsl_values.specs.declared.instance.Instance.{Array, Mat, Struct, Vec};

use crate::array::ArrayInstance;
use crate::instance::Instance;
use crate::matrix::MatInstance;
use crate::structure::StructInstance;
use crate::vector::VecInstance;
use crate::view::MemView;
use std::alloc::Global;
use std::mem;
use wgsl_rules::Ty;
use wgsl_scalar::Error;

impl Instance {
    fn as_struct_mut(&mut self) -> Option<&mut StructInstance>
        ensures* writes_back { sem 𝓛 (LendsIf the_row struct_row.the_row self.entry result Struct self.old) }
        ensures value { option_map (λ s. struct_view s.now) result ≡ as_record (value_of self.old) }
    {
        if let Instance::Struct(s) = self {
            Some(s)
        } else {
            None
        }
    }

    fn as_array_mut(&mut self) -> Option<&mut ArrayInstance>
        ensures* writes_back { sem 𝓛 (LendsIf the_row array_row.the_row self.entry result Array self.old) }
        ensures value { option_map (λ a. array_view a.now) result ≡ as_array (value_of self.old) }
    {
        if let Instance::Array(a) = self {
            Some(a)
        } else {
            None
        }
    }

    pub(crate) fn as_vec_mut(&mut self) -> Option<&mut VecInstance>
        ensures* writes_back { sem 𝓛 (LendsIf the_row vec_row.the_row self.entry result Vec self.old) }
        ensures value { option_map (λ v. vec_view v.now) result ≡ as_vector (value_of self.old) }
    {
        if let Instance::Vec(v) = self {
            Some(v)
        } else {
            None
        }
    }

    fn as_mat_mut(&mut self) -> Option<&mut MatInstance>
        ensures* writes_back { sem 𝓛 (LendsIf the_row mat_row.the_row self.entry result Mat self.old) }
        ensures value { option_map (λ m. mat_view m.now) result ≡ as_matrix (value_of self.old) }
    {
        if let Instance::Mat(m) = self {
            Some(m)
        } else {
            None
        }
    }

    /// The vector that the value is, to be written. The condition: it is a vector.
    pub fn unwrap_vec_mut(&mut self) -> &mut VecInstance
        requires { IsVector (value_of self.old) }
        ensures* writes_back { sem 𝓛 (Lends the_row vec_row.the_row self.entry result Vec) }
        ensures value { vec_view result.now ≡ value_of self.old }
    {
        match self {
            Instance::Vec(v) => v,
            _ => unreachable!(),
        }
    }

    /// Puts the value in the place of the part that the view leads to, and gives the old part back;
    /// `None` where the view leads nowhere, and nothing is changed (WGSL: assignment statement;
    /// memory views). It takes no memory.
    /// It calls itself for each step that the value has: keep to 2,047 within a stack of 8 MiB.
    pub fn put(&mut self, view: &MemView, value: Instance) -> Option<Instance>
        ensures put { value_of self.new ≡ put_viewed (steps_of view.now) (value_of value) (value_of self.old) }
        ensures part { option_map value_of result ≡ result_ok (viewed (steps_of view.now) (value_of self.old)) }
    {
        match view {
            MemView::Whole => Some(mem::replace(self, value)),
            MemView::Member(name, rest) => {
                let s = self.as_struct_mut()?;
                let member = s.member_mut(name.as_str())?;
                member.put(rest, value)
            }
            MemView::Index(i, rest) => {
                if let Some(array) = self.as_array_mut() {
                    let element = array.get_mut(*i)?;
                    return element.put(rest, value);
                }
                if let Some(vector) = self.as_vec_mut() {
                    let component = vector.get_mut(*i)?;
                    return component.put(rest, value);
                }
                let matrix = self.as_mat_mut()?;
                let column = matrix.col_mut(*i)?;
                column.put(rest, value)
            }
        }
    }

    /// Replaces the value by another of its type, and answers the old one (WGSL: assignment
    /// statement). Types alone are compared: a runtime-sized array goes in the place of one of
    /// another length.
    ///
    /// A value of another type is refused with `WriteRefType`, the type of the new value first, and
    /// nothing is then changed; nor is it where memory for that answer is wanting. The conditions:
    /// the value is well-formed, and the new one may be stored.
    /// It calls itself for each level of a value or type: keep to 4,095 within a stack of 8 MiB.
    pub fn write(&mut self, alloc: Global, value: Instance) -> Result<Instance, Error>
        requires own { IsWellFormed (value_of self.old) }
        requires new { IsStorable (value_of value) }
        ensures answer { Gives value_of result (replaced (value_of value) (value_of self.old)) }
        ensures ok { OnOk result (value_of self.new ≡ value_of value) }
        ensures err { OnErr result (self.new ≡ self.old) }
    {
        if self.same_type(&value) {
            Ok(mem::replace(self, value))
        } else {
            Err(Error::WriteRefType(value.ty(alloc)?, self.ty(alloc)?))
        }
    }
}
