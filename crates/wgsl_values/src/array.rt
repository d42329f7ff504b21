//! Arrays (WGSL: array types).

ghost use Rattle.std.specs.Borrow.{LendsSo, sem};
ghost use Rattle.std.specs.Cmp.{partial_equiv_from_equiv};
ghost use Rattle.std.specs.Fmt.{WritesOnOk};
ghost use Rattle.std.specs.Prelude.{◌≡◌, ◌↔◌, IfOk, IsTrue, option_map, ℕ, IfSome, Option, is_some, Some};
ghost use Rattle.wgsl_rules.specs.Conversion.{rank};
ghost use Rattle.wgsl_rules.specs.Converted.{converted};
ghost use Rattle.wgsl_rules.specs.Paths.{parts};
ghost use Rattle.wgsl_rules.specs.Types as types;
ghost use Rattle.wgsl_rules.specs.Types.{Ty};
ghost use Rattle.wgsl_rules.specs.Values.{IsStorable, IsWellFormed, array_of, first_type, count, item, type_of};
ghost use Rattle.wgsl_rules.specs.View.{type_view};
ghost use Rattle.wgsl_values.specs.Equal.{arrays_equiv};
ghost use Rattle.wgsl_values.specs.Iterators.{into_items_left, items_left, listed};
ghost use Rattle.wgsl_values.specs.Parts.{is_runtime_sized};
ghost use Rattle.wgsl_values.specs.Rows.{lent_type};
ghost use Rattle.wgsl_values.specs.Same.{same_value};
ghost use Rattle.wgsl_values.specs.Texts.{text_of_value};
ghost use Rattle.wgsl_values.specs.View.{value_of, vals_view, array_view};
ghost use Rattle.wgsl_values.specs.Written.{IsAsSound, IsWritten, with_part};
ghost use Rattle.wgsl_values.specs.contracts.array.ArrayInstance as array_row;
ghost use Rattle.wgsl_values.specs.contracts.instance.Instance.{the_row};

use crate::instance::Instance;
use crate::iter::{IntoItems, Items};
use crate::lists::{
    clone_values, convert_values, have_one_type, nth, nth_mut, same_parts, write_items,
};
use std::alloc::{AllocError, Global};
use std::fmt;
use std::fmt::Display;
use wgsl_rules::{Convert, Ty, Type};

/// An array: its elements, and whether it is runtime-sized, so that its type carries no count (WGSL:
/// array types).
#[cycle(values)]
#[derive(Debug, Drop)]
pub struct ArrayInstance {
    pub(crate) components: Vec<Instance>,
    pub(crate) runtime_sized: bool,
}

impl ArrayInstance {
    /// An array of the elements, in order; a runtime-sized one has a type without a count (WGSL:
    /// array types). The condition: there are elements, all storable and of one type.
    pub fn new(components: Vec<Instance>, runtime_sized: bool) -> Self
        requires { IsStorable (array_of runtime_sized (vals_view components.items)) }
        ensures { array_view result ≡ array_of runtime_sized (vals_view components.items) }
    {
        ArrayInstance {
            components,
            runtime_sized,
        }
    }

    /// Whether the condition of [`ArrayInstance::new`] holds, as it does of both kinds of array or of
    /// neither.
    /// It calls itself for each level of the values: keep to 4,095 within a stack of 8 MiB.
    #[cycle(storable)]
    pub fn can_make(components: &[Instance], _runtime_sized: bool) -> bool
        ensures { IsTrue result ↔ IsStorable (array_of _runtime_sized (vals_view components.now)) }
    {
        !components.is_empty() && have_one_type(components)
    }

    /// Whether the type carries no count.
    pub fn runtime_sized(&self) -> bool
        ensures { result ≡ is_runtime_sized (array_view self.now) }
    {
        self.runtime_sized
    }

    /// How many elements there are.
    #[tactic(auto, using(crate::proofs::Counts::elements_counted))]
    pub fn n(&self) -> usize
        ensures { result ≡ count (parts (array_view self.now)) }
    {
        self.components.len()
    }

    /// The element at the index.
    pub fn get(&self, i: usize) -> Option<&Instance>
        ensures { option_map (λ v. value_of v.now) result ≡ item i (parts (array_view self.now)) }
    {
        nth(&self.components, i)
    }

    /// The elements.
    pub fn as_slice(&self) -> &[Instance]
        ensures { vals_view result.now ≡ parts (array_view self.now) }
    {
        &self.components
    }

    /// The element at the index, to be written (WGSL: array access expression). An array is
    /// well-formed again where what was written is storable and of the type of what was there.
    pub fn get_mut(&mut self, i: usize) -> Option<&mut Instance>
        ensures* writes_back { sem 𝓛 (LendsSo array_row.the_row the_row self.entry result
            (λ n w. IsWritten (with_part i) (lent_type result) (value_of w) (array_view self.old) (array_view n)) (λ n. n ≡ self.old)) }
        ensures value { option_map (λ v. value_of v.now) result ≡ item i (parts (array_view self.old)) }
        ensures sound { IfSome result (λ part. IsAsSound (value_of part.now) (array_view self.old)) }
        ensures ty { IfSome result (λ part. (t : Ty) (n : Option ℕ) → IsWellFormed (array_view self.old)
            → type_of (array_view self.old) ≡ types.array t n → type_of (value_of part.now) ≡ t) }
    {
        nth_mut(&mut self.components, i)
    }

    /// The elements, in order.
    pub fn iter(&self) -> Items<'_>
        ensures { items_left result ≡ listed (parts (array_view self.now)) }
    {
        Items::new(&self.components)
    }

    /// A copy of the array, in memory of its own, but for structure types that values share already: it shares them.
    /// It calls itself for each level of the value: keep to 4,095 within a stack of 8 MiB.
    #[cycle(clone)]
    pub fn clone(&self, alloc: Global) -> Result<ArrayInstance, AllocError>
        ensures { IfOk result (λ v. array_view v ≡ array_view self.now) }
    {
        let components = clone_values(alloc, &self.components)?;
        Ok(ArrayInstance {
            components,
            runtime_sized: self.runtime_sized,
        })
    }

    // The count that its type carries: none of a runtime-sized array.
    fn count(&self) -> Option<usize>
        ensures { type_of (array_view self.now) ≡ types.array (first_type (parts (array_view self.now))) result }
    {
        if self.runtime_sized {
            None
        } else {
            Some(self.components.len())
        }
    }

    #[cycle(same_type)]
    pub(crate) fn same_type(&self, other: &ArrayInstance) -> bool
        requires own { IsStorable (array_view self.now) }
        requires others { IsStorable (array_view other.now) }
        ensures { IsTrue result ↔ (type_of (array_view self.now) ≡ type_of (array_view other.now)) }
    {
        self.count() == other.count() && self.components[0].same_type(&other.components[0])
    }

    // The array of the count with each element in the type, where it is one of that count.
    #[cycle(convert)]
    fn convert_elements(
        &self,
        alloc: Global,
        count: Option<usize>,
        ty: &Type,
    ) -> Result<Option<ArrayInstance>, AllocError>
        requires { IsStorable (array_view self.now) }
        ensures { IfOk result (λ o. option_map array_view o ≡ converted (array_view self.now) (types.array (type_view ty.now) count)) }
    {
        if self.count() != count {
            return Ok(None);
        }
        let Some(components) = convert_values(alloc, &self.components, ty)? else {
            return Ok(None);
        };
        Ok(Some(ArrayInstance {
            components,
            runtime_sized: self.runtime_sized,
        }))
    }

    #[cycle(is_convertible)]
    pub(crate) fn is_convertible_to(&self, ty: &Type) -> bool
        requires { IsStorable (array_view self.now) }
        ensures { result ≡ is_some (rank (type_of (array_view self.now)) (type_view ty.now)) }
    {
        match ty.as_array() {
            Some((element, count)) => {
                self.count() == count && self.components[0].is_convertible_to(element)
            }
            None => false,
        }
    }
}

/// The elements, in order.
impl IntoIterator for ArrayInstance {
    type Item = Instance;

    type IntoIter = IntoItems;

    ghost into_iter_gives = { λ a items. into_items_left items ≡ listed (parts (array_view a)) };

    fn into_iter(self) -> IntoItems {
        IntoItems::new(self.components)
    }
}

/// The elements have one type, so the first one tells it (WGSL: array types).
impl Ty for ArrayInstance {
    ghost use Rattle.wgsl_values.specs.View.{array_view};

    ghost value_of = { array_view };

    #[cycle(ty)]
    fn ty(&self, alloc: Global) -> Result<Type, AllocError> {
        let element = self.components[0].ty(alloc)?;
        Ok(Type::Array(Box::new(alloc, element)?, self.count()))
    }

    fn inner_ty(&self, alloc: Global) -> Result<Type, AllocError> {
        self.components[0].ty(alloc)
    }

    #[cycle(has_ty)]
    fn has_ty(&self, ty: &Type) -> bool {
        match ty.as_array() {
            Some((element, count)) => self.count() == count && self.components[0].has_ty(element),
            None => false,
        }
    }
}

/// An array converts to an array type of its own sort, of equal count or runtime-sized too, element
/// by element.
impl Convert for ArrayInstance {
    ghost use Rattle.wgsl_rules.specs.Converted.{converted, inner_converted};
    ghost use Rattle.wgsl_rules.proofs.lemmas.Converted.{
      converted-type,
      converted-well_formed,
      converted-own,
      inner_converted-well_formed,
    };
    ghost use Rattle.wgsl_values.specs.View.{array_view};

    ghost converted = { converted };

    ghost converted_inner = { inner_converted };

    ghost gives_type = { λ x. converted-type (array_view x) };

    ghost gives_well_formed = { λ x. converted-well_formed (array_view x) };

    ghost inner_gives_well_formed = { λ x. inner_converted-well_formed (array_view x) };

    ghost keeps_own = { λ x. converted-own (array_view x) };

    #[cycle(convert)]
    fn convert_to(&self, alloc: Global, ty: &Type) -> Result<Option<ArrayInstance>, AllocError> {
        match ty.as_array() {
            Some((element, count)) => self.convert_elements(alloc, count, element),
            None => Ok(None),
        }
    }

    fn convert_inner_to(
        &self,
        alloc: Global,
        ty: &Type,
    ) -> Result<Option<ArrayInstance>, AllocError> {
        self.convert_elements(alloc, self.count(), ty)
    }
}

/// `array`, and the elements in parentheses.
/// It calls itself for each level of the value: keep to 4,095 within a stack of 8 MiB.
impl Display for ArrayInstance {
    ghost output = { λ a. Some (text_of_value (array_view a)) };

    fn fmt<W: fmt::Write>(&self, f: &mut fmt::Formatter<W>) -> fmt::Result {
        write_array(f, self)
    }
}

/// It calls itself for each level of the values: keep to 4,095 within a stack of 8 MiB.
impl PartialEq for ArrayInstance {
    ghost eq = { λ v w. same_value (array_view v) (array_view w) };

    ghost laws = { partial_equiv_from_equiv arrays_equiv };

    #[cycle(same)]
    fn eq(&self, other: &ArrayInstance) -> bool {
        self.runtime_sized == other.runtime_sized && same_parts(&self.components, &other.components)
    }
}

impl Eq for ArrayInstance {
    ghost laws = { arrays_equiv };
}

#[cycle(texts)]
pub(crate) fn write_array<W: fmt::Write>(
    f: &mut fmt::Formatter<W>,
    value: &ArrayInstance,
) -> fmt::Result
    ensures { WritesOnOk W.write_str_gives f.old result (text_of_value (array_view value.now)) f.new }
{
    f.write_str("array(")?;
    write_items(f, &value.components)?;
    f.write_str(")")
}
