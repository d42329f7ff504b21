//! Vectors (WGSL: vector types).

ghost use Rattle.std.specs.Borrow.{LendsSo, sem};
ghost use Rattle.std.specs.Cmp.{partial_equiv_from_equiv};
ghost use Rattle.std.specs.Fmt.{WritesOnOk};
ghost use Rattle.std.specs.Prelude.{◌≡◌, ◌↔◌, IfOk, IsTrue, map, option_map, ℕ, IfSome, is_some, Some};
ghost use Rattle.wgsl_rules.specs.Conversion.{rank};
ghost use Rattle.wgsl_rules.specs.Converted.{all_converted, converted};
ghost use Rattle.wgsl_rules.specs.Paths.{parts};
ghost use Rattle.wgsl_rules.specs.Types as types;
ghost use Rattle.wgsl_rules.specs.Types.{Ty};
ghost use Rattle.wgsl_rules.specs.Values.{IsStorable, IsWellFormed, first_type, vector, count, item, type_of, AreLiterals};
ghost use Rattle.wgsl_rules.specs.View.{type_view};
ghost use Rattle.wgsl_scalar.specs.Literals.{literal_of};
ghost use Rattle.wgsl_values.specs.Equal.{vecs_equiv};
ghost use Rattle.wgsl_values.specs.Iterators.{into_items_left, items_left, listed};
ghost use Rattle.wgsl_values.specs.Make.{literals_view};
ghost use Rattle.wgsl_values.specs.Rows.{lent_type};
ghost use Rattle.wgsl_values.specs.Same.{same_value};
ghost use Rattle.wgsl_values.specs.Texts.{text_of_value};
ghost use Rattle.wgsl_values.specs.View.{value_of, vals_view, vec_view};
ghost use Rattle.wgsl_values.specs.Written.{IsAsSound, IsWritten, with_part};
ghost use Rattle.wgsl_values.specs.contracts.instance.Instance.{the_row};
ghost use Rattle.wgsl_values.specs.contracts.vector.VecInstance as vec_row;

use crate::instance::Instance;
use crate::iter::{IntoItems, Items};
use crate::lists::{
    clone_values, have_one_type, is_component_count, nth, nth_mut, same_parts, write_items,
};
use std::alloc::{AllocError, Global};
use std::fmt;
use std::fmt::Display;
use std::ops::Index;
use wgsl_rules::{Convert, Ty, Type};
use wgsl_scalar::LiteralInstance;

/// A vector: its components (WGSL: vector types).
#[cycle(values)]
#[derive(Debug, Drop)]
pub struct VecInstance {
    pub(crate) components: Vec<Instance>,
}

impl VecInstance {
    /// A vector of the components, in order (WGSL: vector types). The condition: two to four
    /// literals of one kind.
    pub fn new(components: Vec<Instance>) -> Self
        requires { IsStorable (vector (vals_view components.items)) }
        ensures { vec_view result ≡ vector (vals_view components.items) }
    {
        VecInstance { components }
    }

    /// Whether the condition of [`VecInstance::new`] holds.
    #[cycle(storable)]
    pub fn can_make(components: &[Instance]) -> bool
        ensures { IsTrue result ↔ IsStorable (vector (vals_view components.now)) }
    {
        if !is_component_count(components.len()) {
            return false;
        }
        components[0].is_literal() && have_one_type(components)
    }

    /// A vector of two components (WGSL: vector types). The condition: literals of one kind.
    pub fn from2(alloc: Global, components: [LiteralInstance; 2]) -> Result<Self, AllocError>
        requires { IsStorable (vector (literals_view components)) }
        ensures { IfOk result (λ v. vec_view v ≡ vector (literals_view components)) }
    {
        VecInstance::from_literals(alloc, &components)
    }

    /// A vector of three components (WGSL: vector types). The condition: literals of one kind.
    pub fn from3(alloc: Global, components: [LiteralInstance; 3]) -> Result<Self, AllocError>
        requires { IsStorable (vector (literals_view components)) }
        ensures { IfOk result (λ v. vec_view v ≡ vector (literals_view components)) }
    {
        VecInstance::from_literals(alloc, &components)
    }

    /// A vector of four components (WGSL: vector types). The condition: literals of one kind.
    pub fn from4(alloc: Global, components: [LiteralInstance; 4]) -> Result<Self, AllocError>
        requires { IsStorable (vector (literals_view components)) }
        ensures { IfOk result (λ v. vec_view v ≡ vector (literals_view components)) }
    {
        VecInstance::from_literals(alloc, &components)
    }

    fn from_literals(alloc: Global, literals: &[LiteralInstance]) -> Result<Self, AllocError>
        ensures { IfOk result (λ v. vec_view v ≡ vector (literals_view literals.now)) }
    {
        let components = literal_values(alloc, literals)?;
        Ok(VecInstance { components })
    }

    /// How many components there are.
    #[tactic(auto, using(crate::proofs::Counts::components_counted))]
    pub fn n(&self) -> usize
        ensures { result ≡ count (parts (vec_view self.now)) }
    {
        self.components.len()
    }

    /// The component at the index.
    pub fn get(&self, i: usize) -> Option<&Instance>
        ensures { option_map (λ v. value_of v.now) result ≡ item i (parts (vec_view self.now)) }
    {
        nth(&self.components, i)
    }

    /// The components.
    pub fn as_slice(&self) -> &[Instance]
        ensures { vals_view result.now ≡ parts (vec_view self.now) }
    {
        &self.components
    }

    /// The component at the index, to be written (WGSL: vector access expression). A vector is
    /// well-formed again where what was written is a literal of the kind of what was there.
    pub fn get_mut(&mut self, i: usize) -> Option<&mut Instance>
        ensures* writes_back { sem 𝓛 (LendsSo vec_row.the_row the_row self.entry result
            (λ n w. IsWritten (with_part i) (lent_type result) (value_of w) (vec_view self.old) (vec_view n)) (λ n. n ≡ self.old)) }
        ensures value { option_map (λ v. value_of v.now) result ≡ item i (parts (vec_view self.old)) }
        ensures sound { IfSome result (λ part. IsAsSound (value_of part.now) (vec_view self.old)) }
        ensures ty { IfSome result (λ part. (n : ℕ) (t : Ty) → IsWellFormed (vec_view self.old)
            → type_of (vec_view self.old) ≡ types.vec n t → type_of (value_of part.now) ≡ t) }
    {
        nth_mut(&mut self.components, i)
    }

    /// The components, in order.
    pub fn iter(&self) -> Items<'_>
        ensures { items_left result ≡ listed (parts (vec_view self.now)) }
    {
        Items::new(&self.components)
    }

    /// A copy of the vector, in memory of its own.
    #[cycle(clone)]
    pub fn clone(&self, alloc: Global) -> Result<VecInstance, AllocError>
        ensures { IfOk result (λ v. vec_view v ≡ vec_view self.now) }
    {
        let components = clone_values(alloc, &self.components)?;
        Ok(VecInstance { components })
    }

    // How many components there are.
    pub(crate) fn size(&self) -> u8
        requires { IsStorable (vec_view self.now) }
        ensures { type_of (vec_view self.now) ≡ types.vec result (first_type (parts (vec_view self.now))) }
    {
        self.components.len() as u8
    }

    // The type of each component.
    pub(crate) fn scalar_ty(&self) -> Type
        requires { IsStorable (vec_view self.now) }
        ensures { type_view result ≡ first_type (parts (vec_view self.now)) }
    {
        self.components[0].scalar_ty()
    }

    // Whether there are so many components of the type.
    pub(crate) fn is_of(&self, size: u8, scalar: &Type) -> bool
        requires { IsStorable (vec_view self.now) }
        ensures { IsTrue result ↔ (type_of (vec_view self.now) ≡ types.vec size (type_view scalar.now)) }
    {
        self.size() == size && self.scalar_ty() == *scalar
    }

    pub(crate) fn same_type(&self, other: &VecInstance) -> bool
        requires own { IsStorable (vec_view self.now) }
        requires others { IsStorable (vec_view other.now) }
        ensures { IsTrue result ↔ (type_of (vec_view self.now) ≡ type_of (vec_view other.now)) }
    {
        self.is_of(other.size(), &other.scalar_ty())
    }

    // The vector of the size with each component in the type, where it is one of that size.
    pub(crate) fn convert_components(
        &self,
        alloc: Global,
        size: u8,
        ty: &Type,
    ) -> Result<Option<VecInstance>, AllocError>
        requires { IsStorable (vec_view self.now) }
        ensures { IfOk result (λ o. option_map vec_view o ≡ converted (vec_view self.now) (types.vec size (type_view ty.now))) }
    {
        if self.size() != size {
            return Ok(None);
        }
        let Some(components) = convert_literals(alloc, &self.components, ty)? else {
            return Ok(None);
        };
        Ok(Some(VecInstance { components }))
    }

    // Whether it converts to vectors of the size and the scalar type.
    pub(crate) fn converts(&self, size: u8, scalar: &Type) -> bool
        requires { IsStorable (vec_view self.now) }
        ensures { result ≡ is_some (rank (type_of (vec_view self.now)) (types.vec size (type_view scalar.now))) }
    {
        self.size() == size && self.scalar_ty().is_convertible_to(scalar)
    }

    pub(crate) fn is_convertible_to(&self, ty: &Type) -> bool
        requires { IsStorable (vec_view self.now) }
        ensures { result ≡ is_some (rank (type_of (vec_view self.now)) (type_view ty.now)) }
    {
        match ty.as_vec() {
            Some((size, scalar)) => self.converts(size, scalar),
            None => false,
        }
    }

    pub(crate) fn literal(&self, i: usize) -> Option<LiteralInstance>
        requires { IsStorable (vec_view self.now) }
        ensures { option_map literal_of result ≡ item i (parts (vec_view self.now)) }
    {
        let component = self.get(i)?;
        Some(*component.unwrap_literal_ref())
    }
}

/// The component at the index. The condition: the index is below the count.
impl Index<usize> for VecInstance {
    ghost use Rattle.std.specs.Prelude.{◌≡◌, ◌<◌, Some};
    ghost use Rattle.wgsl_rules.specs.Paths.{parts};
    ghost use Rattle.wgsl_rules.specs.Values.{count, item};
    ghost use Rattle.wgsl_values.specs.View.{value_of, vec_view};

    type Output = Instance;

    ghost can_index = { λ v i. i < count (parts (vec_view v)) };

    ghost index_gives = { λ v i component. item i (parts (vec_view v)) ≡ Some (value_of component) };

    fn index(&self, index: usize) -> &Instance {
        &self.components[index]
    }
}

/// The components, in order.
impl IntoIterator for VecInstance {
    type Item = Instance;

    type IntoIter = IntoItems;

    ghost into_iter_gives = { λ v items. into_items_left items ≡ listed (parts (vec_view v)) };

    fn into_iter(self) -> IntoItems {
        IntoItems::new(self.components)
    }
}

/// The components are literals of one kind (WGSL: vector types).
impl Ty for VecInstance {
    ghost use Rattle.wgsl_values.specs.View.{vec_view};

    ghost value_of = { vec_view };

    fn ty(&self, alloc: Global) -> Result<Type, AllocError> {
        let scalar = Box::new(alloc, self.scalar_ty())?;
        Ok(Type::Vec(self.size(), scalar))
    }

    fn inner_ty(&self, _alloc: Global) -> Result<Type, AllocError> {
        Ok(self.scalar_ty())
    }

    fn has_ty(&self, ty: &Type) -> bool {
        match ty.as_vec() {
            Some((size, scalar)) => self.is_of(size, scalar),
            None => false,
        }
    }
}

/// A vector converts to a vector type of its size, component by component.
impl Convert for VecInstance {
    ghost use Rattle.wgsl_rules.specs.Converted.{converted, inner_converted};
    ghost use Rattle.wgsl_rules.proofs.lemmas.Converted.{
      converted-type,
      converted-well_formed,
      converted-own,
      inner_converted-well_formed,
    };
    ghost use Rattle.wgsl_values.specs.View.{vec_view};

    ghost converted = { converted };

    ghost converted_inner = { inner_converted };

    ghost gives_type = { λ x. converted-type (vec_view x) };

    ghost gives_well_formed = { λ x. converted-well_formed (vec_view x) };

    ghost inner_gives_well_formed = { λ x. inner_converted-well_formed (vec_view x) };

    ghost keeps_own = { λ x. converted-own (vec_view x) };

    fn convert_to(&self, alloc: Global, ty: &Type) -> Result<Option<VecInstance>, AllocError> {
        match ty.as_vec() {
            Some((size, scalar)) => self.convert_components(alloc, size, scalar),
            None => Ok(None),
        }
    }

    fn convert_inner_to(
        &self,
        alloc: Global,
        ty: &Type,
    ) -> Result<Option<VecInstance>, AllocError> {
        self.convert_components(alloc, self.size(), ty)
    }
}

/// `vec` with the number of components, and the components in parentheses.
impl Display for VecInstance {
    ghost output = { λ v. Some (text_of_value (vec_view v)) };

    fn fmt<W: fmt::Write>(&self, f: &mut fmt::Formatter<W>) -> fmt::Result {
        write_vec(f, self)
    }
}

impl PartialEq for VecInstance {
    ghost eq = { λ v w. same_value (vec_view v) (vec_view w) };

    ghost laws = { partial_equiv_from_equiv vecs_equiv };

    #[cycle(same)]
    fn eq(&self, other: &VecInstance) -> bool {
        same_parts(&self.components, &other.components)
    }
}

impl Eq for VecInstance {
    ghost laws = { vecs_equiv };
}

fn literal_values(alloc: Global, literals: &[LiteralInstance]) -> Result<Vec<Instance>, AllocError>
    ensures { IfOk result (λ v. v.items ≡ map (λ l. Instance.Literal l) literals.now) }
{
    literals
        .iter()
        .map(|literal| Instance::Literal(*literal))
        .collect(alloc)
}

// Each of the literals in the type, where each converts to it.
#[tactic(auto, using(crate::proofs::Conversions::literal_steps))]
fn convert_literals(
    alloc: Global,
    literals: &Vec<Instance>,
    ty: &Type,
) -> Result<Option<Vec<Instance>>, AllocError>
    requires { AreLiterals (vals_view literals.now.items) }
    ensures { IfOk result (λ o. option_map (λ v. vals_view v.items) o ≡ all_converted (vals_view literals.now.items) (type_view ty.now)) }
{
    let mut all = Vec::with_capacity(alloc, literals.len())?;
    for literal in literals {
        let Some(converted) = literal.unwrap_literal_ref().to_kind(ty) else {
            return Ok(None);
        };
        all.push(Instance::Literal(converted))?;
    }
    Ok(Some(all))
}

#[cycle(texts)]
pub(crate) fn write_vec<W: fmt::Write>(
    f: &mut fmt::Formatter<W>,
    value: &VecInstance,
) -> fmt::Result
    ensures { WritesOnOk W.write_str_gives f.old result (text_of_value (vec_view value.now)) f.new }
{
    let n = value.components.len();
    write!(f, "vec{n}(")?;
    write_items(f, &value.components)?;
    f.write_str(")")
}
