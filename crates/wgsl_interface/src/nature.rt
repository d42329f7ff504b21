//! What is known of a type, found in one walk down it.

ghost use Rattle.std.specs.Prelude.{◌≡◌, ℕ, List, false, ◌&&◌, ◌||◌, nat_le, Some};
ghost use Rattle.wgsl_interface.specs.Natures.{IsNatureOf};
ghost use Rattle.wgsl_interface.specs.Plain.{
  is_number,
  is_scalar,
  is_atomic_content,
  is_vector,
  is_matrix,
};
ghost use Rattle.wgsl_rules.specs.Layout.{is_from_2_to_4};
ghost use Rattle.wgsl_rules.specs.Types.{Ty, array, vec, mat, struct};
ghost use Rattle.wgsl_rules.specs.View.{type_view, struct_view, members_view};

use wgsl_rules::{StructMemberType, StructType, Type};

/// What is known of a type, by the words of `shared.rt`.
#[derive(Clone, Copy)]
pub(crate) struct Nature {
    pub(crate) is_plain: bool,
    /// No runtime-sized array is inside.
    pub(crate) is_sized: bool,
    /// It is a runtime-sized array itself.
    pub(crate) is_runtime_sized: bool,
    pub(crate) is_concrete: bool,
    pub(crate) is_constructible: bool,
    pub(crate) is_host_shareable: bool,
    pub(crate) has_atomic: bool,
}

impl Nature {
    const NUMBER: Nature = Nature {
        is_plain: true,
        is_sized: true,
        is_runtime_sized: false,
        is_concrete: true,
        is_constructible: true,
        is_host_shareable: true,
        has_atomic: false,
    };

    // Of pointers, references, textures and samplers.
    const NOT_PLAIN: Nature = Nature {
        is_plain: false,
        is_sized: true,
        is_runtime_sized: false,
        is_concrete: true,
        is_constructible: false,
        is_host_shareable: false,
        has_atomic: false,
    };

    // Of a vector or a matrix of such components, that has a right shape or none.
    fn of_components(self, is_shape: bool) -> Self
        ensures vector { (n : ℕ) (t : Ty) → IsNatureOf t self → is_shape ≡ is_vector n t → IsNatureOf (vec n t) result }
        ensures matrix { (c r : ℕ) (t : Ty) → IsNatureOf t self → is_shape ≡ is_matrix c r t → IsNatureOf (mat c r t) result }
    {
        Nature {
            is_plain: is_shape,
            is_sized: true,
            is_runtime_sized: false,
            is_concrete: self.is_concrete,
            is_constructible: is_shape,
            is_host_shareable: is_shape && self.is_host_shareable,
            has_atomic: false,
        }
    }

    // Of an array of n such elements; of a runtime-sized one where n is `None`.
    fn of_array(self, n: Option<usize>) -> Self
        ensures { (t : Ty) → IsNatureOf t self → IsNatureOf (array t n) result }
    {
        match n {
            Some(n) => self.of_fixed_array(1 <= n),
            None => Nature {
                is_plain: self.is_sized & self.is_plain,
                is_sized: false,
                is_runtime_sized: true,
                is_concrete: self.is_concrete,
                is_constructible: false,
                is_host_shareable: self.is_sized & self.is_host_shareable,
                has_atomic: self.has_atomic,
            },
        }
    }

    // Of an array of such elements that has one at least, or has none.
    fn of_fixed_array(self, is_count: bool) -> Self
        ensures { (t : Ty) (n : ℕ) → IsNatureOf t self → is_count ≡ nat_le 1 n → IsNatureOf (array t (Some n)) result }
    {
        Nature {
            is_plain: is_count & (self.is_sized & self.is_plain),
            is_sized: self.is_sized,
            is_runtime_sized: false,
            is_concrete: self.is_concrete,
            is_constructible: is_count & (self.is_sized & self.is_constructible),
            is_host_shareable: is_count & (self.is_sized & self.is_host_shareable),
            has_atomic: self.has_atomic,
        }
    }

    // Of a structure of these members and one more, behind which there are others or none.
    fn with_member(self, member: Nature, is_last: bool) -> Self
        ensures plain { result.is_plain ≡ (self.is_plain && ((member.is_sized || (is_last && member.is_runtime_sized)) && member.is_plain)) }
        ensures sized { result.is_sized ≡ (self.is_sized && member.is_sized) }
        ensures runtime { result.is_runtime_sized ≡ false }
        ensures concrete { result.is_concrete ≡ (self.is_concrete && member.is_concrete) }
        ensures constructible { result.is_constructible ≡ (self.is_constructible && member.is_constructible) }
        ensures shareable { result.is_host_shareable ≡ (self.is_host_shareable && ((member.is_sized || (is_last && member.is_runtime_sized)) && member.is_host_shareable)) }
        ensures atomic { result.has_atomic ≡ (self.has_atomic || member.has_atomic) }
    {
        let may_stand = member.is_sized || is_last && member.is_runtime_sized;
        Nature {
            is_plain: self.is_plain && may_stand && member.is_plain,
            is_sized: self.is_sized && member.is_sized,
            is_runtime_sized: false,
            is_concrete: self.is_concrete && member.is_concrete,
            is_constructible: self.is_constructible && member.is_constructible,
            is_host_shareable: self.is_host_shareable && may_stand && member.is_host_shareable,
            has_atomic: self.has_atomic || member.has_atomic,
        }
    }
}

// Of components, columns and rows.
fn is_from_2_to_4(n: u8) -> bool
    ensures { result ≡ is_from_2_to_4 n }
{
    (2..=4).contains(&n)
}

// A bool, or a number.
fn is_scalar(ty: &Type) -> bool
    ensures { result ≡ is_scalar (type_view ty.now) }
{
    match ty {
        Type::Bool | Type::AbstractInt | Type::AbstractFloat => true,
        Type::I32 | Type::U32 | Type::F32 | Type::F16 => true,
        Type::I64 | Type::U64 | Type::F64 => true,
        Type::Struct(_) | Type::Array(_, _) | Type::Vec(_, _) | Type::Mat(_, _, _) => false,
        Type::Atomic(_) | Type::Ptr(_, _, _) | Type::Ref(_, _, _) => false,
        Type::Texture(_) | Type::Sampler(_) => false,
    }
}

// A number, abstract ones among them.
fn is_number(ty: &Type) -> bool
    ensures { result ≡ is_number (type_view ty.now) }
{
    match ty {
        Type::AbstractInt | Type::AbstractFloat => true,
        Type::I32 | Type::U32 | Type::F32 | Type::F16 => true,
        Type::I64 | Type::U64 | Type::F64 => true,
        Type::Bool | Type::Struct(_) | Type::Array(_, _) => false,
        Type::Vec(_, _) | Type::Mat(_, _, _) => false,
        Type::Atomic(_) | Type::Ptr(_, _, _) | Type::Ref(_, _, _) => false,
        Type::Texture(_) | Type::Sampler(_) => false,
    }
}

/// Components, and their number.
pub(crate) fn is_vector(n: u8, component: &Type) -> bool
    ensures { result ≡ is_vector n (type_view component.now) }
{
    is_from_2_to_4(n) && is_scalar(component)
}

/// Columns and rows of numbers.
pub(crate) fn is_matrix(columns: u8, rows: u8, component: &Type) -> bool
    ensures { result ≡ is_matrix columns rows (type_view component.now) }
{
    is_from_2_to_4(columns) && is_from_2_to_4(rows) && is_number(component)
}

/// What an atomic holds.
pub(crate) fn is_atomic_content(ty: &Type) -> bool
    ensures { result ≡ is_atomic_content (type_view ty.now) }
{
    match ty {
        Type::I32 | Type::U32 => true,
        Type::Bool | Type::AbstractInt | Type::AbstractFloat => false,
        Type::F32 | Type::F16 | Type::I64 | Type::U64 | Type::F64 => false,
        Type::Struct(_) | Type::Array(_, _) | Type::Vec(_, _) | Type::Mat(_, _, _) => false,
        Type::Atomic(_) | Type::Ptr(_, _, _) | Type::Ref(_, _, _) => false,
        Type::Texture(_) | Type::Sampler(_) => false,
    }
}

/// Of a type.
/// It calls itself for each level of the type: keep to 4,095 within a stack of 8 MiB.
#[cycle(natures)]
pub(crate) fn nature_of(ty: &Type) -> Nature
    ensures { IsNatureOf (type_view ty.now) result }
{
    match ty {
        Type::I32 | Type::U32 | Type::F32 | Type::F16 => Nature::NUMBER,
        Type::I64 | Type::U64 | Type::F64 => Nature::NUMBER,
        Type::Bool => Nature {
            is_host_shareable: false,
            ..Nature::NUMBER
        },
        Type::AbstractInt | Type::AbstractFloat => Nature {
            is_concrete: false,
            is_host_shareable: false,
            ..Nature::NUMBER
        },
        Type::Vec(n, component) => { nature_of(component).of_components(is_vector(*n, component)) }
        Type::Mat(columns, rows, component) => {
            nature_of(component).of_components(is_matrix(*columns, *rows, component))
        }
        Type::Atomic(content) => {
            let is_content = is_atomic_content(content);
            Nature {
                is_plain: is_content,
                is_sized: true,
                is_runtime_sized: false,
                is_concrete: nature_of(content).is_concrete,
                is_constructible: false,
                is_host_shareable: is_content,
                has_atomic: true,
            }
        }
        Type::Array(element, n) => nature_of(element).of_array(*n),
        Type::Struct(ty) => nature_of_struct(ty),
        Type::Ptr(_, _, _) | Type::Ref(_, _, _) => Nature::NOT_PLAIN,
        Type::Texture(_) | Type::Sampler(_) => Nature::NOT_PLAIN,
    }
}

#[cycle(natures)]
fn nature_of_struct(ty: &StructType) -> Nature
    ensures { IsNatureOf (struct_view ty.now) result }
{
    nature_of_members(ty.members.as_slice())
}

// Of a structure of these members.
#[cycle(natures)]
fn nature_of_members(members: &[StructMemberType]) -> Nature
    ensures { (name : List ℕ) → IsNatureOf (struct name (members_view members.now)) result }
{
    let is_shape = !members.is_empty();
    let mut all = Nature {
        is_plain: is_shape,
        is_constructible: is_shape,
        is_host_shareable: is_shape,
        ..Nature::NUMBER
    };
    for (i, member) in members.iter().enumerate() {
        let is_last = i + 1 == members.len();
        all = all.with_member(nature_of(&member.ty), is_last);
    }
    all
}
