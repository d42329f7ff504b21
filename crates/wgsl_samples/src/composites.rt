//! Values of given parts: none where a value of this sort has no such parts.

ghost use Rattle.std.specs.Prelude.{IfSome};
ghost use Rattle.wgsl_rules.specs.Values.{IsStorable};
ghost use Rattle.wgsl_values.specs.View.{mat_view, vec_view};

use wgsl_rules::StructType;
use wgsl_values::{ArrayInstance, Instance, MatInstance, StructInstance, VecInstance};

pub fn vector_of(components: Vec<Instance>) -> Option<VecInstance>
    ensures { IfSome result (λ v. IsStorable (vec_view v)) }
{
    if VecInstance::can_make(&components) {
        Some(VecInstance::new(components))
    } else {
        drop(components);
        None
    }
}

pub fn matrix_of(columns: Vec<Instance>) -> Option<MatInstance>
    ensures { IfSome result (λ m. IsStorable (mat_view m)) }
{
    if MatInstance::can_make(&columns) {
        Some(MatInstance::from_cols(columns))
    } else {
        drop(columns);
        None
    }
}

pub fn array_of(elements: Vec<Instance>, runtime_sized: bool) -> Option<ArrayInstance> {
    if ArrayInstance::can_make(&elements, runtime_sized) {
        Some(ArrayInstance::new(elements, runtime_sized))
    } else {
        drop(elements);
        None
    }
}

pub fn structure_of(ty: StructType, members: Vec<Instance>) -> Option<StructInstance> {
    if StructInstance::can_make(&ty, &members) {
        Some(StructInstance::new(ty, members))
    } else {
        drop((ty, members));
        None
    }
}
