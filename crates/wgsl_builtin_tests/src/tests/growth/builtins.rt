//! Builtin functions of values: what each gives for the sorts of arguments that it takes, and which refusal comes
//! first.

mod bitcast;
mod bits;
mod logical;
mod numeric;
mod packing;
