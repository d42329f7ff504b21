//! Evaluates the constant expressions of a WGSL source, and gives its declarations their types, by
//! the operators of `wgsl_value_ops` and the builtin functions of `wgsl_value_builtins`; it adds no arithmetic of its own.
#![tactic(auto)]

mod answer;
mod assertions;
mod attribute;
mod call;
mod construct;
mod conversions;
mod declarations;
mod declare;
mod evaluation;
mod evaluator;
mod given;
pub mod laws;
mod literals;
mod message;
mod names;
mod nearest;
mod opaque;
mod operators;
mod part;
mod settings;
mod sized;
mod steps;
mod structure;
mod types;
mod variable;
mod waiting;

pub use answer::{Need, Part, Skip};
pub use assertions::Assertion;
pub use declarations::{Declarations, Item, ItemKind, resolve, resolve_in, resolve_with};
pub use evaluation::{Evaluated, Evaluation, Outcome, evaluate, evaluate_in, evaluate_with};
pub use given::{Given, is_override};
pub use message::{Message, Severity};
pub use settings::Settings;
pub use variable::Variable;
pub use wgsl_functions::Dialect;
