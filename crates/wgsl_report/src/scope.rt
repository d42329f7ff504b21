//! An expression in the scope of a module: it is evaluated as a constant behind all that the module declares.

ghost use Rattle.std.specs.Prelude.{◌≡◌, IfOk, string_bytes};
ghost use Rattle.wgsl_report.specs.Scopes.{with_constant};

use std::alloc::{AllocError, Global};
use wgsl_eval::Message;

/// The text of a module with a constant of an expression behind it.
#[derive(Drop)]
pub(crate) struct WithConstant {
    pub(crate) text: String,
    /// The name of the constant, which the module does not have.
    pub(crate) name: String,
    /// Where the expression begins.
    pub(crate) start: usize,
}

/// The module with the expression, which is one alone.
pub(crate) fn with_constant(
    alloc: Global,
    module: &str,
    expression: &str,
) -> Result<WithConstant, AllocError>
    ensures { IfOk result (λ w. string_bytes w.text ≡ with_constant «module».now (string_bytes w.name) expression.now) }
{
    let name = free_name(alloc, module)?;
    let mut text = String::from_str(alloc, module)?;
    write!(text, "\nconst {name} = ")?;
    let start = text.len();
    write!(text, "{expression}\n;\n")?;
    Ok(WithConstant { text, name, start })
}

/// A name that does not stand in the module.
pub(crate) fn free_name(alloc: Global, module: &str) -> Result<String, AllocError> {
    let mut name = String::from_str(alloc, "expression")?;
    // Each turn makes it longer.
    for _ in 0..module.len() {
        if !module.contains(name.as_str()) {
            break;
        }
        name.push('_')?;
    }
    Ok(name)
}

/// The messages of the module, and those of the expression, which begins there, by their places in it.
pub(crate) fn apart(
    alloc: Global,
    messages: Vec<Message>,
    start: usize,
) -> Result<(Vec<Message>, Vec<Message>), AllocError> {
    let mut of_module = Vec::new(alloc);
    let mut of_expression = Vec::new(alloc);
    for message in messages {
        match message.start.checked_sub(start) {
            Some(begin) => of_expression.push(Message {
                start: begin,
                end: message.end.saturating_sub(start),
                severity: message.severity,
                text: message.text,
            })?,
            None => of_module.push(message)?,
        }
    }
    Ok((of_module, of_expression))
}
