//! What is asked for of a source.

use crate::format::Format;
use wgsl_eval::Settings;

/// What is asked for of a source, and how it is printed.
#[derive(Drop)]
pub struct Request<'a> {
    /// How it is printed; of constants all but JSON is a line for each.
    pub format: Format,
    /// How the source is evaluated. With strictness what is left out is a fault too.
    pub settings: Settings,
    /// The names of the declarations that are laid out; all of them where there are none.
    pub names: Vec<&'a str>,
}
