//! What is printed of a WGSL source: how its types lie in the memory that a shader shares with its host, and what its
//! constants are.
#![tactic(auto)]

mod attributes;
mod bytes;
mod c;
mod defines;
mod end;
mod eval;
mod fields;
mod finding;
mod findings;
mod findings_json;
mod format;
mod host_names;
mod interface;
mod interface_json;
mod interface_table;
mod json;
mod json_text;
mod layouts;
mod left_out;
mod nearest;
mod numbers;
mod records;
mod report;
mod request;
mod rows;
mod rust;
mod scope;
mod shape;
mod share;
mod structures;
mod table;
mod together;
mod type_words;
mod uniform;
mod utf16;
mod values;
mod values_json;

pub use defines::{Define, GivenValues, define_of, values_given};
pub use end::End;
pub use eval::{
    Found, expression_value, is_expression, outcome_in_scope, value_in_scope, values_of,
};
pub use finding::Finding;
pub use findings::all_findings;
pub use format::Format;
pub use layouts::layouts_of;
pub use records::{Records, records_of};
pub use report::Report;
pub use request::Request;
pub use utf16::utf16_column;

/// The version of the library, and of the program.
pub const VERSION: &str = "0.1.0";
