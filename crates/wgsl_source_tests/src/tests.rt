//! What sources declare.

mod asserts;
mod compared;
mod declarations;
mod directives;
mod entries;
mod faults;
mod growth;
mod identifiers;
mod lines;
mod made;
mod modules;
mod pieces;
mod plain_forms;
mod plain_groups;
mod plain_modules;
mod plain_tokens;
mod preprocessor;
mod readings;
mod reasons;
mod recovery;
mod texts;
mod tokens;
mod uses;
