//! What C calls: layouts, constants, faults and scripts, of texts that the caller has, into memory that the caller has
//! (`bindings/c/wgsl.h`).
#![tactic(auto)]

mod answer;
mod asked;
mod codes;
mod expressions;
mod faults;
mod layouts;
mod nodes;
mod scripts;
