//! Calls that take no memory: they give what they give where each growth behind the making of their arguments is
//! refused. What is compared is made first too.

mod cells;
mod compwise;
mod laid_out;
mod layouts;
mod literals;
mod parts;
mod places;
mod shared;
mod texts;
mod types;
mod values;
