//! Iterators over the parts of values.

ghost use Rattle.std.specs.Iterator.{YieldsFirstBy, item_count};
ghost use Rattle.std.specs.Prelude.{◌≡◌};
ghost use Rattle.wgsl_values.specs.Iterators.{into_items_left, items_left, listed, mat_items_left};
ghost use Rattle.wgsl_values.specs.Parts.{components};
ghost use Rattle.wgsl_values.specs.View.{value_of, vals_view};

use crate::instance::Instance;
use std::vec;

/// The items of a list of values, each lent.
#[derive(Drop)]
pub struct Items<'a> {
    rest: &'a [Instance],
}

/// The items of a list of values, each given away.
#[derive(Drop)]
pub struct IntoItems {
    rest: vec::IntoIter<Instance>,
}

/// The components of a matrix, each lent, column by column.
#[derive(Drop)]
pub struct MatItems<'a> {
    pub(crate) column: Items<'a>,
    pub(crate) columns: Items<'a>,
}

impl<'a> Items<'a> {
    #[tactic(auto, using(crate::proofs::Listed::all_listed))]
    pub(crate) fn new(rest: &'a [Instance]) -> Items<'a>
        ensures { items_left result ≡ listed (vals_view rest.now) }
    {
        Items { rest }
    }
}

impl<'a> Iterator for Items<'a> {
    type Item = &'a Instance;

    ghost next_gives = { YieldsFirstBy (λ item. value_of item.now) items_left };

    ghost remaining = { item_count items_left };

    fn next(&mut self) -> Option<&'a Instance> {
        let (first, others) = self.rest.split_first()?;
        self.rest = others;
        Some(first)
    }
}

impl IntoItems {
    #[tactic(auto, using(crate::proofs::Listed::all_listed))]
    pub(crate) fn new(values: Vec<Instance>) -> IntoItems
        ensures { into_items_left result ≡ listed (vals_view values.items) }
    {
        IntoItems {
            rest: values.into_iter(),
        }
    }
}

impl Iterator for IntoItems {
    type Item = Instance;

    ghost next_gives = { YieldsFirstBy value_of into_items_left };

    ghost remaining = { item_count into_items_left };

    fn next(&mut self) -> Option<Instance> {
        self.rest.next()
    }
}

impl<'a> Iterator for MatItems<'a> {
    type Item = &'a Instance;

    ghost next_gives = { YieldsFirstBy (λ item. value_of item.now) mat_items_left };

    ghost remaining = { item_count mat_items_left };

    fn next(&mut self) -> Option<&'a Instance> {
        loop {
            if let Some(component) = self.column.next() {
                return Some(component);
            }
            let column = self.columns.next()?;
            self.column = column_items(column);
        }
    }
}

/// The components of a vector; no other value has any.
fn column_items(column: &Instance) -> Items<'_>
    ensures { items_left result ≡ listed (components (value_of column.now)) }
{
    match column.as_vec() {
        Some(v) => v.iter(),
        None => Items::new(&[]),
    }
}
