//! Where the parts of the values of a type stand, found once for the type (WGSL: internal layout of
//! values; structure member layout).

ghost use Rattle.std.specs.Prelude.{◌≡◌, IfOk, None};
ghost use Rattle.std.specs.Option.{unwrap_or};
ghost use Rattle.wgsl_layout.specs.Extents.{last_tail, no_tail, plan_tail, row_tail};
ghost use Rattle.wgsl_layout.specs.Plan.{place_view, places_view, plan_view};

use crate::extent::Tail;
use std::alloc::{AllocError, Global};

/// Where the parts of a value stand, in bytes from its start.
#[cycle(plans)]
#[derive(Drop)]
pub(crate) enum Plan {
    /// One number: a scalar or an atomic.
    Scalar,
    /// The components of a vector, so far apart.
    Components(u32),
    /// The elements of an array or the columns of a matrix, so far apart, and the plan of each.
    Row(u32, Box<Plan>),
    /// The members of a structure, in its order, and how many bytes a value takes where the type tells that, else 0.
    Members(u32, Vec<Place>),
}

/// Where a member stands, and its own plan.
#[cycle(plans)]
#[derive(Drop)]
pub(crate) struct Place {
    pub(crate) offset: u32,
    pub(crate) plan: Plan,
}

impl Plan {
    /// A copy of the plan, in memory of its own.
    #[cycle(clone)]
    pub(crate) fn clone(&self, alloc: Global) -> Result<Plan, AllocError>
        ensures { IfOk result (λ p. plan_view p ≡ plan_view self.now) }
    {
        match self {
            Plan::Scalar => Ok(Plan::Scalar),
            Plan::Components(far) => Ok(Plan::Components(*far)),
            Plan::Row(far, part) => Ok(Plan::Row(*far, part.boxed_clone(alloc)?)),
            Plan::Members(size, places) => Ok(Plan::Members(*size, clone_places(alloc, places)?)),
        }
    }

    #[cycle(clone)]
    fn boxed_clone(&self, alloc: Global) -> Result<Box<Plan>, AllocError>
        ensures { IfOk result (λ b. plan_view b.value ≡ plan_view self.now) }
    {
        let copy = self.clone(alloc)?;
        Ok(Box::new(alloc, copy)?)
    }

    /// The runtime-sized array that the type is or ends in, of which this is the plan; it does not count where there is
    /// none.
    pub(crate) fn tail(&self) -> Tail
        ensures { result ≡ unwrap_or (plan_tail (plan_view self.now)) no_tail }
    {
        let tail = match self {
            Plan::Members(_, places) => last_tail(places.as_slice()),
            Plan::Row(_, _) | Plan::Scalar | Plan::Components(_) => self.row_tail(0),
        };
        tail.unwrap_or(Tail {
            start: 0,
            stride: 0,
        })
    }

    // The array or the matrix that this is the plan of, as an array that begins at `start`.
    fn row_tail(&self, start: u32) -> Option<Tail>
        ensures { result ≡ row_tail start (plan_view self.now) }
    {
        match self {
            Plan::Row(far, _) => Some(Tail {
                start,
                stride: *far,
            }),
            Plan::Scalar | Plan::Components(_) | Plan::Members(_, _) => None,
        }
    }
}

impl Place {
    #[cycle(clone)]
    fn clone(&self, alloc: Global) -> Result<Place, AllocError>
        ensures { IfOk result (λ p. place_view p ≡ place_view self.now) }
    {
        let plan = self.plan.clone(alloc)?;
        Ok(Place {
            offset: self.offset,
            plan,
        })
    }
}

#[cycle(clone)]
fn clone_places(alloc: Global, places: &Vec<Place>) -> Result<Vec<Place>, AllocError>
    ensures { IfOk result (λ v. places_view v.items ≡ places_view places.now.items) }
{
    let mut copies = Vec::with_capacity(alloc, places.len())?;
    for place in places {
        copies.push(place.clone(alloc)?)?;
    }
    Ok(copies)
}

// The last of the members, where that is an array or a matrix.
fn last_tail(places: &[Place]) -> Option<Tail>
    ensures { result ≡ last_tail None (places_view places.now) }
{
    let n = places.len();
    if n == 0 {
        return None;
    }
    let last = &places[n - 1];
    last.plan.row_tail(last.offset)
}
