//! The place of a part.

ghost use Rattle.std.specs.Prelude.{◌≡◌};
ghost use Rattle.wgsl_places.specs.Places.{IsPlace};
ghost use Rattle.wgsl_rules.specs.Layout.{is_from_2_to_4};
ghost use Rattle.wgsl_rules.specs.Types.{Ty};
ghost use Rattle.wgsl_layout.specs.Ranges.{Range};

/// Where a part of a value stands in bytes that hold the value from their first byte on. It is a few numbers: it holds
/// for each [`Places`](crate::Places) of the same type, and any bytes with as many elements in a runtime-sized array.
#[derive(Clone, Copy, Debug, PartialEq, Eq)]
pub struct Place {
    /// Where it begins, and the record of its type.
    pub(crate) at: wgsl_nodes::Place,
    /// How many elements the runtime-sized array has that the whole is or ends in.
    pub(crate) elements: usize,
}

impl Place {
    /// Where the part begins, in bytes from the first of the value on.
    pub fn start(&self) -> usize
        ensures { (t : Ty) (r : Range) → IsPlace t r self.now → result ≡ r.start }
    {
        self.at.offset as usize
    }

    // Whether numbers stand side by side there, as a vector's components.
    pub(crate) fn is_of_vector(self) -> bool
        ensures { result ≡ is_from_2_to_4 self.at.count }
    {
        2 <= self.at.count && self.at.count <= 4
    }
}
