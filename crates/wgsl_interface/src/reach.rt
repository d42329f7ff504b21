//! The declarations that one reaches by those that it names (WGSL: statically accessed).

ghost use Rattle.std.specs.Prelude.{◌≡◌, ◌↔◌, ℕ, ◌<◌, ◌∷◌, [], false, length, map, replicate, IfOk, OnOk};
ghost use Rattle.std.specs.List.{Contains};
ghost use Rattle.std.specs.List.Sorted.{IsStrictlyIncreasing};
ghost use Rattle.std.specs.Vec.{vec_items};
ghost use Rattle.wgsl_interface.specs.Marks.{IsMarked, marked, pending_after};
ghost use Rattle.wgsl_interface.specs.Reach.{Reaches};

use std::alloc::{AllocError, Global};

/// The declarations that one reaches: itself, those that it names, and those that these reach (WGSL:
/// statically accessed), in rising order, each once. Declarations go by their numbers from 0, and `uses`
/// has for each the numbers of those that it names. Numbers past its end are passed over; so `from`
/// reaches nothing there.
///
/// Memory alone is refused. It takes time for the uses of what is reached, and for a mark of each
/// declaration.
pub fn reached(alloc: Global, uses: &[Vec<usize>], from: usize) -> Result<Vec<usize>, AllocError>
    ensures reached { IfOk result (λ found. (n : ℕ) → Contains found.items n ↔ ((n < length uses.now) × Reaches (map vec_items uses.now) from n)) }
    ensures rising { IfOk result (λ found. IsStrictlyIncreasing found.items) }
{
    let mut search = Search::new(alloc, uses.len())?;
    search.reach(from)?;
    while let Some(declaration) = search.pending.pop() {
        search.reach_all(uses[declaration].as_slice())?;
    }
    marked_numbers(alloc, search.marks.as_slice())
}

// The numbers that have a mark.
fn marked_numbers(alloc: Global, marks: &[bool]) -> Result<Vec<usize>, AllocError>
    ensures marked { IfOk result (λ numbers. (n : ℕ) → Contains numbers.items n ↔ IsMarked marks.now n) }
    ensures rising { IfOk result (λ numbers. IsStrictlyIncreasing numbers.items) }
{
    let mut numbers = Vec::new(alloc);
    for (number, is_marked) in marks.iter().enumerate() {
        if *is_marked {
            numbers.push(number)?;
        }
    }
    Ok(numbers)
}

/// A search for what a declaration reaches.
#[derive(Drop)]
struct Search {
    /// Whether each declaration is reached.
    marks: Vec<bool>,
    /// Those that are reached, and whose uses are not looked at yet.
    pending: Vec<usize>,
}

impl Search {
    fn new(alloc: Global, declared: usize) -> Result<Self, AllocError>
        ensures marks { IfOk result (λ search. search.marks.items ≡ replicate declared false) }
        ensures pending { IfOk result (λ search. search.pending.items ≡ []) }
    {
        Ok(Search {
            marks: vec![in alloc; false; declared]?,
            pending: Vec::new(alloc),
        })
    }

    // Marks a declaration. Where it had no mark, its uses are to be looked at.
    fn reach(&mut self, declaration: usize) -> Result<(), AllocError>
        ensures marks { OnOk result (self.new.marks.items ≡ marked self.old.marks.items (declaration ∷ [])) }
        ensures pending { OnOk result (self.new.pending.items ≡ pending_after self.old.marks.items self.old.pending.items (declaration ∷ [])) }
    {
        if self.marks.get(declaration) == Some(&false) {
            self.pending.push(declaration)?;
            self.marks[declaration] = true;
        }
        Ok(())
    }

    fn reach_all(&mut self, declarations: &[usize]) -> Result<(), AllocError>
        ensures marks { OnOk result (self.new.marks.items ≡ marked self.old.marks.items declarations.now) }
        ensures pending { OnOk result (self.new.pending.items ≡ pending_after self.old.marks.items self.old.pending.items declarations.now) }
    {
        for declaration in declarations {
            self.reach(*declaration)?;
        }
        Ok(())
    }
}
