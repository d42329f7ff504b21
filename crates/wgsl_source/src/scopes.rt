//! The names that a function declares (WGSL: declaration and scope).

ghost use Rattle.std.specs.Prelude.{◌≡◌, ◌⊎◌, ℕ, IsTrue, OnOk};
ghost use Rattle.wgsl_source.specs.Scopes.{IsKnown};

use std::alloc::{AllocError, Global};
use std::collections::BTreeSet;

/// The declarations of a module whose names a function declares too, while its tokens are looked at.
#[derive(Drop)]
pub(crate) struct Scopes {
    /// Those whose names stand for what the function declares.
    hidden: BTreeSet<usize>,
    /// The same, in the order in which they were hidden.
    active: Vec<usize>,
    /// Those whose names do so from the end of a statement on, or in the body that begins next.
    waiting: Vec<usize>,
    /// How many were active where each block began that has no end yet.
    blocks: Vec<usize>,
    /// How many were active where a `for` began whose body has not begun.
    header: Option<usize>,
}

impl Scopes {
    /// None is hidden.
    pub(crate) fn new(alloc: Global) -> Scopes
        ensures { (n : ℕ) → ¬ IsKnown result n }
    {
        Scopes {
            hidden: BTreeSet::new(alloc),
            active: Vec::new(alloc),
            waiting: Vec::new(alloc),
            blocks: Vec::new(alloc),
            header: None,
        }
    }

    /// Whether the name of the declaration stands for what the function declares.
    pub(crate) fn hides(&self, number: usize) -> bool
        ensures { IsTrue result → IsKnown self.now number }
    {
        self.hidden.contains(&number)
    }

    /// The function declares the name of this declaration.
    pub(crate) fn declare(&mut self, number: usize) -> Result<(), AllocError>
        ensures { OnOk result ((n : ℕ) → IsKnown self.new n → IsKnown self.old n ⊎ (n ≡ number)) }
    {
        self.waiting.push(number)?;
        Ok(())
    }

    /// Goes by a token, which may begin or end a block, or end a statement.
    pub(crate) fn follow(&mut self, word: &str) -> Result<(), AllocError>
        ensures { OnOk result ((n : ℕ) → IsKnown self.new n → IsKnown self.old n) }
    {
        match word {
            "{" => self.begin(),
            "}" => {
                self.end();
                Ok(())
            }
            ";" => self.hide_waiting(),
            "for" => {
                self.header = Some(self.active.len());
                Ok(())
            }
            _ => Ok(()),
        }
    }

    // Begins a block, in which the parameters of a function are declared, or the variable of a `for`.
    fn begin(&mut self) -> Result<(), AllocError>
        ensures { OnOk result ((n : ℕ) → IsKnown self.new n → IsKnown self.old n) }
    {
        let first = self.header.unwrap_or(self.active.len());
        self.header = None;
        self.blocks.push(first)?;
        self.hide_waiting()
    }

    // Those that were hidden in the block are hidden no more.
    fn end(&mut self)
        ensures { (n : ℕ) → IsKnown self.new n → IsKnown self.old n }
    {
        let first = self.blocks.pop().unwrap_or(0);
        for _ in first..self.active.len() {
            if let Some(number) = self.active.pop() {
                self.hidden.remove(&number);
            }
        }
    }

    fn hide_waiting(&mut self) -> Result<(), AllocError>
        ensures { OnOk result ((n : ℕ) → IsKnown self.new n → IsKnown self.old n) }
    {
        for _ in 0..self.waiting.len() {
            self.hide_last()?;
        }
        Ok(())
    }

    // Hides the one of those that wait that was declared last.
    fn hide_last(&mut self) -> Result<(), AllocError>
        ensures { OnOk result ((n : ℕ) → IsKnown self.new n → IsKnown self.old n) }
    {
        match self.waiting.pop() {
            Some(number) => self.hide(number),
            None => Ok(()),
        }
    }

    // One that is hidden in a block around this one stays so to the end of that.
    fn hide(&mut self, number: usize) -> Result<(), AllocError>
        ensures waiting { self.new.waiting.items ≡ self.old.waiting.items }
        ensures hidden { OnOk result ((n : ℕ) → IsKnown self.new n → IsKnown self.old n ⊎ (n ≡ number)) }
    {
        if self.hidden.insert(number)? {
            self.active.push(number)?;
        }
        Ok(())
    }
}
