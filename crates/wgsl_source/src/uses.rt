//! Which declarations a declaration names (WGSL: declaration and scope).

ghost use Rattle.std.specs.Prelude.{◌≡◌, ◌↔◌, ◌<◌, ◌-◌, ◌^◌, ◌⊎◌, ◌||◌, ℕ, [], ◌∷◌, IfOk, IsTrue, OnOk, Some, codes, false, map, true};
ghost use Rattle.std.specs.List.Sorted.{IsStrictlyIncreasing};
ghost use Rattle.wgsl_source.specs.Finders.{HasAdded, HasFound, HasFoundIn, IsFinderBehind, IsStep, IsStepOf, has_found};
ghost use Rattle.wgsl_source.specs.Scopes.{IsKnown};
ghost use Rattle.wgsl_source.specs.Uses.{AreUses, AreUsesOf, IsFunction, endings, named_at, named_by, stands};

use crate::expression::Step;
use crate::module::{Declared, Reading};
use crate::order::name_in;
use crate::piece::PieceKind;
use crate::scopes::Scopes;
use std::alloc::{AllocError, Global};
use std::collections::BTreeSet;

/// The declarations that one names, as far as its tokens are looked at.
#[derive(Drop)]
struct Finder<'a> {
    reading: &'a Reading<'a>,
    found: BTreeSet<usize>,
    scopes: Scopes,
    /// Whether the body of the function has begun.
    in_body: bool,
}

impl Reading<'_> {
    /// The declarations that each declaration names, each once, in rising order. In a function a name that it declares
    /// itself stands for that, from the end of that declaration to the end of its block. An expression has none.
    ///
    /// The only error is that memory is wanting.
    pub fn uses(&self, alloc: Global) -> Result<Vec<Vec<usize>>, AllocError>
        ensures { IfOk result (λ lists. AreUsesOf self.now (endings self.now.pieces) (map (λ list. list.items) lists.items)) }
    {
        let pieces = self.pieces();
        let mut lists = Vec::with_capacity(alloc, self.len())?;
        for piece in pieces {
            if let PieceKind::Declaration(number) = piece.kind {
                lists.push(self.uses_of(alloc, number, piece.end)?)?;
            }
        }
        Ok(lists)
    }

    // Those that a declaration names which ends before this token.
    fn uses_of(&self, alloc: Global, number: usize, end: usize) -> Result<Vec<usize>, AllocError>
        ensures { IfOk result (λ list. AreUses self.now number end list.items) }
    {
        let mut finder = Finder::new(alloc, self);
        finder.add_steps(self.steps_of(number))?;
        finder.add_function(number, end)?;
        finder.into_list(alloc)
    }

    fn is_function(&self, number: usize) -> bool
        ensures { IsTrue result ↔ IsFunction self.now number }
    {
        matches!(self.declared(number), Some(Declared::Function))
    }
}

impl<'a> Finder<'a> {
    fn new(alloc: Global, reading: &'a Reading<'a>) -> Finder<'a>
        ensures reading { result.reading.now ≡ reading.entry.now }
        ensures found { (n : ℕ) → has_found result n ≡ false }
        ensures scopes { (n : ℕ) → ¬ IsKnown result.scopes n }
        ensures body { result.in_body ≡ false }
    {
        Finder {
            reading,
            found: BTreeSet::new(alloc),
            scopes: Scopes::new(alloc),
            in_body: false,
        }
    }

    // Those that steps look up.
    fn add_steps(&mut self, steps: &[Step]) -> Result<(), AllocError>
        ensures { OnOk result (HasAdded self.old steps.now self.new) }
    {
        for step in steps {
            self.add_step(*step)?;
        }
        Ok(())
    }

    fn add_step(&mut self, step: Step) -> Result<(), AllocError>
        ensures { OnOk result (HasAdded self.old (step ∷ []) self.new) }
    {
        match self.named_by(step) {
            Some(number) => self.add(number),
            None => Ok(()),
        }
    }

    // The declaration whose name a step looks up.
    fn named_by(&self, step: Step) -> Option<usize>
        ensures { result ≡ named_by self.now.reading.now step }
    {
        let token = name_in(step)?;
        self.reading.number_of(self.reading.word(token))
    }

    fn add(&mut self, number: usize) -> Result<(), AllocError>
        ensures same { IsFinderBehind self.old self.new }
        ensures found { OnOk result (has_found self.new number ≡ true) }
        ensures named { (n : ℕ) → has_found self.new n ≡ true → (has_found self.old n ≡ true) ⊎ (n ≡ number) }
    {
        self.found.insert(number)?;
        Ok(())
    }

    // Those that a declaration names behind its name, if it is a function.
    fn add_function(&mut self, number: usize, end: usize) -> Result<(), AllocError>
        requires scopes { (n : ℕ) → ¬ IsKnown self.old.scopes n }
        requires body { self.old.in_body ≡ false }
        ensures { OnOk result (HasFoundIn self.old number end self.new) }
    {
        if !self.reading.is_function(number) {
            return Ok(());
        }
        self.add_tokens(self.reading.name(number), end)
    }

    // Those that a function names behind its name.
    fn add_tokens(&mut self, name: usize, end: usize) -> Result<(), AllocError>
        requires scopes { (n : ℕ) → ¬ IsKnown self.old.scopes n }
        requires body { self.old.in_body ≡ false }
        ensures { OnOk result (HasFound self.old name end self.new) }
    {
        let mut at = name.saturating_add(1);
        while at < end {
            self.add_token(at)?;
            at += 1;
        }
        Ok(())
    }

    fn add_token(&mut self, at: usize) -> Result<(), AllocError>
        requires { at < 2 ^ 64 - 1 }
        ensures { OnOk result (IsStep at self.old self.new) }
    {
        let in_body = self.is_in_body_behind(at);
        self.add_name(at)?;
        self.in_body = in_body;
        self.scopes.follow(self.reading.word(at))
    }

    fn is_in_body_behind(&self, at: usize) -> bool
        ensures { result ≡ (self.now.in_body || stands self.now.reading.now at (codes "{")) }
    {
        self.in_body || self.reading.word(at) == "{"
    }

    // What the name of the token adds, if it is one.
    fn add_name(&mut self, at: usize) -> Result<(), AllocError>
        requires { at < 2 ^ 64 - 1 }
        ensures { OnOk result (IsStepOf at self.old self.new) }
    {
        match self.reading.number_of(self.reading.word(at)) {
            Some(number) => self.note(at, number),
            None => Ok(()),
        }
    }

    // The token has the name of this declaration.
    fn note(&mut self, at: usize, number: usize) -> Result<(), AllocError>
        requires within { at < 2 ^ 64 - 1 }
        requires named { named_at self.old.reading.now at ≡ Some number }
        ensures { OnOk result (IsStepOf at self.old self.new) }
    {
        if self.reading.is_declaring(at, self.in_body) {
            return self.scopes.declare(number);
        }
        if !self.reading.is_plain(at) {
            return Ok(());
        }
        if self.scopes.hides(number) {
            return Ok(());
        }
        self.add(number)
    }

    fn into_list(self, alloc: Global) -> Result<Vec<usize>, AllocError>
        ensures rising { IfOk result (λ list. IsStrictlyIncreasing list.items) }
        ensures same { IfOk result (λ list. list.items ≡ self.entry.found.keys) }
    {
        let mut list = Vec::with_capacity(alloc, self.found.len())?;
        for number in &self.found {
            list.push(*number)?;
        }
        Ok(list)
    }
}
