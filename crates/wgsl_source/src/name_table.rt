//! Declarations by their names.

ghost use Rattle.std.specs.Prelude.{◌≡◌, ◌<◌, ℕ, List, None, Some, cond, length, IfOk};
ghost use Rattle.std.specs.Str.{bytes_eq};
ghost use Rattle.std.specs.String.{string_bytes};
ghost use Rattle.wgsl_source.specs.NameTables.{map_of, named_in};

use std::alloc::{AllocError, Global};
use std::collections::BTreeMap;
use std::hash::{FoldHasher, Hasher};

/// How many names are meant to share a map.
const SHARED: usize = 4;

/// How many bytes of a name are hashed, from its first on: nearly all names have fewer, and one that is asked for may have
/// any number of them.
const HASHED: usize = 64;

/// The numbers of declarations by their names, in maps of few names: a hash of how the name begins says in which map it is.
/// However the names are chosen, one is found in time in the logarithm of their number.
#[derive(Debug, Drop)]
pub(crate) struct NameTable {
    maps: Vec<BTreeMap<String, usize>>,
}

// The number of the map that a name is in, of so many.
fn map_of(name: &str, maps: usize) -> usize
    requires { 0 < maps }
    ensures within { result < maps }
    ensures map { result ≡ map_of name.now maps }
{
    let bytes = name.as_bytes();
    let mut hasher = FoldHasher::default();
    hasher.write(&bytes[..bytes.len().min(HASHED)]);
    (hasher.finish() % maps as u64) as usize
}

impl NameTable {
    /// Without a name, and for none.
    pub(crate) fn empty(alloc: Global) -> NameTable
        ensures { length result.maps.items ≡ 0 }
    {
        NameTable {
            maps: Vec::new(alloc),
        }
    }

    /// Without a name, for about so many.
    pub(crate) fn for_names(alloc: Global, names: usize) -> Result<NameTable, AllocError>
        ensures none { IfOk result (λ t. (name : List ℕ) → named_in t name ≡ None) }
        ensures room { IfOk result (λ t. 0 < names → 0 < length t.maps.items) }
    {
        if names == 0 {
            return Ok(NameTable::empty(alloc));
        }
        let count = names / SHARED + 1;
        let mut maps = Vec::with_capacity(alloc, count)?;
        for _ in 0..count {
            maps.push(BTreeMap::new(alloc))?;
        }
        Ok(NameTable { maps })
    }

    /// The number of the declaration of this name.
    pub(crate) fn get(&self, name: &str) -> Option<usize>
        ensures { result ≡ named_in self.now name.now }
    {
        let maps = self.maps.len();
        if maps == 0 {
            return None;
        }
        self.maps[map_of(name, maps)].get(name).copied()
    }

    /// Gives a declaration its name. The condition: the table is for names.
    pub(crate) fn insert(&mut self, name: String, number: usize) -> Result<(), AllocError>
        requires { 0 < length self.now.maps.items }
        ensures { IfOk result (λ _. (0 < length self.new.maps.items)
            × ((other : List ℕ) → named_in self.new other ≡ cond (bytes_eq (string_bytes name) other) (Some number) (named_in self.old other))) }
    {
        let at = map_of(name.as_str(), self.maps.len());
        self.maps[at].insert(name, number)?;
        Ok(())
    }
}
