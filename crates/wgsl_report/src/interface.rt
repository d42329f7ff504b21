//! What a module asks of its host, and gives it (WGSL: resource interface; override declarations; entry points).

use crate::numbers::HostNumbers;
use crate::type_words::type_words;
use std::alloc::{AllocError, Global};
use wgsl_eval::{Item, ItemKind};
use wgsl_interface::{reached, workgroup_memory};
use wgsl_rules::{AddressSpace, Type};
use wgsl_source::{Declared, DeclaredEntry, DeclaredVariable, EntryStage, Reading};

// The word for workgroup memory.
const WORKGROUP: &str = "workgroup";

// The word for what comes with the commands of a host.
const IMMEDIATE: &str = "immediate";

/// All of it, each in the order of the source.
#[derive(Drop)]
pub(crate) struct Interface<'a> {
    pub(crate) bindings: Vec<Binding<'a>>,
    /// What lies in workgroup or private memory, or comes with the commands of a host.
    pub(crate) memory: Vec<Memory<'a>>,
    pub(crate) overrides: Vec<Overridable<'a>>,
    pub(crate) entries: Vec<EntryPoint<'a>>,
    /// Where each declaration stands in these lists.
    listed: Vec<Listed>,
}

/// A place in one of the lists.
#[derive(Clone, Copy)]
enum Listed {
    Binding(usize),
    Memory(usize),
    Override(usize),
    Nowhere,
}

/// A variable that a host binds something to.
#[derive(Drop)]
pub(crate) struct Binding<'a> {
    pub(crate) number: usize,
    pub(crate) item: &'a Item,
    pub(crate) kind: &'static str,
    /// The type, in the words of the source where it has no values.
    pub(crate) words: String,
    pub(crate) group: Option<u32>,
    pub(crate) binding: Option<u32>,
    /// How many are bound, of an array of bindings.
    pub(crate) count: Option<u32>,
}

/// A variable in memory that a host does not bind.
#[derive(Drop)]
pub(crate) struct Memory<'a> {
    pub(crate) number: usize,
    pub(crate) item: &'a Item,
    pub(crate) space: &'static str,
    /// The type in the words of the source.
    pub(crate) words: String,
    /// The type, where it is known.
    pub(crate) ty: Option<&'a Type>,
}

/// An override, with its value where the host gives none.
#[derive(Drop)]
pub(crate) struct Overridable<'a> {
    pub(crate) number: usize,
    pub(crate) item: &'a Item,
    pub(crate) id: Option<u32>,
    /// The type in the words of the source; empty where none is given.
    pub(crate) words: String,
    /// Whether the source gives a value.
    pub(crate) has_value: bool,
}

/// An entry point, and what it reaches through the functions that it calls: numbers of declarations.
#[derive(Drop)]
pub(crate) struct EntryPoint<'a> {
    pub(crate) item: &'a Item,
    pub(crate) stage: EntryStage,
    /// In `x`, `y` and `z`, where they are known.
    pub(crate) workgroup_size: [Option<u32>; 3],
    pub(crate) reached: Vec<usize>,
    /// The bytes of workgroup memory that count for the limit of a device, where all sizes are known.
    pub(crate) workgroup_memory: Option<u64>,
}

impl<'a> Interface<'a> {
    pub(crate) fn new(
        alloc: Global,
        reading: &Reading<'_>,
        items: &'a [Item],
        numbers: &[HostNumbers],
    ) -> Result<Interface<'a>, AllocError> {
        let listed = vec![in alloc; Listed::Nowhere; items.len()]?;
        let mut interface = Interface {
            bindings: Vec::new(alloc),
            memory: Vec::new(alloc),
            overrides: Vec::new(alloc),
            entries: Vec::new(alloc),
            listed,
        };
        match interface.add_all(alloc, reading, items, numbers) {
            Ok(()) => Ok(interface),
            Err(error) => {
                drop(interface);
                Err(error)
            }
        }
    }
}

impl<'a> Interface<'a> {
    fn add_all(
        &mut self,
        alloc: Global,
        reading: &Reading<'_>,
        items: &'a [Item],
        numbers: &[HostNumbers],
    ) -> Result<(), AllocError> {
        for (number, item) in items.iter().enumerate() {
            let Some(of) = numbers.get(number) else {
                continue;
            };
            match reading.declared(number) {
                Some(Declared::Variable(variable)) => {
                    self.add_variable(alloc, reading, (number, item), variable, *of)?;
                }
                Some(Declared::Override { value, .. }) => {
                    self.add_override(alloc, reading, (number, item), value.is_some(), of.id)?;
                }
                _ => {}
            }
        }
        self.add_entries(alloc, reading, items, numbers)
    }

    fn add_override(
        &mut self,
        alloc: Global,
        reading: &Reading<'_>,
        (number, item): (usize, &'a Item),
        has_value: bool,
        id: Option<u32>,
    ) -> Result<(), AllocError> {
        let place = self.overrides.len();
        self.list(number, Listed::Override(place));
        let words = type_words(alloc, reading, number)?;
        self.overrides.push(Overridable {
            number,
            item,
            id,
            words,
            has_value,
        })?;
        Ok(())
    }

    fn add_variable(
        &mut self,
        alloc: Global,
        reading: &Reading<'_>,
        (number, item): (usize, &'a Item),
        variable: DeclaredVariable,
        of: HostNumbers,
    ) -> Result<(), AllocError> {
        let words = match type_in(item) {
            Some(ty) => format!(in alloc; "{ty}")?,
            None => type_words(alloc, reading, number)?,
        };
        if let Some(space) = memory_word(variable) {
            let place = self.memory.len();
            self.list(number, Listed::Memory(place));
            self.memory.push(Memory {
                number,
                item,
                space,
                words,
                ty: type_in(item),
            })?;
            return Ok(());
        }
        let kind = match variable.space {
            Some(AddressSpace::Uniform) => "uniform",
            Some(AddressSpace::Storage) => "storage",
            _ => kind_of(words.as_str()),
        };
        let place = self.bindings.len();
        self.list(number, Listed::Binding(place));
        self.bindings.push(Binding {
            number,
            item,
            kind,
            words,
            group: of.group,
            binding: of.binding,
            count: of.count,
        })?;
        Ok(())
    }

    fn add_entries(
        &mut self,
        alloc: Global,
        reading: &Reading<'_>,
        items: &'a [Item],
        numbers: &[HostNumbers],
    ) -> Result<(), AllocError> {
        if (0..reading.len()).all(|number| reading.entry(number).is_none()) {
            return Ok(());
        }
        let uses = reading.uses(alloc)?;
        for (number, item) in items.iter().enumerate() {
            let (Some(entry), Some(of)) = (reading.entry(number), numbers.get(number)) else {
                continue;
            };
            let reached = reached(alloc, uses.as_slice(), number)?;
            let workgroup_memory = self.workgroup_memory(alloc, reached.as_slice())?;
            self.entries.push(EntryPoint {
                item,
                stage: entry.stage,
                workgroup_size: sizes_of(entry, *of),
                reached,
                workgroup_memory,
            })?;
        }
        Ok(())
    }

    // That of the variables which are reached, where all sizes are known.
    fn workgroup_memory(
        &self,
        alloc: Global,
        reached: &[usize],
    ) -> Result<Option<u64>, AllocError> {
        let mut sizes = Vec::new(alloc);
        for number in reached {
            let Some(memory) = self.memory_at(*number) else {
                continue;
            };
            if memory.space != WORKGROUP {
                continue;
            }
            match memory.size() {
                Some(size) => sizes.push(size)?,
                None => return Ok(None),
            }
        }
        Ok(workgroup_memory(sizes.as_slice()))
    }
}

impl<'a> Interface<'a> {
    fn list(&mut self, number: usize, listed: Listed) {
        if let Some(place) = self.listed.get_mut(number) {
            *place = listed;
        }
    }

    /// The binding that a declaration is.
    pub(crate) fn binding_at(&self, number: usize) -> Option<&Binding<'a>> {
        match self.listed.get(number) {
            Some(Listed::Binding(place)) => self.bindings.get(*place),
            _ => None,
        }
    }

    /// The override that a declaration is.
    pub(crate) fn override_at(&self, number: usize) -> Option<&Overridable<'a>> {
        match self.listed.get(number) {
            Some(Listed::Override(place)) => self.overrides.get(*place),
            _ => None,
        }
    }

    fn memory_at(&self, number: usize) -> Option<&Memory<'a>> {
        match self.listed.get(number) {
            Some(Listed::Memory(place)) => self.memory.get(*place),
            _ => None,
        }
    }
}

impl Binding<'_> {
    /// Whether it is a buffer, whose layout has a table.
    pub(crate) fn is_buffer(&self) -> bool {
        matches!(self.kind, "uniform" | "storage")
    }
}

impl Memory<'_> {
    /// Whether it has a table: what comes with the commands of a host, where its type is known.
    pub(crate) fn is_laid_out(&self) -> bool {
        self.space == IMMEDIATE && self.ty.is_some()
    }

    /// In bytes, where it is known.
    pub(crate) fn size(&self) -> Option<u32> {
        self.ty?.size_of()
    }
}

impl EntryPoint<'_> {
    pub(crate) fn is_compute(&self) -> bool {
        self.stage == EntryStage::Compute
    }

    /// The sizes of its workgroup, with commas between; this stands for one that is not known.
    pub(crate) fn add_sizes(&self, text: &mut String, unknown: &str) -> Result<(), AllocError> {
        for (i, size) in self.workgroup_size.iter().enumerate() {
            text.push_str(if i == 0 { "" } else { ", " })?;
            match size {
                Some(size) => write!(text, "{size}")?,
                None => text.push_str(unknown)?,
            }
        }
        Ok(())
    }

    /// The word of its attribute.
    pub(crate) fn stage_word(&self) -> &'static str {
        match self.stage {
            EntryStage::Vertex => "vertex",
            EntryStage::Fragment => "fragment",
            EntryStage::Compute => "compute",
        }
    }
}

// Where the second and the third are not given, they are 1 (WGSL: workgroup_size).
fn sizes_of(entry: DeclaredEntry, of: HostNumbers) -> [Option<u32>; 3] {
    let [x, mut y, mut z] = of.workgroup_size;
    let [first, second, third] = entry.workgroup_size;
    if first.is_some() {
        if second.is_none() {
            y = Some(1);
        }
        if third.is_none() {
            z = Some(1);
        }
    }
    [x, y, z]
}

// The space of memory that a host does not bind.
fn memory_word(variable: DeclaredVariable) -> Option<&'static str> {
    if variable.is_immediate {
        return Some(IMMEDIATE);
    }
    match variable.space {
        Some(AddressSpace::Workgroup) => Some(WORKGROUP),
        Some(AddressSpace::Private) => Some("private"),
        _ => None,
    }
}

fn type_in(item: &Item) -> Option<&Type> {
    match &item.kind {
        ItemKind::Variable(variable) => Some(&variable.ty),
        _ => None,
    }
}

// What is bound to a variable of this type, which lies in no memory (WGSL: texture and sampler types).
fn kind_of(words: &str) -> &'static str {
    const KINDS: [(&str, &str); 7] = [
        ("binding_array", "binding_array"),
        ("acceleration_structure", "acceleration_structure"),
        ("texture_storage", "storage_texture"),
        ("texture_external", "external_texture"),
        ("texture_", "texture"),
        ("sampler_comparison", "comparison_sampler"),
        ("sampler", "sampler"),
    ];
    match KINDS.iter().find(|(front, _)| words.starts_with(front)) {
        Some((_, kind)) => kind,
        None => "other",
    }
}
