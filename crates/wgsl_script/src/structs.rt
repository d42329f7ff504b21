//! The structures that a script defines, and the types that its words name.

ghost use Rattle.std.specs.Prelude.{◌≡◌, IfOk, IfSome};
ghost use Rattle.wgsl_rules.specs.View.{type_view};
ghost use Rattle.wgsl_script.specs.TypeWords.{IsOf, arrays_type};

use crate::attributes::{Attributes, split_attributes};
use crate::grammar::{count_of, is_name};
use crate::stop::Stop;
use crate::type_words::{Plain, array_parts, is_nested_little, plain_of};
use std::alloc::{AllocError, Global};
use std::collections::BTreeMap;
use std::sync::Arc;
use wgsl_rules::{StructMemberType, StructType, Type};
use wgsl_store::Layout;

/// The most nodes of a type: one for each type in it, those of members included.
const NODES: usize = 4096;

/// What a word for a type names: arrays, one inside the other, of a type that is none.
#[derive(Debug, Drop)]
pub(crate) struct TypeName {
    /// How many elements each has, the outermost first; `None` is a runtime-sized array's.
    arrays: Vec<Option<u32>>,
    element: Element,
}

/// A type that is no array.
#[derive(Clone, Copy, Debug, PartialEq, Eq)]
enum Element {
    Plain(Plain),
    /// The structure of this number.
    Struct(usize),
}

#[derive(Debug, Drop)]
struct Member {
    attributes: Attributes,
    name: String,
    ty: TypeName,
}

/// A structure as its line defines it. The structures in it are named and not copied, so that a
/// line costs no more than its own words.
#[derive(Debug, Drop)]
struct Declaration {
    name: String,
    members: Vec<Member>,
    nodes: usize,
    sharing: Sharing,
}

/// The layout that the cells of a structure share: there is none before its second cell, so that a structure takes
/// memory for one only beside that of a cell.
#[derive(Debug, Drop)]
enum Sharing {
    NoCell,
    OneCell,
    Layout(Arc<Layout>),
}

/// The structures defined so far, numbered from 0 in the order of their lines.
#[derive(Drop)]
pub(crate) struct Structs {
    alloc: Global,
    declared: Vec<Declaration>,
    numbers: BTreeMap<String, usize>,
}

impl Structs {
    pub(crate) fn new(alloc: Global) -> Self {
        Structs {
            alloc,
            declared: Vec::new(alloc),
            numbers: BTreeMap::new(alloc),
        }
    }

    /// Defines a structure by its name and the words of its members, as `@size(16)a:u32`.
    pub(crate) fn define(&mut self, name: &str, members: &[&str]) -> Result<(), Stop> {
        if !self.is_free(name) || members.is_empty() {
            return Err(Stop::BadLine);
        }
        let declaration = self.declaration(name, members)?;
        Ok(self.add(declaration)?)
    }

    fn add(&mut self, declaration: Declaration) -> Result<(), AllocError> {
        match self.number(&declaration.name) {
            Ok(()) => Ok(self.declared.push(declaration)?),
            Err(error) => {
                drop(declaration);
                Err(error)
            }
        }
    }

    // Gives the name the next number, for whose structure there is room then. All growths come before the first change.
    fn number(&mut self, name: &String) -> Result<(), AllocError> {
        let number = self.declared.len();
        let name = name.clone()?;
        self.declared.reserve(1)?;
        self.numbers.insert(name, number)?;
        Ok(())
    }

    /// The type of the name.
    pub(crate) fn type_of(&self, name: &TypeName) -> Result<Type, Stop> {
        let ty = type_in(self.alloc, self.declared.as_slice(), name)?;
        ty.ok_or(Stop::BadLine)
    }

    /// The layout that the cells of the type share, where the name is that of a structure with a cell. Where memory is
    /// wanting for it there is none yet.
    pub(crate) fn layout(&mut self, name: &TypeName, ty: &Type) -> Option<&Arc<Layout>> {
        let alloc = self.alloc;
        let declaration = self.declaration_of(name)?;
        if matches!(declaration.sharing, Sharing::OneCell) {
            if let Ok(Some(layout)) = shared_layout(alloc, ty) {
                declaration.sharing = Sharing::Layout(layout);
            }
        }
        match &declaration.sharing {
            Sharing::Layout(layout) => Some(layout),
            Sharing::NoCell | Sharing::OneCell => None,
        }
    }

    /// A cell of the type is made.
    pub(crate) fn has_cell(&mut self, name: &TypeName) {
        if let Some(declaration) = self.declaration_of(name) {
            if matches!(declaration.sharing, Sharing::NoCell) {
                declaration.sharing = Sharing::OneCell;
            }
        }
    }

    // The structure that the name is.
    fn declaration_of(&mut self, name: &TypeName) -> Option<&mut Declaration> {
        if !name.arrays.is_empty() {
            return None;
        }
        match name.element {
            Element::Plain(_) => None,
            Element::Struct(n) => self.declared.get_mut(n),
        }
    }

    // Whether a structure may be given the name.
    fn is_free(&self, name: &str) -> bool {
        is_name(name)
            && !matches!(name, "i32" | "u32" | "i64" | "u64")
            && !self.numbers.contains_key(name)
    }

    fn declaration(&self, name: &str, words: &[&str]) -> Result<Declaration, Stop> {
        let name = String::from_str(self.alloc, name)?;
        let mut members = Vec::new(self.alloc);
        let mut nodes = 1usize;
        for word in words {
            let member = self.member(word)?;
            nodes = nodes.saturating_add(self.nodes_of(&member.ty));
            members.push(member).map_err(AllocError::from)?;
        }
        if nodes > NODES {
            return Err(Stop::BadLine);
        }
        Ok(Declaration {
            name,
            members,
            nodes,
            sharing: Sharing::NoCell,
        })
    }

    fn member(&self, word: &str) -> Result<Member, Stop> {
        let (attributes, word) = split_attributes(word).ok_or(Stop::BadLine)?;
        let (name, ty) = word.split_once(':').ok_or(Stop::BadLine)?;
        if !is_name(name) {
            return Err(Stop::BadLine);
        }
        Ok(Member {
            attributes,
            ty: self.type_name(ty)?,
            name: String::from_str(self.alloc, name)?,
        })
    }

    /// What a word for a type names.
    pub(crate) fn type_name(&self, word: &str) -> Result<TypeName, Stop> {
        if !is_nested_little(word) {
            return Err(Stop::BadLine);
        }
        let mut arrays = Vec::new(self.alloc);
        let mut rest = word;
        while let Some((element, count)) = array_parts(rest) {
            let count = match count {
                Some(count) => Some(count_of(count).ok_or(Stop::BadLine)?),
                None => None,
            };
            arrays.push(count).map_err(AllocError::from)?;
            rest = element;
        }
        let element = self.element(rest).ok_or(Stop::BadLine)?;
        let name = TypeName { arrays, element };
        if self.nodes_of(&name) > NODES {
            return Err(Stop::BadLine);
        }
        Ok(name)
    }

    fn element(&self, word: &str) -> Option<Element> {
        match plain_of(word) {
            Some(plain) => Some(Element::Plain(plain)),
            None => self.numbers.get(word).copied().map(Element::Struct),
        }
    }

    fn nodes_of(&self, name: &TypeName) -> usize {
        let nodes = match name.element {
            Element::Plain(plain) => plain.nodes(),
            Element::Struct(n) => self
                .declared
                .get(n)
                .map_or(0, |declaration| declaration.nodes),
        };
        nodes.saturating_add(name.arrays.len())
    }
}

/// The layout of the type, to be shared; `None` where it has none.
fn shared_layout(alloc: Global, ty: &Type) -> Result<Option<Arc<Layout>>, AllocError> {
    match Layout::of(alloc, ty)? {
        Some(layout) => Ok(Some(Arc::new(alloc, layout)?)),
        None => Ok(None),
    }
}

/// Arrays of these counts, one inside the other, the outermost first, of the element.
fn arrays_of(alloc: Global, counts: &[Option<u32>], element: Type) -> Result<Type, AllocError>
    ensures { IfOk result (λ ty. type_view ty ≡ arrays_type counts.now (type_view element)) }
{
    let [count, inner @ ..] = counts else {
        return Ok(element);
    };
    let inner = arrays_of(alloc, inner, element)?;
    let count = match count {
        Some(count) => Some(*count as usize),
        None => None,
    };
    Ok(Type::Array(Box::new(alloc, inner)?, count))
}

/// The member as one of a type, whose own type is this.
fn member_type(member: &Member, ty: Type) -> Result<StructMemberType, AllocError> {
    match member.name.clone() {
        Ok(name) => Ok(StructMemberType {
            name,
            ty,
            size: member.attributes.size,
            align: member.attributes.align,
        }),
        Err(error) => {
            drop(ty);
            Err(error)
        }
    }
}

/// The type of the name among the structures that stand before it; `None` where there are fewer.
#[cycle(build)]
fn type_in(
    alloc: Global,
    earlier: &[Declaration],
    name: &TypeName,
) -> Result<Option<Type>, AllocError>
    ensures { IfOk result (λ found. IfSome found (λ ty. IsOf name.now.element name.now.arrays.items (type_view ty))) }
{
    let element = match name.element {
        Element::Plain(plain) => Some(plain.ty(alloc)?),
        Element::Struct(n) => struct_in(alloc, earlier, n)?,
    };
    let Some(element) = element else {
        return Ok(None);
    };
    Ok(Some(arrays_of(alloc, name.arrays.as_slice(), element)?))
}

#[cycle(build)]
fn struct_in(alloc: Global, earlier: &[Declaration], n: usize) -> Result<Option<Type>, AllocError> {
    let Some(declaration) = earlier.get(n) else {
        return Ok(None);
    };
    let mut members = Vec::with_capacity(alloc, declaration.members.len())?;
    for member in &declaration.members {
        let Some(ty) = type_in(alloc, &earlier[..n], &member.ty)? else {
            return Ok(None);
        };
        members.push(member_type(member, ty)?)?;
    }
    let name = declaration.name.clone()?;
    let ty = Box::new(alloc, StructType { name, members })?;
    Ok(Some(Type::Struct(ty)))
}
