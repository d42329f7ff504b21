//! A reading of lines of the tests' own, which calls no function of the program: what a line asks for is a call on
//! a session.

use std::alloc::Global;
use std::fmt::Write;
use std::process::Abort;
use wgsl_rules::{AccessMode, AddressSpace, StructMemberType, StructType, Type};
use wgsl_session::{Call, Fault, Reply, Session};
use wgsl_store::Buffers;
use wgsl_values::{Instance, RefInstance};

/// The most `<` in a word for a type.
const NESTED: usize = 16;

/// The most types in a type, itself too.
const NODES: usize = 4096;

/// A type that is no array: its word, and how many types are in it.
#[derive(Drop)]
struct Named {
    word: String,
    ty: Type,
    nodes: usize,
}

/// What a word for a type has: the counts of its arrays, the outermost first, and the number of what they are of.
#[derive(Drop)]
struct Parts {
    counts: Vec<Option<usize>>,
    named: usize,
}

/// What the word of a member has.
#[derive(Clone, Copy)]
struct Member<'a> {
    size: Option<u32>,
    align: Option<u32>,
    name: &'a str,
    ty: &'a str,
}

/// Reads lines, and makes their calls on a session.
#[derive(Drop)]
pub(super) struct Reader {
    alloc: Global,
    session: Session,
    handles: usize,
    named: Vec<Named>,
}

pub(super) fn text(rt: &impl Abort, alloc: Global, text: &str) -> String {
    String::from_str(alloc, text).expect(rt, "memory")
}

fn boxed(rt: &impl Abort, alloc: Global, ty: &Type) -> Box<Type> {
    let copy = ty.clone(alloc).expect(rt, "memory");
    Box::new(alloc, copy).expect(rt, "memory")
}

fn number(word: &str) -> Option<usize> {
    if word.is_empty() || word.len() > 10 || !word.bytes().all(|byte| byte.is_ascii_digit()) {
        return None;
    }
    let mut n = 0usize;
    for byte in word.bytes() {
        let digit = usize::from(byte.wrapping_sub(b'0'));
        n = n.wrapping_mul(10).wrapping_add(digit);
    }
    Some(n)
}

/// A number that 32 bits hold.
fn count(word: &str) -> Option<u32> {
    u32::try_from(number(word)?).ok()
}

fn handle(word: &str) -> Option<usize> {
    number(word.strip_prefix('&')?)
}

fn is_name(word: &str) -> bool {
    let mut digits = false;
    for byte in word.bytes() {
        let is_letter = byte == b'_' || byte.is_ascii_alphabetic();
        if !is_letter && !(digits && byte.is_ascii_digit()) {
            return false;
        }
        digits = true;
    }
    digits
}

/// The number of a hexadecimal digit.
fn digit(byte: u8) -> Option<u8> {
    let byte = byte.to_ascii_lowercase();
    let digits = b"0123456789abcdef";
    let place = digits.iter().position(|digit| *digit == byte)?;
    u8::try_from(place).ok()
}

fn bytes(rt: &impl Abort, alloc: Global, word: &str) -> Option<Vec<u8>> {
    let mut bytes = Vec::new(alloc);
    for pair in word.as_bytes().chunks(2) {
        let [high, low] = pair else {
            return None;
        };
        let high = digit(*high)?.wrapping_mul(16);
        let byte = high.wrapping_add(digit(*low)?);
        bytes.push(byte).expect(rt, "memory");
    }
    Some(bytes)
}

fn space(word: &str) -> Option<AddressSpace> {
    match word {
        "function" => Some(AddressSpace::Function),
        "private" => Some(AddressSpace::Private),
        "workgroup" => Some(AddressSpace::Workgroup),
        "uniform" => Some(AddressSpace::Uniform),
        "storage" => Some(AddressSpace::Storage),
        "handle" => Some(AddressSpace::Handle),
        _ => None,
    }
}

fn access(word: &str) -> Option<AccessMode> {
    match word {
        "read" => Some(AccessMode::Read),
        "write" => Some(AccessMode::Write),
        "read_write" => Some(AccessMode::ReadWrite),
        _ => None,
    }
}

/// Of the word of an array, the word of its elements and that of its count.
fn array(word: &str) -> Option<(&str, Option<&str>)> {
    let inner = word.strip_prefix("array<")?.strip_suffix('>')?;
    match inner.rsplit_once(',') {
        Some((element, count)) if !count.contains('>') => Some((element, Some(count))),
        _ => Some((inner, None)),
    }
}

fn member_of(word: &str) -> Option<Member<'_>> {
    let (mut size, mut align) = (None, None);
    let mut rest = word;
    for _ in 0..2 {
        let Some(attribute) = rest.strip_prefix('@') else {
            break;
        };
        let (attribute, behind) = attribute.split_once(')')?;
        let (name, n) = attribute.split_once('(')?;
        let n = count(n)?;
        match name {
            "size" if size.is_none() => size = Some(n),
            "align" if align.is_none() => align = Some(n),
            _ => return None,
        }
        rest = behind;
    }
    let (name, ty) = rest.split_once(':')?;
    is_name(name).then_some(Member {
        size,
        align,
        name,
        ty,
    })
}

/// The name of the refusal.
fn refusal(fault: &Fault) -> &'static str {
    let Fault::Of(error) = fault else {
        return "NoHandle";
    };
    match error.number() {
        1 => "Memory",
        2 => "NotRead",
        3 => "NotWrite",
        7 => "WriteRefType",
        8 => "Component",
        9 => "NotIndexable",
        10 => "OutOfBounds",
        _ => "another case",
    }
}

/// What is printed for an answer.
fn answer_text(rt: &impl Abort, alloc: Global, answer: Result<Reply, Fault>) -> String {
    let text = match &answer {
        Ok(Reply::Handle(handle)) => format!(in alloc; "&{handle}"),
        Ok(Reply::Value(value)) => value.to_string(alloc),
        Ok(Reply::Done) => String::from_str(alloc, "done"),
        Err(fault) => {
            let name = refusal(fault);
            format!(in alloc; "refused {name}")
        }
    };
    drop(answer);
    text.expect(rt, "memory")
}

/// The digits of the bytes of the value.
fn digits(rt: &impl Abort, alloc: Global, value: &Instance) -> String {
    assert!(rt; value.is_well_formed());
    let bytes = value.to_buffer(alloc).expect(rt, "memory");
    let mut text = String::new(alloc);
    for byte in bytes.expect(rt, "bytes") {
        write!(text, "{byte:02x}").expect(rt, "memory");
    }
    text
}

/// The least size of a value of the type.
fn least_size(ty: &Type) -> Option<u32> {
    ty.size_of().or(ty.min_size_of())
}

impl Reader {
    /// A session without cells, and each type that is no array and no structure.
    pub(super) fn new(rt: &impl Abort, alloc: Global) -> Self {
        let mut reader = Reader {
            alloc,
            session: Session::new(alloc),
            handles: 0,
            named: Vec::new(alloc),
        };
        reader.add_scalar(rt, "i32", Type::I32);
        reader.add_scalar(rt, "u32", Type::U32);
        reader.add_scalar(rt, "i64", Type::I64);
        reader.add_scalar(rt, "u64", Type::U64);
        reader.add_atomic(rt, "atomic<i32>", Type::I32);
        reader.add_atomic(rt, "atomic<u32>", Type::U32);
        reader
    }

    fn add(&mut self, rt: &impl Abort, word: String, ty: Type, nodes: usize) {
        let named = Named { word, ty, nodes };
        self.named.push(named).expect(rt, "memory");
    }

    fn add_atomic(&mut self, rt: &impl Abort, word: &str, scalar: Type) {
        let inner = Box::new(self.alloc, scalar).expect(rt, "memory");
        let word = text(rt, self.alloc, word);
        self.add(rt, word, Type::Atomic(inner), 2);
    }

    fn add_scalar(&mut self, rt: &impl Abort, word: &str, scalar: Type) {
        let alloc = self.alloc;
        for n in 2u8..5 {
            let vector = format!(in alloc; "vec{n}<{word}>").expect(rt, "memory");
            self.add(rt, vector, Type::Vec(n, boxed(rt, alloc, &scalar)), 2);
            for rows in 2u8..5 {
                let matrix = format!(in alloc; "mat{n}x{rows}<{word}>").expect(rt, "memory");
                let ty = Type::Mat(n, rows, boxed(rt, alloc, &scalar));
                self.add(rt, matrix, ty, 2);
            }
        }
        self.add(rt, text(rt, alloc, word), scalar, 1);
    }

    /// How many handles there are.
    pub(super) fn handles(&self) -> usize {
        self.handles
    }

    /// Whether each word of a type that is no array stands in the text.
    pub(super) fn are_in(&self, text: &str) -> bool {
        self.named
            .iter()
            .all(|named| text.contains(named.word.as_str()))
    }

    /// The least size of what the handle names.
    pub(super) fn size_at(&self, handle: usize) -> Option<u32> {
        least_size(self.session.reference(handle)?.target_ty())
    }

    /// The least size of a value of the type that the word names.
    pub(super) fn size_of(&self, rt: &impl Abort, word: &str) -> Option<u32> {
        let ty = self.ty(rt, word)?;
        let size = least_size(&ty);
        drop(ty);
        size
    }

    fn parts(&self, rt: &impl Abort, word: &str) -> Option<Parts> {
        if word.bytes().filter(|byte| *byte == b'<').count() > NESTED {
            return None;
        }
        let mut counts = Vec::new(self.alloc);
        let mut rest = word;
        for _ in 0..NESTED {
            let Some((element, elements)) = array(rest) else {
                break;
            };
            let elements = match elements {
                Some(word) => Some(count(word)? as usize),
                None => None,
            };
            counts.push(elements).expect(rt, "memory");
            rest = element;
        }
        let named = self
            .named
            .iter()
            .position(|named| named.word.as_str() == rest)?;
        Some(Parts { counts, named })
    }

    fn nodes(&self, rt: &impl Abort, word: &str) -> Option<usize> {
        let parts = self.parts(rt, word)?;
        let nodes = self.named.get(parts.named)?.nodes;
        let nodes = nodes.saturating_add(parts.counts.len());
        (nodes <= NODES).then_some(nodes)
    }

    /// The type that the word names.
    fn ty(&self, rt: &impl Abort, word: &str) -> Option<Type> {
        let _nodes = self.nodes(rt, word)?;
        let parts = self.parts(rt, word)?;
        let named = self.named.get(parts.named)?;
        let mut ty = named.ty.clone(self.alloc).expect(rt, "memory");
        for count in parts.counts.iter().rev() {
            let element = Box::new(self.alloc, ty).expect(rt, "memory");
            ty = Type::Array(element, *count);
        }
        Some(ty)
    }

    fn member_type(&self, rt: &impl Abort, word: &str) -> StructMemberType {
        let member = member_of(word).expect(rt, "a member");
        StructMemberType {
            name: text(rt, self.alloc, member.name),
            ty: self.ty(rt, member.ty).expect(rt, "a type"),
            size: member.size,
            align: member.align,
        }
    }

    /// How many types are in the structure with these members.
    fn struct_nodes(&self, rt: &impl Abort, words: &[&str]) -> Option<usize> {
        let mut nodes = 1usize;
        for word in words {
            let member = member_of(word)?;
            nodes = nodes.saturating_add(self.nodes(rt, member.ty)?);
        }
        (nodes > 1 && nodes <= NODES).then_some(nodes)
    }

    fn define(&mut self, rt: &impl Abort, name: &str, words: &[&str]) -> Option<String> {
        let nodes = self.struct_nodes(rt, words)?;
        let is_taken = self.named.iter().any(|named| named.word.as_str() == name);
        if is_taken || !is_name(name) {
            return None;
        }
        let mut members = Vec::new(self.alloc);
        for word in words {
            let member = self.member_type(rt, word);
            members.push(member).expect(rt, "memory");
        }
        let word = text(rt, self.alloc, name);
        let name = text(rt, self.alloc, name);
        let ty = Box::new(self.alloc, StructType { name, members }).expect(rt, "memory");
        self.add(rt, word, Type::Struct(ty), nodes);
        Some(text(rt, self.alloc, "done"))
    }

    fn call(&mut self, rt: &impl Abort, call: Call) -> Result<Reply, Fault> {
        assert!(rt; call.is_sound());
        let answer = self.session.call(call);
        if let Ok(Reply::Handle(handle)) = &answer {
            self.handles = handle.wrapping_add(1);
        }
        answer
    }

    fn answer_of(&mut self, rt: &impl Abort, call: Call) -> Option<String> {
        let answer = self.call(rt, call);
        Some(answer_text(rt, self.alloc, answer))
    }

    fn make(&mut self, rt: &impl Abort, words: [&str; 4]) -> Option<String> {
        let [word, in_space, with_access, digits] = words;
        let space = space(in_space)?;
        let access = access(with_access)?;
        let bytes = bytes(rt, self.alloc, digits)?;
        let ty = self.ty(rt, word)?;
        let value = Instance::from_buffer(self.alloc, &bytes, &ty).expect(rt, "memory");
        drop(ty);
        match value {
            Some(value) => self.answer_of(rt, Call::New(value, space, access)),
            None => Some(text(rt, self.alloc, "refused NoValue")),
        }
    }

    fn write(&mut self, rt: &impl Abort, to: usize, digits: &str) -> Option<String> {
        let bytes = bytes(rt, self.alloc, digits)?;
        let Some(target) = self.session.reference(to).map(RefInstance::target_ty) else {
            return Some(text(rt, self.alloc, "refused NoHandle"));
        };
        let value = Instance::from_buffer(self.alloc, &bytes, target).expect(rt, "memory");
        match value {
            Some(value) => self.answer_of(rt, Call::Write(to, value)),
            None => Some(text(rt, self.alloc, "refused NoValue")),
        }
    }

    fn dump(&mut self, rt: &impl Abort, from: usize) -> Option<String> {
        let answer = self.call(rt, Call::Read(from));
        let Ok(Reply::Value(value)) = &answer else {
            return Some(answer_text(rt, self.alloc, answer));
        };
        let digits = digits(rt, self.alloc, value);
        drop(answer);
        Some(digits)
    }

    fn step(&mut self, rt: &impl Abort, from: usize, name: &str) -> Option<String> {
        if !is_name(name) {
            return None;
        }
        let name = text(rt, self.alloc, name);
        self.answer_of(rt, Call::Member(from, name))
    }

    /// What the words print; none for words that are no line of a script.
    fn answer(&mut self, rt: &impl Abort, words: &[&str]) -> Option<String> {
        match words {
            ["struct", name, members @ ..] => self.define(rt, name, members),
            ["new", ty, space, access, digits] => self.make(rt, [ty, space, access, digits]),
            ["member", from, name] => self.step(rt, handle(from)?, name),
            ["index", from, i] => self.answer_of(rt, Call::Index(handle(from)?, number(i)?)),
            ["read", from] => self.answer_of(rt, Call::Read(handle(from)?)),
            ["write", to, digits] => self.write(rt, handle(to)?, digits),
            ["copy", from, to] => self.answer_of(rt, Call::Copy(handle(from)?, handle(to)?)),
            ["dump", from] => self.dump(rt, handle(from)?),
            _ => None,
        }
    }

    /// What the line prints; none where it has no word.
    pub(super) fn print(&mut self, rt: &impl Abort, line: &str) -> Option<String> {
        let line = line.strip_suffix('\r').unwrap_or(line);
        let words = line.split(' ').filter(|word| !word.is_empty());
        let words: Vec<&str> = words.collect(self.alloc).expect(rt, "memory");
        if words.is_empty() {
            return None;
        }
        match self.answer(rt, words.as_slice()) {
            Some(answer) => Some(answer),
            None => Some(text(rt, self.alloc, "refused BadLine")),
        }
    }
}
