//! The records of a table.

/// What a table says of a type: the records of the types inside it stand in the same table (WGSL: alignment and size;
/// structure member layout). The root is record 0, and each child stands behind its parent.
///
/// Of a type that is or ends in a runtime-sized array, `size` counts the bytes before that array.
#[repr(C)]
#[derive(Clone, Copy, Debug, PartialEq, Eq)]
pub struct Node {
    /// One of [`Node::NUMBER`], [`Node::VECTOR`], [`Node::MATRIX`], [`Node::ARRAY`] and [`Node::STRUCTURE`].
    pub sort: u32,
    /// Of a number: 1 i32, 2 u32, 3 f32, 4 f16, 5 i64, 6 u64, 7 f64, and [`Node::ATOMIC`] more of an atomic; else 0.
    pub kind: u32,
    /// Where a member begins in its structure, in bytes; else 0.
    pub offset: u32,
    /// How many bytes a value takes.
    pub size: u32,
    /// What the place of a value is a multiple of, in bytes.
    pub align: u32,
    /// How many components, columns, elements or members there are; 0 of a number and of a runtime-sized array.
    pub count: u32,
    /// From one component, column or element to the next, in bytes; else 0.
    pub stride: u32,
    /// The number of the first child's record: members have one each, one behind the other; components, columns and
    /// elements one in all; 0 of a number.
    pub child: u32,
    /// Where the runtime-sized array begins that the type is or ends in, in bytes.
    pub tail_start: u32,
    /// From one of its elements to the next, in bytes; 0 where there is no such array.
    pub tail_stride: u32,
    /// From where to where a member's name stands in a text of names, in bytes; 0, 0 where none is set.
    pub name_start: u32,
    pub name_end: u32,
}

impl Node {
    pub const NUMBER: u32 = 0;

    pub const VECTOR: u32 = 1;

    pub const MATRIX: u32 = 2;

    pub const ARRAY: u32 = 3;

    pub const STRUCTURE: u32 = 4;

    /// What the kind of an atomic has more than that of its number.
    pub const ATOMIC: u32 = 0x100;

    pub(crate) const EMPTY: Node = Node {
        sort: 0,
        kind: 0,
        offset: 0,
        size: 0,
        align: 0,
        count: 0,
        stride: 0,
        child: 0,
        tail_start: 0,
        tail_stride: 0,
        name_start: 0,
        name_end: 0,
    };
}
