//! Sizes, alignments and places (WGSL: alignment and size). A type that has no layout is laid out too, in a way of its
//! own, so that each of its numbers has bytes.

use crate::tests::plain_memory::shapes::{Entry, Kind, Member, Shape, Shapes, Sort};

/// Whether a host finds a value of the type in bytes.
#[derive(Clone, Copy, PartialEq, Eq)]
pub(super) enum Layout {
    /// It does, and each value takes as many.
    Fixed,
    /// It does, and they are as many as a runtime-sized array at the end has.
    Open,
    Missing,
}

/// What the bytes of a type are.
#[derive(Clone, Copy)]
pub(super) struct Laid {
    /// How many there are, without those of the elements of a runtime-sized array, which stand behind them.
    pub size: usize,
    /// Whether there is such an array.
    pub is_open: bool,
    /// How many bytes each of its elements takes.
    pub stride: usize,
    pub align: usize,
    pub layout: Layout,
}

/// The least multiple of the alignment that is at least the number.
fn round_up(align: usize, number: usize) -> usize {
    match number.checked_rem(align) {
        None | Some(0) => number,
        Some(rest) => number.wrapping_add(align.wrapping_sub(rest)),
    }
}

/// How far the parts of a row lie apart.
pub(super) fn row_distance(sort: Sort, part: Laid) -> usize {
    match sort {
        Sort::Vector => part.size,
        Sort::Matrix => part.align,
        Sort::Array | Sort::Open => round_up(part.align, part.size),
    }
}

impl Laid {
    /// The structure without members.
    pub(super) fn nothing() -> Laid {
        Laid {
            size: 0,
            is_open: false,
            stride: 0,
            align: 0,
            layout: Layout::Missing,
        }
    }

    pub(super) fn number(kind: Kind) -> Laid {
        let (size, layout) = match kind {
            Kind::Bool => (4, Layout::Missing),
            Kind::Abstract => (8, Layout::Missing),
            Kind::I32 | Kind::U32 => (4, Layout::Fixed),
            Kind::I64 | Kind::U64 => (8, Layout::Fixed),
        };
        Laid {
            size,
            is_open: false,
            stride: 0,
            align: size,
            layout,
        }
    }

    pub(super) fn atomic() -> Laid {
        Laid {
            size: 4,
            is_open: false,
            stride: 0,
            align: 4,
            layout: Layout::Fixed,
        }
    }

    /// A cell with a reference has the number of a handle.
    pub(super) fn reference() -> Laid {
        Laid {
            size: 8,
            ..Laid::nothing()
        }
    }

    /// So many of the part, one after the other.
    pub(super) fn row(sort: Sort, count: usize, part: Entry) -> Laid {
        let distance = row_distance(sort, part.laid);
        let is_laid_out = part.laid.layout == Layout::Fixed;
        let fixed = Laid {
            size: count.wrapping_mul(distance),
            is_open: false,
            stride: 0,
            align: part.laid.align,
            layout: if is_laid_out {
                Layout::Fixed
            } else {
                Layout::Missing
            },
        };
        match sort {
            Sort::Vector => Laid {
                align: vector_align(count, part.laid.size),
                ..fixed
            },
            Sort::Matrix | Sort::Array => fixed,
            Sort::Open => Laid {
                size: 0,
                is_open: true,
                stride: distance,
                layout: if is_laid_out {
                    Layout::Open
                } else {
                    Layout::Missing
                },
                ..fixed
            },
        }
    }

    /// How many bytes a value takes, whose runtime-sized array has so many elements.
    pub(super) fn len(self, elements: usize) -> usize {
        self.size.wrapping_add(self.stride.wrapping_mul(elements))
    }
}

/// The alignment of a vector with components of so many bytes: that of one with three is that of one with four.
fn vector_align(count: usize, size: usize) -> usize {
    let components = if count == 3 { 4 } else { count };
    size.wrapping_mul(components)
}

/// The alignment of the member.
fn member_align(member: Member, laid: Laid) -> usize {
    match member.align {
        Some(align) => align as usize,
        None => laid.align,
    }
}

/// How many bytes the member takes, without those of a runtime-sized array.
fn member_size(member: Member, laid: Laid) -> usize {
    match member.size {
        Some(size) => laid.size.max(size as usize),
        None => laid.size,
    }
}

/// Whether a member whose type is laid out so may have its attributes.
fn is_valid(member: Member, laid: Laid) -> bool {
    let is_aligned = match member.align {
        Some(align) => {
            align.is_power_of_two() && (align as usize).checked_rem(laid.align) == Some(0)
        }
        None => true,
    };
    let is_sized = match member.size {
        Some(size) => !laid.is_open && size as usize >= laid.size,
        None => true,
    };
    is_aligned && is_sized
}

impl Shapes {
    /// Gives each member its place, and answers what the bytes of the structure are. What is or ends in a runtime-sized
    /// array is placed behind all others.
    pub(super) fn place(&self, members: &mut [Member]) -> Laid {
        let mut laid = Laid {
            layout: self.layout_of(members),
            ..Laid::nothing()
        };
        for is_open in [false, true] {
            for member in members.iter_mut() {
                let own = self.laid(member.shape);
                if own.is_open == is_open {
                    let align = member_align(*member, own);
                    member.offset = round_up(align, laid.size);
                    laid.size = member.offset.wrapping_add(member_size(*member, own));
                    laid.align = laid.align.max(align);
                    laid.is_open = is_open;
                    laid.stride = own.stride.max(laid.stride);
                }
            }
        }
        if !laid.is_open {
            laid.size = round_up(laid.align, laid.size);
        }
        laid
    }

    /// Whether a host finds a structure with the members in bytes.
    fn layout_of(&self, members: &[Member]) -> Layout {
        let Some((last, others)) = members.split_last() else {
            return Layout::Missing;
        };
        let mut are_fixed = true;
        for member in others {
            are_fixed &= self.is_in(*member, Layout::Fixed);
        }
        let is_array = matches!(self.shape(last.shape), Shape::Row(Sort::Open, _, _));
        if are_fixed && self.is_in(*last, Layout::Fixed) {
            Layout::Fixed
        } else if are_fixed && is_array && self.is_in(*last, Layout::Open) {
            Layout::Open
        } else {
            Layout::Missing
        }
    }

    /// Whether the type of the member has this layout, and its attributes are allowed.
    fn is_in(&self, member: Member, layout: Layout) -> bool {
        let laid = self.laid(member.shape);
        laid.layout == layout && is_valid(member, laid)
    }
}
