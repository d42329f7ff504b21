//! Laws of layouts, of buffers and of memory (WGSL: internal layout of values; memory views). The calls do nothing.

ghost use Rattle.wgsl_store.specs.MemoryLaws.{
  AValueIsHeldByItsPaths,
  ANewCellKeepsReferences,
  AWriteKeepsReferences,
  ANewCellKeepsLayouts,
  AWriteKeepsLayouts,
  AStepDeeperIsKept,
  WhatIsReadMayBeStored,
  AWriteIsRead,
  AReadIsWrittenBack,
  ACopyOverwritesItsRange,
  TheLastWriteStands,
  WritesApartCommute,
  LoadingReadsOn,
};

pub use wgsl_layout::laws::{
    a_buffer_has_the_length, a_buffer_reads_back, a_fixed_layout_has_the_size,
    a_put_overwrites_its_range, a_read_value_has_the_bytes, buffers_tell_values_apart,
    decoding_is_reading, leaves_are_in_order, paths_and_bytes_compose, views_lead_to_ranges,
};

/// A law: a value is held by cells where each reference and each pointer at a path of it is kept there.
pub fn a_value_is_held_by_its_paths()
    ensures { AValueIsHeldByItsPaths }
{}

/// A law: after a new cell each cell still holds a value that may be stored, with references that are kept; each
/// reference that was kept is kept, and so is the reference of the new cell.
pub fn a_new_cell_keeps_references()
    ensures { ANewCellKeepsReferences }
{}

/// A law: after an accepted write each cell still holds a value that may be stored, with references that are kept,
/// and each reference that was kept is kept: its view leads to a value of its type.
pub fn a_write_keeps_references()
    ensures { AWriteKeepsReferences }
{}

/// A law: after a new cell each reference that was kept names what has the layout that it had.
pub fn a_new_cell_keeps_layouts()
    ensures { ANewCellKeepsLayouts }
{}

/// A law: after an accepted write each reference that was kept names what has the layout that it had: where its parts
/// stand in bytes stays as it was.
pub fn a_write_keeps_layouts()
    ensures { AWriteKeepsLayouts }
{}

/// A law: the reference that a further step answers is kept.
pub fn a_step_deeper_is_kept()
    ensures { AStepDeeperIsKept }
{}

/// A law: what is read may be put into a cell again.
pub fn what_is_read_may_be_stored()
    ensures { WhatIsReadMayBeStored }
{}

/// A law: after an accepted write through a reference that may be read, the value written is what is read.
pub fn a_write_is_read()
    ensures { AWriteIsRead }
{}

/// A law: what was read through a reference that may write is accepted back, and nothing changes.
pub fn a_read_is_written_back()
    ensures { AReadIsWrittenBack }
{}

/// A law: of two writes through one reference the last stands. After one that was accepted, a write is accepted
/// or refused as without it, and leaves what it would leave without it.
pub fn the_last_write_stands()
    ensures { TheLastWriteStands }
{}

/// A law: accepted writes into two cells, or at paths of one cell of which neither begins the other, may change
/// places, and neither changes what is read through the reference of the other.
pub fn writes_apart_commute()
    ensures { WritesApartCommute }
{}

/// A law: an accepted copy between parts of cells of bytes overwrites the range of the one part with the bytes that stood
/// in that of the other, and no other byte of any cell; the two may stand in one cell.
pub fn a_copy_overwrites_its_range()
    ensures { ACopyOverwritesItsRange }
{}

/// A law: loading a reference reads it, and goes on while what is read is a reference.
pub fn loading_reads_on()
    ensures { LoadingReadsOn }
{}
