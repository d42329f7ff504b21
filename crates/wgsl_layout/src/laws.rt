//! Laws of layouts and of buffers (WGSL: internal layout of values; memory views). The calls do nothing.

ghost use Rattle.wgsl_layout.specs.Laws.{
  LeavesAreInOrder,
  AFixedLayoutHasTheSize,
  PathsAndBytesCompose,
  ViewsLeadToRanges,
  ABufferHasTheLength,
  DecodingIsReading,
  ABufferReadsBack,
  AReadValueHasTheBytes,
  BuffersTellValuesApart,
  APutOverwritesItsRange,
};
ghost use Rattle.wgsl_rules.specs.Values.{IsStorable};
ghost use Rattle.wgsl_scalar.specs.Literals.{literal_of};

use wgsl_scalar::LiteralInstance;

/// A law: each literal may be stored, as `is_storable` tests.
pub fn a_literal_may_be_stored(number: LiteralInstance)
    ensures { IsStorable (literal_of number) }
{
    let _ = number.literal_ty();
}

/// A law: the scalars of a layout do not overlap, and lie inside its length.
pub fn leaves_are_in_order()
    ensures { LeavesAreInOrder }
{}

/// A law: a layout whose length the type alone tells has the size of the type.
pub fn a_fixed_layout_has_the_size()
    ensures { AFixedLayoutHasTheSize }
{}

/// A law: each part of a value has a layout, and the bytes of its range in the buffer of the whole are its own
/// buffer; the range begins at a multiple of the alignment of the part's type, counted from the start of that
/// buffer. So it is too where the whole ends in a runtime-sized array.
pub fn paths_and_bytes_compose()
    ensures { PathsAndBytesCompose }
{}

/// A law: a view that leads to a part of a value leads to the range of that part in the layout of its type.
pub fn views_lead_to_ranges()
    ensures { ViewsLeadToRanges }
{}

/// A law: a buffer has the length of the layout of its value.
pub fn a_buffer_has_the_length()
    ensures { ABufferHasTheLength }
{}

/// A law: decoding bytes gives the one value of the type that they lay out, and none where they lay out
/// none.
pub fn decoding_is_reading()
    ensures { DecodingIsReading }
{}

/// A law: the buffer of a value reads back as that value; with any bytes after it where the layout is fixed,
/// else with fewer than one more element takes.
pub fn a_buffer_reads_back()
    ensures { ABufferReadsBack }
{}

/// A law: the buffer of a value that was read is the bytes that it was read from, with zeros for padding.
pub fn a_read_value_has_the_bytes()
    ensures { AReadValueHasTheBytes }
{}

/// A law: two values of one type with equal buffers are equal.
pub fn buffers_tell_values_apart()
    ensures { BuffersTellValuesApart }
{}

/// A law: a value that is put into the place of a part overwrites the range of bytes that held the part, and no
/// other byte.
pub fn a_put_overwrites_its_range()
    ensures { APutOverwritesItsRange }
{}
