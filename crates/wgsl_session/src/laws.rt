//! Laws of lists of calls, over a memory of values and over a memory of bytes (WGSL: memory; memory views). The
//! calls do nothing.

ghost use Rattle.wgsl_session.specs.Laws.{
  AReferenceNamesOneValue,
  DecodingFindsWhatIsHeld,
  ValuesAndBytesAreInStep,
  RunsAreInStep,
};

/// A law: in a memory of bytes a reference names one value at most.
pub fn a_reference_names_one_value()
    ensures { AReferenceNamesOneValue }
{}

/// A law: in a memory of bytes a reference holds what decoding the bytes of its range gives; it holds nothing
/// where that gives no value of its type.
pub fn decoding_finds_what_is_held()
    ensures { DecodingFindsWhatIsHeld }
{}

/// A law: each step of the memory of values is a step of the memory of bytes that it stands for. There a cell
/// whose type has a layout is a string of bytes, what is read is the value that the bytes of a range lay out, and
/// a write changes the bytes of a range.
pub fn values_and_bytes_are_in_step()
    ensures { ValuesAndBytesAreInStep }
{}

/// A law: over every list of calls the memory of values and the memory of bytes stay in step. After it each cell
/// holds a value that may be stored, and each reference, in a cell or of a handle, names a value of its type. Want
/// of memory may take the place of any answer, and then that call changes nothing.
pub fn runs_are_in_step()
    ensures { RunsAreInStep }
{}
