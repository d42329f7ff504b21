//! Laws of values: of their texts, of transposed matrices and of parts that are replaced. The
//! functions do nothing: their contracts are the laws.

ghost use Rattle.wgsl_values.specs.Laws.{TextsTellValuesApart, TransposedExchangesRowsAndColumns, TransposedTwiceIsItself};
ghost use Rattle.wgsl_values.specs.Written.{APartReplacedIsStorable};

/// Two literals, two vectors, two matrices or two atomics have equal texts exactly if they are
/// equal.
pub fn texts_tell_values_apart()
    ensures { TextsTellValuesApart }
{}

/// A matrix of c columns and r rows transposed is a matrix of r columns and c rows, whose component
/// in row j of column i is the component in row i of column j of the matrix (WGSL: transpose).
pub fn transposed_exchanges_rows_and_columns()
    ensures { TransposedExchangesRowsAndColumns }
{}

/// A matrix transposed twice is the matrix itself (WGSL: transpose).
pub fn transposed_twice_is_itself()
    ensures { TransposedTwiceIsItself }
{}

/// A value that may be stored, with another of the part's type in the place of a part, may be stored
/// again and is of the type that it was of (WGSL: assignment statement).
pub fn a_part_replaced_is_storable()
    ensures { APartReplacedIsStorable }
{}
