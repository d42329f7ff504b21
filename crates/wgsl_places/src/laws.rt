//! Laws of places. The calls do nothing.

ghost use Rattle.wgsl_places.specs.Laws.{LoadsAreReads, StoresAreWrites, VectorLoadsAreReads, VectorStoresAreWrites};

/// A law: the number that is loaded from a range is that of the scalar or the atomic that the bytes lay out there.
pub fn loads_are_reads()
    ensures { LoadsAreReads }
{}

/// A law: a number that is stored in the range of a scalar or an atomic makes of the bytes what a write of that value
/// makes.
pub fn stores_are_writes()
    ensures { StoresAreWrites }
{}

/// A law: the numbers that are loaded from the range of a vector are the components of the vector that the bytes lay out
/// there.
pub fn vector_loads_are_reads()
    ensures { VectorLoadsAreReads }
{}

/// A law: numbers that are stored in the range of a vector make of the bytes what a write of the vector of these makes.
pub fn vector_stores_are_writes()
    ensures { VectorStoresAreWrites }
{}
