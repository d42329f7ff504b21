//! Laws of the builtin functions. The calls do nothing.

ghost use Rattle.wgsl_value_builtins.specs.Laws.{
  AnswersMayBeStored,
  BitcastsUndoEachOther,
  MinAndMaxAreSymmetric,
  PackingUndoesUnpacking,
  ReversedTwiceIsItself,
};

/// A law: four bytes that were unpacked from a word are packed as that word again, signed and unsigned.
pub fn packing_undoes_unpacking()
    ensures { PackingUndoesUnpacking }
{}

/// A law: a value that is cast to a type of the same size, and back to its own, is itself again, where both are types
/// that [`bitcast_t`](crate::bitcast_t) takes as its template.
pub fn bitcasts_undo_each_other()
    ensures { BitcastsUndoEachOther }
{}

/// A law: bits that are reversed twice are as before.
pub fn reversed_twice_is_itself()
    ensures { ReversedTwiceIsItself }
{}

/// A law: `min` and `max` of any two values are those of the two in the other order, refusals included.
pub fn min_and_max_are_symmetric()
    ensures { MinAndMaxAreSymmetric }
{}

/// A law: what a builtin function answers may be stored.
pub fn answers_may_be_stored()
    ensures { AnswersMayBeStored }
{}
