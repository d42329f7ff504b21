//! Laws of declarations, values and assertions that are faulty. The calls do nothing.

ghost use Rattle.wgsl_eval.specs.Laws.{FaultyAssertionsAreExplained, FaultyDeclarationsAreExplained, FaultyValuesAreExplained, NothingIsFaultyUntold};

/// A law: a declaration that is faulty bears the name of one before it, or has a fault of its own that is told, unless as
/// many are as are told of a source, or one of its expressions names a faulty declaration, or has a fault of its form: a
/// placeholder, an operator that the grammar refuses, or no steps that the reader left.
///
/// The declaration that it names is faulty in what is told too, unless it stands no sooner in the order of the reading,
/// as where declarations name each other in a circle.
pub fn faulty_declarations_are_explained()
    ensures { FaultyDeclarationsAreExplained }
{}

/// A law: so it is with each value that is faulty.
pub fn faulty_values_are_explained()
    ensures { FaultyValuesAreExplained }
{}

/// A law: so it is with each assertion that is faulty: a fault is told of it, unless as many are as are told of a source, or
/// its expression names a faulty declaration, or has a fault of its form.
pub fn faulty_assertions_are_explained()
    ensures { FaultyAssertionsAreExplained }
{}

/// A law: no declaration is faulty where no fault is told, and nothing is wrong in the form of the source: no two
/// declarations have one name, and no expression has a fault of its form or names what stands no sooner in the order.
pub fn nothing_is_faulty_untold()
    ensures { NothingIsFaultyUntold }
{}
