//! Laws of views, of paths and of what stands at them, and of conversions. The calls do nothing.

ghost use Rattle.wgsl_rules.specs.Laws.{
  ViewsLeadAlongTheirPaths,
  FitsTestsThePlace,
  APutIsHeld,
  ConversionsKeepNumbers,
  InnerConversionsGiveTheirType,
};

/// A law: a view leads to the value at its path, and is refused where it has no path
/// (WGSL: memory views).
pub fn views_lead_along_their_paths()
    ensures { ViewsLeadAlongTheirPaths }
{}

/// A law: the test of a write tells whether a value fits the place of another: whether the two have
/// one type, and values at the same paths (WGSL: assignment statement).
pub fn fits_tests_the_place()
    ensures { FitsTestsThePlace }
{}

/// A law: what is put at the path of a view stands there, and no value at a path apart from it is
/// changed (WGSL: assignment statement).
pub fn a_put_is_held()
    ensures { APutIsHeld }
{}

/// A law: a converted value has the paths that it had, and the numbers at them (WGSL: feasible
/// automatic conversions).
pub fn conversions_keep_numbers()
    ensures { ConversionsKeepNumbers }
{}

/// A law: a literal, array, vector or matrix whose inner type was converted has the inner type that
/// was asked (WGSL: feasible automatic conversions).
pub fn inner_conversions_give_their_type()
    ensures { InnerConversionsGiveTheirType }
{}
