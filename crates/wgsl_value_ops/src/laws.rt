//! Laws of the operators on vectors and on values of every kind. The calls do nothing.

ghost use Rattle.wgsl_value_ops.specs.Laws.{
  AnswersAreStorable,
  AnswersHaveTheType,
  AnswersKeepTheType,
  Lifted2KeepsTheCount,
  LiftedKeepsTheCount,
  LiteralsAreJoinedAsLiterals,
  SumsAndProductsSwap,
};
ghost use Rattle.wgsl_rules.specs.Values.{Val};
ghost use Rattle.wgsl_rules.specs.declared.syntax.ShaderStage.{ShaderStage};

/// A law: the type of what an operator gives for two literals is that of a truth value for a comparison,
/// the left one for a shift, and else the common type; for one literal it is its own (WGSL: expressions).
pub fn answers_have_their_types()
    ensures two { AnswersHaveTheType }
    ensures one { AnswersKeepTheType }
{}

/// A law: what an operator gives for two literals may be stored: a number is one of its kind (WGSL:
/// expressions).
pub fn answers_are_storable()
    ensures { AnswersAreStorable }
{}

/// A law: what is lifted has as many components as the operands (WGSL: arithmetic expressions).
pub fn lifted_answers_keep_the_count()
    ensures one { LiftedKeepsTheCount }
    ensures two { Lifted2KeepsTheCount }
{}

/// A law: an operator on two values that are literals is the operator on literals (WGSL: expressions).
pub fn literals_are_joined_as_literals()
    ensures { LiteralsAreJoinedAsLiterals }
{}

/// A law: the sum and the product of a scalar and a vector are those of the vector and the scalar, types
/// in a refusal included (WGSL: arithmetic expressions).
pub fn sums_and_products_swap()
    ensures { (stage : ShaderStage) (s v : Val) → SumsAndProductsSwap stage s v }
{}
