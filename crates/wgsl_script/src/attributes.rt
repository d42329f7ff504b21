//! The attributes in front of a member (WGSL: `align` and `size`).

ghost use Rattle.std.specs.Prelude.{◌≡◌, ℕ, List, None, Some, IfSome, IsNone};
ghost use Rattle.wgsl_script.specs.Attributes.{BeginsWith, BeginsWithAll, with_one, with_all};

use crate::grammar::count_of;

/// What a member's attributes give: its size and its alignment, in bytes.
#[derive(Clone, Copy, Debug, PartialEq, Eq)]
pub(crate) struct Attributes {
    pub(crate) size: Option<u32>,
    pub(crate) align: Option<u32>,
}

/// One attribute.
#[derive(Clone, Copy, Debug, PartialEq, Eq)]
enum Attribute {
    /// `@align(n)`
    Align(u32),
    /// `@size(n)`
    Size(u32),
}

impl Attributes {
    const NONE: Attributes = Attributes {
        size: None,
        align: None,
    };

    /// These and one more; `None` where there is one of its kind.
    fn with(self, attribute: Attribute) -> Option<Attributes>
        ensures { result ≡ with_one attribute self }
    {
        match attribute {
            Attribute::Align(n) if self.align.is_none() => Some(Attributes {
                align: Some(n),
                ..self
            }),
            Attribute::Size(n) if self.size.is_none() => Some(Attributes {
                size: Some(n),
                ..self
            }),
            _ => None,
        }
    }
}

/// The attributes at the front of a word, each at most once, and the rest of the word.
pub(crate) fn split_attributes(word: &str) -> Option<(Attributes, &str)>
    ensures some { IfSome result (λ split. (given : List Attribute) × BeginsWithAll word.now given split.1.now × (with_all given Attributes.NONE ≡ Some split.0)) }
    ensures none { IsNone result → (given : List Attribute) (rest : List ℕ) → BeginsWithAll word.now given rest → with_all given Attributes.NONE ≡ None }
{
    split_more(word, Attributes::NONE)
}

/// The attributes at the front of a word beside those that are given, each at most once, and the
/// rest of the word. It goes at most two attributes deep.
fn split_more(word: &str, given: Attributes) -> Option<(Attributes, &str)>
    ensures some { IfSome result (λ split. (more : List Attribute) × BeginsWithAll word.now more split.1.now × (with_all more given ≡ Some split.0)) }
    ensures none { IsNone result → (more : List Attribute) (rest : List ℕ) → BeginsWithAll word.now more rest → with_all more given ≡ None }
{
    if !word.starts_with('@') {
        return Some((given, word));
    }
    let (attribute, rest) = split_attribute(word)?;
    split_more(rest, given.with(attribute)?)
}

/// The attribute at the front of a word, and the rest of the word.
fn split_attribute(word: &str) -> Option<(Attribute, &str)>
    ensures some { IfSome result (λ split. BeginsWith word.now split.0 split.1.now) }
    ensures none { IsNone result → (attribute : Attribute) (rest : List ℕ) → ¬ BeginsWith word.now attribute rest }
{
    let (front, rest) = word.split_once(')')?;
    let (keyword, n) = front.split_once('(')?;
    match keyword {
        "@align" => Some((Attribute::Align(count_of(n)?), rest)),
        "@size" => Some((Attribute::Size(count_of(n)?), rest)),
        _ => None,
    }
}
