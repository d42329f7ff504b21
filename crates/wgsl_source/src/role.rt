//! What the names in a function stand for (WGSL: declaration and scope; attributes).

ghost use Rattle.std.specs.Prelude.{◌≡◌, ◌<◌, ◌^◌, ◌-◌, ◌&&◌, ◌||◌, codes, not};
ghost use Rattle.wgsl_source.specs.Readings.{word_at};
ghost use Rattle.wgsl_source.specs.Uses.{begins_list, declares, introduces, is_behind_list, is_of_attribute, is_of_other, stands, takes_names, takes_two_names};

use crate::module::Reading;

impl Reading<'_> {
    /// Whether a function declares the name of the token: its body does, or the token stands before the body, and is
    /// a parameter's.
    pub(crate) fn is_declaring(&self, at: usize, in_body: bool) -> bool
        requires { at < 2 ^ 64 - 1 }
        ensures { result ≡ declares self.now in_body at }
    {
        introduces(self.word_before(at, 1))
            || self.is_behind_list(at)
            || (!in_body && self.stands(at + 1, ":"))
    }

    /// Whether the name of the token is neither a member's nor an attribute's, nor one that an attribute gives a meaning
    /// of its own.
    pub(crate) fn is_plain(&self, at: usize) -> bool
        ensures { result ≡ (not (is_of_other self.now at) && not (is_of_attribute self.now at)) }
    {
        !self.is_of_other(at) && !self.is_of_attribute(at)
    }
}

impl Reading<'_> {
    // The text of the token that stands so many before this one.
    fn word_before(&self, at: usize, count: usize) -> &str
        ensures { result.now ≡ word_at self.now (at - count) }
    {
        self.word(at.saturating_sub(count))
    }

    fn stands(&self, at: usize, text: &str) -> bool
        ensures { result ≡ stands self.now at text.now }
    {
        self.word(at) == text
    }

    fn stands_before(&self, at: usize, count: usize, text: &str) -> bool
        ensures { result ≡ stands self.now (at - count) text.now }
    {
        self.word_before(at, count) == text
    }

    // Whether the template list of a `var` stands before the token.
    fn is_behind_list(&self, at: usize) -> bool
        ensures { result ≡ is_behind_list self.now at }
    {
        self.stands_before(at, 1, ">") && self.begins_near_list(at)
    }

    fn begins_near_list(&self, at: usize) -> bool
        ensures { result ≡ (begins_list self.now at 3 || (begins_list self.now at 4 || begins_list self.now at 5)) }
    {
        self.begins_list(at, 3) || self.begins_list(at, 4) || self.begins_list(at, 5)
    }

    fn begins_list(&self, at: usize, count: usize) -> bool
        requires { count < 2 ^ 64 - 1 }
        ensures { result ≡ begins_list self.now at count }
    {
        self.stands_before(at, count, "<") && self.stands_before(at, count + 1, "var")
    }

    // A member's name, or an attribute's.
    fn is_of_other(&self, at: usize) -> bool
        ensures { result ≡ is_of_other self.now at }
    {
        self.stands_before(at, 1, ".") || self.stands_before(at, 1, "@")
    }

    // A name that an attribute gives a meaning of its own.
    fn is_of_attribute(&self, at: usize) -> bool
        ensures { result ≡ is_of_attribute self.now at }
    {
        (self.stands_before(at, 1, "(") && self.is_first_of_attribute(at))
            || (self.stands_before(at, 1, ",") && self.is_second_of_attribute(at))
    }

    fn is_first_of_attribute(&self, at: usize) -> bool
        ensures { result ≡ (stands self.now (at - 3) (codes "@") && takes_names (word_at self.now (at - 2))) }
    {
        self.stands_before(at, 3, "@") && takes_names(self.word_before(at, 2))
    }

    fn is_second_of_attribute(&self, at: usize) -> bool
        ensures { result ≡ (stands self.now (at - 5) (codes "@") && takes_two_names (word_at self.now (at - 4))) }
    {
        self.stands_before(at, 5, "@") && takes_two_names(self.word_before(at, 4))
    }
}

// Whether a body declares the name behind this word.
fn introduces(word: &str) -> bool
    ensures { result ≡ introduces word.now }
{
    word == "let" || word == "const" || word == "var"
}

// Whether the names in the brackets of this attribute have meanings of their own.
fn takes_names(word: &str) -> bool
    ensures { result ≡ takes_names word.now }
{
    word == "builtin" || takes_two_names(word)
}

fn takes_two_names(word: &str) -> bool
    ensures { result ≡ takes_two_names word.now }
{
    word == "interpolate" || word == "diagnostic"
}
