//! The least of what doesn't fit.
ghost use Rattle.std.specs.Prelude.{◌≡◌, ◌<◌, length};
ghost use Rattle.std.specs.Ordering.{is_lt};
ghost use Rattle.dj_rewrite.specs.Sets.{part_cmp};
ghost use Rattle.dj_rewrite.specs.Steps.{part_of, lesser_text, lesser_of, IsLeastText};

use dj_names::Name;

/// A class that doesn't fit, where the member's text is empty, or a member of it that doesn't.
#[derive(Debug, Drop)]
pub(crate) struct Part {
    pub(crate) class: Name,
    pub(crate) member: Name,
}

// The lesser of two texts.
fn lesser_text<'a>(a: &'a Name, b: &'a Name) -> &'a Name
    ensures { result.now ≡ lesser_text a.now b.now }
{
    if b.as_slice().cmp(a.as_slice()).is_lt() {
        b
    } else {
        a
    }
}

/// The least of these texts, of which there are some.
pub(crate) fn least_text(texts: &[Name]) -> &Name
    requires { 0 < length texts.now }
    ensures { IsLeastText texts.now result.now }
{
    let mut least = &texts[0];
    for text in texts {
        least = lesser_text(least, text);
    }
    least
}

// Whether the first comes before the second: by the bytes of the class's name, then of the member's text.
fn is_before(a: &Part, b: &Part) -> bool
    ensures { result ≡ is_lt (part_cmp (part_of a.now) (part_of b.now)) }
{
    let by_class = a.class.as_slice().cmp(b.class.as_slice());
    by_class
        .then(a.member.as_slice().cmp(b.member.as_slice()))
        .is_lt()
}

/// The lesser of the two, where there are two.
pub(crate) fn lesser(before: Option<Part>, part: Part) -> Part
    ensures { result ≡ lesser_of before part }
{
    let Some(least) = before else {
        return part;
    };
    if is_before(&least, &part) {
        least
    } else {
        part
    }
}
