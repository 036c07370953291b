//! How the parts of a path equal the identifiers of a design.

ghost use Rattle.std.specs.Prelude.{◌≡◌, map};
ghost use Rattle.std.specs.Str.{bytes_eq};
ghost use Rattle.vital_annotate.specs.Names.{folded};
ghost use Rattle.vital_annotate.specs.Parts as spec;

/// Whether an identifier is an extended one.
pub fn begins_extended(identifier: &[u8]) -> bool
    ensures { result ≡ spec.begins_extended identifier.now }
{
    match identifier {
        [first, ..] => *first == b'\\',
        [] => false,
    }
}

/// What stands between the outer backslashes of an extended identifier, with those inside doubled as they stand.
pub fn inner(identifier: &[u8]) -> &[u8]
    ensures { result.now ≡ spec.inner identifier.now }
{
    if identifier.len() < 2 {
        return &identifier[..0];
    }
    &identifier[1..identifier.len() - 1]
}

/// Whether a text is another one in small letters.
fn is_folded(text: &[u8], other: &[u8]) -> bool
    ensures { result ≡ bytes_eq text.now (folded other.now) }
{
    if text.len() != other.len() {
        return false;
    }
    for i in 0..text.len() {
        if other[i].to_ascii_lowercase() != text[i] {
            return false;
        }
    }
    true
}

/// Whether a part equals an identifier: the text of a basic one ignoring case, and the inner text of an extended one exactly.
#[tactic(auto, unfolding(crate::specs::Parts::part_is))]
pub fn part_is(identifier: &[u8], part: &[u8]) -> bool
    ensures { result ≡ spec.part_is identifier.now part.now }
{
    if begins_extended(identifier) {
        return inner(identifier) == part;
    }
    is_folded(identifier, part)
}

/// Whether each part of a path equals the label at its place.
pub fn parts_are(labels: &[&[u8]], parts: &[&[u8]]) -> bool
    ensures { result ≡ spec.parts_are (map (λ label. label.now) labels.now) (map (λ part. part.now) parts.now) }
{
    if labels.len() != parts.len() {
        return false;
    }
    for i in 0..labels.len() {
        if !part_is(labels[i], parts[i]) {
            return false;
        }
    }
    true
}
