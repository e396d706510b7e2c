//! Patterns of paths, as configurations name files that they include: `*`, `?` and `[..]`.
ghost use Rattle.std.specs.Prelude.{◌≡◌, ◌≤◌, ◌∷◌, IfSome, None, false, length, true};
ghost use Rattle.server_config.specs.PathPatterns.{bracket_item, end_of_set, fits_pattern, has_slash, is_negated, is_path_pattern, is_pattern_octet, item_fits, item_more, item_of, may_fit, path_fits, pattern_items, PatternItem, range_has, range_high, range_more, set_end, set_has, set_text};
ghost use Rattle.server_config.specs.PathPatterns.PatternItem.{Star};
ghost use Rattle.server_config.specs.PathPlaces.{EndsHere, IsAfterItems, IsAfterStar};

/// Returns whether an octet has a meaning of its own in patterns.
fn is_pattern_octet(octet: u8) -> bool
    ensures { result ≡ is_pattern_octet octet }
{
    octet == b'*' || octet == b'?' || octet == b'['
}

/// Returns whether a part of a path is a pattern: it has `*`, `?` or `[`.
pub fn is_path_pattern(part: &[u8]) -> bool
    ensures { result ≡ is_path_pattern part.now }
{
    for octet in part {
        if is_pattern_octet(*octet) {
            return true;
        }
    }
    false
}

/// Returns whether octets have a slash.
fn has_slash(octets: &[u8]) -> bool
    ensures { result ≡ has_slash octets.now }
{
    for octet in octets {
        if *octet == b'/' {
            return true;
        }
    }
    false
}

/// Returns whether a name can fit a pattern at all: it has no slash, and begins with a dot only if
/// the pattern does.
fn may_fit(pattern: &[u8], name: &[u8]) -> bool
    ensures { result ≡ may_fit pattern.now name.now }
{
    !has_slash(name) && (!name.starts_with(b".") || pattern.starts_with(b"."))
}

/// Returns the number of octets that a range of a set has after its first.
fn range_more(text: &[u8]) -> usize
    ensures { result ≡ range_more text.now }
{
    if 2 <= text.len() && text[0] == b'-' && text[1] != b']' {
        2
    } else {
        0
    }
}

/// Returns the last octet of a range that begins with an octet.
fn range_high(low: u8, text: &[u8]) -> u8
    ensures { result ≡ range_high low text.now }
{
    if 2 <= text.len() && text[0] == b'-' && text[1] != b']' {
        text[1]
    } else {
        low
    }
}

/// Returns whether the range that begins with an octet before a text has an octet.
fn range_has(octet: u8, low: u8, text: &[u8]) -> bool
    ensures { result ≡ range_has octet low text.now }
{
    low <= octet && octet <= range_high(low, text)
}

/// Returns the index after the end of a set, or nothing if it has none.
fn set_end(text: &[u8]) -> Option<usize>
    ensures end { result ≡ set_end 0 0 true text.now }
    ensures within { IfSome result (λ end. end ≤ length text.now) }
{
    let mut at: usize = 0;
    while at < text.len() {
        if text[at] == b']' && 0 < at {
            return Some(at + 1);
        }
        at += 1 + range_more(&text[at + 1..]);
    }
    None
}

/// Returns whether a range of a set has an octet.
fn set_has(text: &[u8], octet: u8) -> bool
    ensures { result ≡ set_has octet 0 true text.now }
{
    let mut at: usize = 0;
    while at < text.len() {
        let low = text[at];
        if low == b']' && 0 < at {
            return false;
        }
        if range_has(octet, low, &text[at + 1..]) {
            return true;
        }
        at += 1 + range_more(&text[at + 1..]);
    }
    false
}

/// Returns whether a set is of the octets that it doesn't have: it begins after `!` or `^`.
fn is_negated(text: &[u8]) -> bool
    ensures { result ≡ is_negated text.now }
{
    !text.is_empty() && (text[0] == b'!' || text[0] == b'^')
}

/// Returns a set without its mark of negation.
fn set_text(text: &[u8]) -> &[u8]
    ensures { result.now ≡ set_text text.now }
{
    if is_negated(text) { &text[1..] } else { text }
}

/// Returns how many octets of a text belong to the item that begins with the octet before it.
#[tactic(auto, using(crate::proofs::SetSteps::negated_shorter, crate::proofs::SetSteps::set_within))]
fn item_more(first: u8, text: &[u8]) -> usize
    ensures more { result ≡ item_more first text.now }
    ensures within { result ≤ length text.now }
{
    if first != b'[' {
        return 0;
    }
    match set_end(set_text(text)) {
        Some(end) => { if is_negated(text) { end + 1 } else { end } }
        None => 0,
    }
}

/// Returns whether an octet fits what a bracket begins, before a text.
fn bracket_fits(text: &[u8], octet: u8) -> bool
    ensures { result ≡ item_fits (bracket_item (end_of_set text.now) text.now) octet }
{
    match set_end(set_text(text)) {
        Some(_) => set_has(set_text(text), octet) != is_negated(text),
        None => octet == b'[',
    }
}

/// Returns whether an octet fits the item that begins with an octet before a text.
fn item_fits(first: u8, text: &[u8], octet: u8) -> bool
    ensures { result ≡ item_fits (item_of first text.now) octet }
{
    match first {
        b'*' => false,
        b'?' => true,
        b'[' => bracket_fits(text, octet),
        _ => first == octet,
    }
}

/// Returns where the items before the next star end, in the pattern and in the name, or nothing if
/// the name doesn't begin with octets that fit them.
fn after_items(pattern: &[u8], name: &[u8]) -> Option<(usize, usize)>
    ensures fits { IfSome result (IsAfterItems pattern.now name.now) }
    ensures none { result ≡ None → path_fits (pattern_items pattern.now) name.now ≡ false }
{
    let mut index: usize = 0;
    let mut at: usize = 0;
    while index < pattern.len() && pattern[index] != b'*' {
        if name.len() <= at {
            return None;
        }
        if !item_fits(pattern[index], &pattern[index + 1..], name[at]) {
            return None;
        }
        index += 1 + item_more(pattern[index], &pattern[index + 1..]);
        at += 1;
    }
    Some((index, at))
}

/// Returns where the items before the next star end, as [`after_items`], but without a star only if
/// the name ends there too.
fn ends_here(pattern: &[u8], name: &[u8]) -> Option<(usize, usize)>
    ensures fits { IfSome result (EndsHere pattern.now name.now) }
    ensures none { result ≡ None → path_fits (pattern_items pattern.now) name.now ≡ false }
{
    match after_items(pattern, name) {
        Some((index, at)) => {
            if index < pattern.len() || at == name.len() {
                return Some((index, at));
            }
            None
        }
        None => None,
    }
}

/// Returns where the items after a star end, up to the next star or up to the end, in the pattern
/// and in the name, at the first octets that fit them.
fn after_star(pattern: &[u8], name: &[u8]) -> Option<(usize, usize)>
    ensures fits { IfSome result (IsAfterStar pattern.now name.now) }
    ensures none { result ≡ None → path_fits (Star ∷ pattern_items pattern.now) name.now ≡ false }
{
    let mut from: usize = 0;
    while from <= name.len() {
        if let Some((index, at)) = ends_here(pattern, &name[from..]) {
            return Some((index, from + at));
        }
        from += 1;
    }
    None
}

/// Returns whether a name fits the items of a pattern.
fn fits(pattern: &[u8], name: &[u8]) -> bool
    ensures { result ≡ path_fits (pattern_items pattern.now) name.now }
{
    let Some((mut index, mut at)) = after_items(pattern, name) else {
        return false;
    };
    while index < pattern.len() {
        let Some((more, taken)) = after_star(&pattern[index + 1..], &name[at..]) else {
            return false;
        };
        index += 1 + more;
        at += taken;
    }
    at == name.len()
}

/// Returns whether the name of a file fits a pattern, as in glob(3): `*` is any octets, `?` an octet,
/// `[..]` an octet of a set, `[!..]` one that isn't. Nothing in a pattern is a slash, and a dot at
/// the beginning of the name is only a dot.
pub fn fits_path_pattern(pattern: &[u8], name: &[u8]) -> bool
    ensures { result ≡ fits_pattern pattern.now name.now }
{
    may_fit(pattern, name) && fits(pattern, name)
}
