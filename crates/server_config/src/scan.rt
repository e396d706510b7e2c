//! Where a line, a word, a quoted string and a comment end.
ghost use Rattle.std.specs.Prelude.{◌≡◌, ◌≤◌, false, length};
ghost use Rattle.server_config.specs.NsdLexemes.{ends_nsd_word, nsd_word_len};
ghost use Rattle.server_config.specs.Lexemes.{closing_slash, closing_quote, is_config_blank, is_mark, is_word_octet, line_len, word_len};

/// Returns whether an octet is a space, a tab, a line feed or a carriage return.
pub(crate) fn is_blank(octet: u8) -> bool
    ensures { result ≡ is_config_blank octet }
{
    octet == b' ' || octet == b'\t' || octet == b'\n' || octet == b'\r'
}

/// Returns whether an octet is a token by itself: a brace, a semicolon, an exclamation mark or a
/// slash.
pub(crate) fn is_mark(octet: u8) -> bool
    ensures { result ≡ is_mark octet }
{
    octet == b'{' || octet == b'}' || octet == b';' || octet == b'!' || octet == b'/'
}

/// Returns whether an octet belongs to a word.
fn is_word_octet(octet: u8) -> bool
    ensures { result ≡ is_word_octet octet }
{
    !is_blank(octet) && !is_mark(octet) && octet != b'"' && octet != b'#'
}

/// Returns how many octets come before the first line feed.
pub(crate) fn line_len(text: &[u8]) -> usize
    ensures value { result ≡ line_len text.now }
    ensures within { result ≤ length text.now }
{
    let mut count = 0;
    for octet in text {
        if *octet == b'\n' {
            return count;
        }
        count += 1;
    }
    count
}

/// Returns how many octets of a word a text begins with.
pub(crate) fn word_len(text: &[u8]) -> usize
    ensures value { result ≡ word_len text.now }
    ensures within { result ≤ length text.now }
{
    let mut count = 0;
    for octet in text {
        if !is_word_octet(*octet) {
            return count;
        }
        count += 1;
    }
    count
}

/// Returns the index of the first double quote that comes after no backslash, or the length if
/// there is none.
pub(crate) fn closing_quote(text: &[u8]) -> usize
    ensures value { result ≡ closing_quote false text.now }
    ensures within { result ≤ length text.now }
{
    let mut is_escaped = false;
    let mut index = 0;
    for octet in text {
        if *octet == b'"' && !is_escaped {
            return index;
        }
        is_escaped = *octet == b'\\' && !is_escaped;
        index += 1;
    }
    index
}

/// Returns the index of the first slash that comes after a star, or the length if there is none.
pub(crate) fn closing_slash(text: &[u8]) -> usize
    ensures value { result ≡ closing_slash false text.now }
    ensures within { result ≤ length text.now }
{
    let mut is_starred = false;
    let mut index = 0;
    for octet in text {
        if *octet == b'/' && is_starred {
            return index;
        }
        is_starred = *octet == b'*';
        index += 1;
    }
    index
}

/// Returns whether an octet ends a word of an `nsd.conf`.
fn ends_nsd_word(octet: u8) -> bool
    ensures { result ≡ ends_nsd_word octet }
{
    is_blank(octet) || octet == b'"'
}

/// Returns how many octets of a word of an `nsd.conf` a text begins with. A backslash and the octet
/// after it belong to it.
pub(crate) fn nsd_word_len(begins_escaped: bool, text: &[u8]) -> usize
    ensures value { result ≡ nsd_word_len begins_escaped text.now }
    ensures within { result ≤ length text.now }
{
    let mut is_escaped = begins_escaped;
    let mut index = 0;
    for octet in text {
        if ends_nsd_word(*octet) && !is_escaped {
            return index;
        }
        is_escaped = *octet == b'\\' && !is_escaped;
        index += 1;
    }
    index
}
