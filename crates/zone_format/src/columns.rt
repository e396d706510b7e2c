//! The columns of the items of a line, counted in characters from 1.
ghost use Rattle.std.specs.Prelude.{◌≡◌, ◌==◌, ◌&&◌, ◌||◌, ◌+◌, ◌-◌, ◌<◌, ◌≤◌, ◌^◌, false, length};
ghost use Rattle.std.specs.List.{list_all};
ghost use Rattle.dns_symbol.specs.Symbol.{is_digit};
ghost use Rattle.dns_lexer.specs.Run.{is_blank};
ghost use Rattle.zone_format.specs.Columns.{after_token, begins_digit, begins_dollar, first_column};
ghost use Rattle.zone_format.specs.Columns.{first_moved, has_second, head_after, is_class};
ghost use Rattle.zone_format.specs.Columns.{is_numbered_class, later_column, moved_by, moved_in};
ghost use Rattle.zone_format.specs.Columns.{next_eighth, note_column, parenthesis_column};
ghost use Rattle.zone_format.specs.Columns.{parted_column, role_of, spells};
ghost use Rattle.zone_format.specs.Columns.{token_column, under, width_of};

use crate::place::begins_character;

/// The role of a token in the header of its entry.
#[derive(Clone, Copy)]
pub(crate) enum Role {
    Ttl,
    Class,
    RecordType,
}

/// The next item of a line, by what precedes it.
#[derive(Clone, Copy)]
pub(crate) enum Turn {
    /// The first item, in the first column.
    Edge,
    /// The first item, after the blank that the entry begins with.
    Led,
    /// The first item, inside parentheses.
    Inside,
    /// The item after the owner.
    Owned,
    /// A TTL, a class or the type, with the columns moved to the right.
    Head {
        moved: usize,
        has_ttl: bool,
        has_class: bool,
    },
    /// The RDATA, after the type.
    Typed(usize),
    /// Any other item, one blank after the one before it.
    Rest,
}

/// Returns the number of characters of octets.
#[inline(always)]
pub(crate) fn width(octets: &[u8]) -> usize
    ensures width { result ≡ width_of octets.now }
    ensures few { result ≤ length octets.now }
{
    let mut count = 0;
    for octet in octets {
        if begins_character(*octet) {
            count += 1;
        }
    }
    count
}

/// Returns the least multiple of 8 that is at least `number`.
fn next_eighth(number: usize) -> usize
    requires { number + 7 < 2 ^ 64 }
    ensures { result ≡ next_eighth number }
{
    (number + 7) / 8 * 8
}

/// Returns whether an octet is a letter, in lower or upper case.
fn is_letter(octet: u8, small: u8) -> bool
    ensures { result ≡ (octet == small || octet + 32 == small) }
{
    octet == small || u16::from(octet) + 32 == u16::from(small)
}

/// Returns whether a token has these letters, in lower or upper case.
fn spells(letters: &[u8], token: &[u8]) -> bool
    ensures { result ≡ spells letters.now token.now }
{
    if letters.len() != token.len() {
        return false;
    }
    let mut place = 0;
    while place < letters.len() {
        if is_letter(token[place], letters[place]) {
            place += 1;
        } else {
            return false;
        }
    }
    true
}

/// Returns whether an octet is a digit.
fn is_digit(octet: u8) -> bool
    ensures { result ≡ is_digit octet }
{
    octet.is_ascii_digit()
}

/// Returns whether all octets are digits.
fn are_digits(octets: &[u8]) -> bool
    ensures { result ≡ list_all is_digit octets.now }
{
    octets.iter().all(|octet| is_digit(*octet))
}

/// Returns whether a token is CLASS followed by digits (RFC 3597 section 5).
fn is_numbered_class(token: &[u8]) -> bool
    ensures { result ≡ is_numbered_class token.now }
{
    token.len() > 5 && spells(b"class", &token[..5]) && are_digits(&token[5..])
}

/// Returns whether a token is a class.
fn is_class(token: &[u8]) -> bool
    ensures { result ≡ is_class token.now }
{
    spells(b"in", token) || spells(b"ch", token) || spells(b"hs", token) || is_numbered_class(token)
}

/// Returns whether a token begins with a digit.
fn begins_digit(token: &[u8]) -> bool
    ensures { result ≡ begins_digit token.now }
{
    match token.first() {
        Some(octet) => is_digit(*octet),
        None => false,
    }
}

/// Returns whether a token begins with a dollar sign, as a directive does.
fn begins_dollar(token: &[u8]) -> bool
    ensures { result ≡ begins_dollar token.now }
{
    match token.first() {
        Some(octet) => *octet == b'$',
        None => false,
    }
}

/// Returns the role of a token in a header, where `has_ttl` and `has_class` are whether a TTL and a
/// class precede it.
fn role_of(has_ttl: bool, has_class: bool, token: &[u8]) -> Role
    ensures { result ≡ role_of has_ttl has_class token.now }
{
    if !has_ttl && begins_digit(token) {
        Role::Ttl
    } else if !has_class && is_class(token) {
        Role::Class
    } else {
        Role::RecordType
    }
}

impl Role {
    /// Returns by how much the columns move right for the first token, of `width` characters, after
    /// `end` characters.
    fn moved_by(self, end: usize, width: usize) -> usize
        requires { end + width + 9 < 2 ^ 64 }
        ensures moved { result ≡ moved_by self end width }
    {
        match self {
            Role::Ttl => next_eighth((end + width + 2).saturating_sub(31)),
            Role::Class => next_eighth((end + 2).saturating_sub(32)),
            Role::RecordType => next_eighth((end + 2).saturating_sub(35)),
        }
    }

    /// Returns the column of that token.
    fn first_column(self, end: usize, width: usize) -> usize
        requires { end + width + 64 < 2 ^ 64 }
        ensures column { result ≡ first_column self end width }
        ensures narrow { result < end + 64 }
    {
        let moved = self.moved_by(end, width);
        match self {
            Role::Ttl => (31 + moved).saturating_sub(width),
            Role::Class => 32 + moved,
            Role::RecordType => 35 + moved,
        }
    }

    /// Returns the column of a later token.
    fn later_column(self, moved: usize, end: usize) -> usize
        requires room { end + 64 < 2 ^ 64 }
        requires moved { moved ≤ end }
        ensures column { result ≡ later_column self moved end }
        ensures narrow { result < end + 64 }
    {
        match self {
            Role::Ttl => end + 2,
            Role::Class => (32 + moved).max(end + 2),
            Role::RecordType => (35 + moved).max(end + 2),
        }
    }

    /// Returns what may follow a token.
    fn head_after(self, moved: usize, has_ttl: bool, has_class: bool) -> Turn
        ensures { result ≡ head_after self moved has_ttl has_class }
    {
        match self {
            Role::Ttl => Turn::Head {
                moved,
                has_ttl: true,
                has_class,
            },
            Role::Class => Turn::Head {
                moved,
                has_ttl,
                has_class: true,
            },
            Role::RecordType => Turn::Typed(moved),
        }
    }
}

/// Returns the column of the first token after the owner, or after the blank that an entry begins
/// with.
fn head_column(end: usize, token: &[u8], width: usize) -> usize
    requires room { end + width + 64 < 2 ^ 64 }
    ensures column { result ≡ first_column (role_of false false token.now) end width }
    ensures narrow { result < end + 64 }
{
    role_of(false, false, token).first_column(end, width)
}

/// Returns what may follow that token. If the token is adjacent to the owner, it moves no columns.
fn after_first(end: usize, is_adjacent: bool, token: &[u8], width: usize) -> Turn
    requires { end + width + 64 < 2 ^ 64 }
    ensures { let role = role_of false false token.now in
        result ≡ head_after role (first_moved is_adjacent role end width) false false }
{
    let role = role_of(false, false, token);
    let moved = if is_adjacent {
        0
    } else {
        role.moved_by(end, width)
    };
    role.head_after(moved, false, false)
}

impl Turn {
    /// Returns the column of a token that isn't adjacent to the item before it.
    #[inline(always)]
    fn parted_column(self, end: usize, token: &[u8], width: usize) -> usize
        requires room { end + width + 64 < 2 ^ 64 }
        requires moved { moved_in self ≤ end }
        requires width { width ≡ width_of token.now }
        ensures column { result ≡ parted_column self end token.now }
        ensures narrow { result < end + 64 }
    {
        match self {
            Turn::Edge => 1,
            Turn::Inside => 41,
            Turn::Led | Turn::Owned => head_column(end, token, width),
            Turn::Head {
                moved,
                has_ttl,
                has_class,
            } => role_of(has_ttl, has_class, token).later_column(moved, end),
            Turn::Typed(moved) => (41 + moved).max(end + 2),
            Turn::Rest => end + 2,
        }
    }

    /// Returns the column of a token after `end` characters.
    #[inline(always)]
    pub(crate) fn token_column(
        self,
        end: usize,
        is_adjacent: bool,
        token: &[u8],
        width: usize,
    ) -> usize
        requires room { end + width + 64 < 2 ^ 64 }
        requires moved { moved_in self ≤ end }
        requires width { width ≡ width_of token.now }
        ensures column { result ≡ token_column self end is_adjacent token.now }
        ensures narrow { result < end + 64 }
    {
        if is_adjacent {
            end + 1
        } else {
            self.parted_column(end, token, width)
        }
    }

    /// Returns what may follow a token.
    #[inline(always)]
    pub(crate) fn after_token(
        self,
        end: usize,
        is_adjacent: bool,
        token: &[u8],
        width: usize,
    ) -> Turn
        requires room { end + width + 64 < 2 ^ 64 }
        requires width { width ≡ width_of token.now }
        ensures { result ≡ after_token self end is_adjacent token.now }
    {
        match self {
            Turn::Edge => if begins_dollar(token) {
                Turn::Rest
            } else {
                Turn::Owned
            },
            Turn::Led | Turn::Owned => after_first(end, is_adjacent, token, width),
            Turn::Head {
                moved,
                has_ttl,
                has_class,
            } => role_of(has_ttl, has_class, token).head_after(moved, has_ttl, has_class),
            Turn::Inside | Turn::Typed(_) | Turn::Rest => Turn::Rest,
        }
    }

    /// Returns the column of a parenthesis.
    pub(crate) fn parenthesis_column(self, end: usize) -> usize
        requires { end + 64 < 2 ^ 64 }
        ensures column { result ≡ parenthesis_column self end }
        ensures narrow { result < end + 64 }
    {
        match self {
            Turn::Edge => 1,
            Turn::Inside => 41,
            _ => end + 2,
        }
    }

    /// Returns the column of a comment, where `noted` is the column of the comment of the line
    /// directly above, or 0.
    pub(crate) fn note_column(self, noted: usize, end: usize, comment: &[u8]) -> usize
        requires { end + 64 < 2 ^ 64 }
        ensures column { result ≡ note_column noted self end comment.now }
        ensures narrow { result < end + 100 }
    {
        match self {
            Turn::Edge => 1,
            Turn::Led => under(noted, comment, 9),
            Turn::Inside => under(noted, comment, 41),
            _ => 57 + next_eighth((end + 2).saturating_sub(57)),
        }
    }
}

/// Returns whether an octet is a blank.
#[inline(always)]
pub(crate) fn is_blank(octet: u8) -> bool
    ensures { result ≡ is_blank octet }
{
    octet == b' ' || octet == b'\t'
}

/// Returns whether an octet is a semicolon after a blank.
fn is_second(before: u8, octet: u8) -> bool
    ensures { result ≡ (is_blank before && (octet == 59)) }
{
    is_blank(before) && octet == b';'
}

/// Returns whether a comment has another semicolon after a blank.
fn has_second(comment: &[u8]) -> bool
    ensures { result ≡ has_second comment.now }
{
    let mut place = 1;
    while place < comment.len() {
        if is_second(comment[place - 1], comment[place]) {
            return true;
        }
        place += 1;
    }
    false
}

/// Returns the column of a comment line: that of the comment directly above, unless there is none,
/// or the line is a value that is commented out.
fn under(noted: usize, comment: &[u8], column: usize) -> usize
    requires { column < 64 }
    ensures column { result ≡ under noted comment.now column }
    ensures narrow { result < 100 }
{
    if 1 < noted && noted <= 97 && !has_second(comment) {
        noted
    } else {
        column
    }
}
