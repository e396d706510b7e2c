//! Rules: what is checked of a record or a zone, each with a code and a way.
ghost use Rattle.std.specs.Prelude.{◌≡◌, find, map, option_map};
ghost use Rattle.finding_codes.specs.Rule.{is_way, rule_message, rule_part};
ghost use Rattle.finding_codes.specs.Table.{way_seen};

use crate::code::Code;
use crate::table::{Part, Way, ways};

/// A rule that is checked: the code of its findings, and which of its ways it is, from 0 on.
#[derive(Clone, Copy, PartialEq, Eq, Default)]
pub struct Rule {
    pub code: Code,
    pub way: u8,
}

/// A rule, as `rule!(CODE, WAY)`.
#[macro_export]
macro_rules! rule {
    ($code:ident, $way:literal) => {
        $crate::rule::Rule {
            code: $crate::code::Code::$code,
            way: $way,
        }
    };
}

/// Returns whether a way is that of a rule.
fn is_way(rule: Rule, way: &Way) -> bool
    ensures { result ≡ is_way rule (way_seen way.now) }
{
    way.code as usize == rule.code as usize && way.number == rule.way
}

/// Returns the first of some ways that is that of a rule.
fn find_way(ways: &[Way], rule: Rule) -> Option<&Way>
    ensures { option_map (λ way. way_seen way.now) result ≡ find (is_way rule) (map way_seen ways.now) }
{
    for way in ways {
        if is_way(rule, way) {
            return Some(way);
        }
    }
    None
}

impl Rule {
    /// Returns the part of an entry that findings of the rule are about.
    pub fn part(self) -> Part
        ensures { result ≡ rule_part self }
    {
        match find_way(ways(), self) {
            Some(way) => way.part,
            None => self.code.row().part,
        }
    }

    /// Returns the message of a finding of which only the rule is known.
    pub fn message(self) -> &'static str
        ensures { result.now ≡ rule_message self }
    {
        match find_way(ways(), self) {
            Some(way) => way.message,
            None => self.code.message(),
        }
    }
}
