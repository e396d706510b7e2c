//! One finding a word: of the findings about one target, or about one owner, only the first by rank is
//! reported.
ghost use Rattle.std.specs.Prelude.{◌≡◌, None, OnOk, false};
ghost use Rattle.finding_counts.specs.WordRanks.{BeatsAlso, BeatsTheSame, HoldsAlso, HoldsTheSame, held_index, is_beaten, least_rank, may_be_outranked, word_rank};

use dns_lexer::position::Position;
use finding_codes::code::Code;
use std::alloc::{AllocError, Global};
use std::collections::BTreeMap;

/// The group of a code, and its rank in it. The least rank comes first.
#[derive(Clone, Copy)]
struct WordRank {
    group: usize,
    rank: usize,
}

/// The code of a finding, and the word of a file that it is about.
#[derive(Clone, Copy)]
pub struct CodeAtWord {
    pub code: Code,
    /// Number of files that were opened before the file.
    pub file: usize,
    pub position: Position,
}

/// The group of findings and the file, and the line and the column of a word.
type WordKey = ((usize, usize), (usize, usize));

/// The ranks of the findings that were reported, and the indices of those that are held, by group, file
/// and position of the word.
#[derive(Drop)]
pub struct WordRanks {
    ranks: BTreeMap<WordKey, usize>,
    held: BTreeMap<WordKey, usize>,
}

/// Returns the group and the rank of a code, if it is in one.
#[tactic(auto, unfolding(crate::specs::WordRanks::word_rank))]
fn rank_of(code: Code) -> Option<WordRank>
    ensures { result ≡ word_rank code }
{
    let (group, rank) = match code {
        Code::NsAddress => (0, 0),
        Code::TargetAddress => (0, 1),
        Code::MissingDot => (0, 2),
        Code::TargetCname => (0, 3),
        Code::TargetMissing => (0, 4),
        Code::CnameTargetMissing => (0, 5),
        Code::WildcardInside => (1, 0),
        Code::SoaMail => (1, 1),
        Code::HostName => (1, 2),
        Code::HighOctet => (1, 3),
        Code::Unportable => (1, 4),
        _ => return None,
    };
    Some(WordRank { group, rank })
}

/// Returns the key of a word, for the findings of a group.
fn key_of(group: usize, word: CodeAtWord) -> WordKey
    ensures { result ≡ ((group, word.file), (word.position.line, word.position.column)) }
{
    (
        (group, word.file),
        (word.position.line, word.position.column),
    )
}

/// Returns the least of a rank and of the one that a word has.
fn least_rank(found: Option<usize>, rank: usize) -> usize
    ensures { result ≡ least_rank found rank }
{
    match found {
        Some(least) => rank.min(least),
        None => rank,
    }
}

impl WordRanks {
    /// Returns no ranks.
    pub fn new(alloc: Global) -> WordRanks
        ensures ranks { (word : CodeAtWord) → is_beaten result word ≡ false }
        ensures held { (word : CodeAtWord) → held_index result word ≡ None }
    {
        WordRanks {
            ranks: BTreeMap::new(alloc),
            held: BTreeMap::new(alloc),
        }
    }

    /// Returns whether a finding that outranks one was added.
    pub fn is_beaten(&self, word: CodeAtWord) -> bool
        ensures { result ≡ is_beaten self.now word }
    {
        let Some(rank) = rank_of(word.code) else {
            return false;
        };
        match self.ranks.get(&key_of(rank.group, word)) {
            Some(least) => *least < rank.rank,
            None => false,
        }
    }

    /// Adds a finding: from then on it beats those that it outranks. Fails without memory.
    pub fn add(&mut self, word: CodeAtWord) -> Result<(), AllocError>
        ensures ranks { OnOk result (BeatsAlso word self.old self.new) }
        ensures held { HoldsTheSame self.old self.new }
    {
        let Some(rank) = rank_of(word.code) else {
            return Ok(());
        };
        let key = key_of(rank.group, word);
        let found = self.ranks.get(&key).copied();
        self.ranks.insert(key, least_rank(found, rank.rank))?;
        Ok(())
    }

    /// Returns the index of the finding that is held about the word of one, in its group.
    pub fn held_at(&self, word: CodeAtWord) -> Option<usize>
        ensures { result ≡ held_index self.now word }
    {
        let rank = rank_of(word.code)?;
        self.held.get(&key_of(rank.group, word)).copied()
    }

    /// Holds a finding, by its index, unless one of its group is held about its word. Fails without memory.
    pub fn hold(&mut self, word: CodeAtWord, index: usize) -> Result<(), AllocError>
        ensures held { OnOk result (HoldsAlso word index self.old self.new) }
        ensures ranks { BeatsTheSame self.old self.new }
    {
        let Some(rank) = rank_of(word.code) else {
            return Ok(());
        };
        let key = key_of(rank.group, word);
        if self.held.contains_key(&key) {
            return Ok(());
        }
        self.held.insert(key, index)?;
        Ok(())
    }
}

/// Returns whether a finding about a record of a type may be beaten by one that is found later: by one
/// about a name server, or about an octet outside of ASCII in a name.
#[tactic(auto, unfolding(crate::specs::WordRanks::may_be_outranked))]
pub fn may_be_beaten(code: Code, rtype: &str) -> bool
    ensures { result ≡ may_be_outranked code rtype.now }
{
    match code {
        Code::TargetAddress | Code::MissingDot => rtype == "NS",
        Code::HighOctet | Code::Unportable => true,
        _ => false,
    }
}
