//! What each clause of a `named.conf` means for zones.
//!
//! Blocks that concern no zones are passed over: only their braces, quotes and comments are read.
ghost use Rattle.std.specs.Prelude.{◌≡◌};
ghost use Rattle.server_config.specs.declared.clause.ClauseEnd.TheVariants.{Ends, Opens};
ghost use Rattle.server_config.specs.Steps.{after_block, after_passed, before_word, block_name, block_number, clause_step, close_in, close_step, closed_block, deeper, end_step, first_word, less_deep, next_step, open_in, open_in_view, open_options, open_outside, open_view, open_word, open_zone, pass_block, passed_in, statement_in, step_after};

use crate::clause::{Clause, ClauseEnd, ClauseWords, clause_words, next_clause};
use crate::error::{ConfigError, ConfigErrorKind};
use crate::keyword::{Keyword, read_keyword};
use crate::settings::{Settings, ZoneSettings};
use crate::state::{BlockName, ConfigBlock, ConfigEvent, ConfigState, ConfigStep, LastClause};
use crate::statement::{
    error_at_end, error_at_token, name_token, needed, pass, simple_step, step_to, word_token,
};
use crate::token::ConfigToken;

/// Returns the first word of the block that is open.
fn open_word(state: &ConfigState) -> ConfigToken
    ensures { result ≡ open_word state.now.block state.now }
{
    match state.block {
        ConfigBlock::View => state.view_word,
        _ => state.block_word,
    }
}

/// Returns the number of a kind of blocks.
fn block_number(block: ConfigBlock) -> u8
    ensures { result ≡ block_number block }
{
    match block {
        ConfigBlock::Outside => 0,
        ConfigBlock::Options => 1,
        ConfigBlock::View => 2,
        ConfigBlock::Zone => 3,
        ConfigBlock::ZoneInView => 4,
    }
}

/// Reads the name and the class of a view or a zone.
fn block_name(clause: Clause, words: ClauseWords) -> Result<BlockName, ConfigError>
    ensures { result ≡ block_name clause words }
{
    let second = needed(clause, words.second)?;
    let name = name_token(second)?;
    if 3 < clause.words {
        return Err(error_at_end(clause, ConfigErrorKind::TrailingWord));
    }
    Ok(BlockName {
        name,
        class: words.third,
    })
}

/// Begins a block that is passed over.
fn pass_block(
    state: ConfigState,
    clause: Clause,
    first: ConfigToken,
) -> Result<ConfigStep, ConfigError>
    ensures { result ≡ pass_block state clause first }
{
    let state = ConfigState {
        depth: 1,
        passed_word: first,
        ..state
    };
    pass(state, clause)
}

/// Begins `options`.
fn open_options(
    state: ConfigState,
    clause: Clause,
    words: ClauseWords,
    first: ConfigToken,
) -> Result<ConfigStep, ConfigError>
    ensures { result ≡ open_options state clause words first }
{
    if 1 < clause.words {
        return Err(error_at_end(clause, ConfigErrorKind::TrailingWord));
    }
    let state = ConfigState {
        block: ConfigBlock::Options,
        block_word: first,
        ..state
    };
    Ok(step_to(ConfigEvent::OpenOptions, state, clause))
}

/// Begins a view.
fn open_view(
    state: ConfigState,
    clause: Clause,
    words: ClauseWords,
    first: ConfigToken,
) -> Result<ConfigStep, ConfigError>
    ensures { result ≡ open_view state clause words first }
{
    match block_name(clause, words) {
        Ok(name) => {
            let state = ConfigState {
                block: ConfigBlock::View,
                view_word: first,
                view: Settings::none(),
                ..state
            };
            Ok(step_to(ConfigEvent::OpenView(name), state, clause))
        }
        Err(error) => Err(error),
    }
}

/// Begins a zone.
fn open_zone(
    block: ConfigBlock,
    state: ConfigState,
    clause: Clause,
    words: ClauseWords,
    first: ConfigToken,
) -> Result<ConfigStep, ConfigError>
    ensures { result ≡ open_zone block state clause words first }
{
    match block_name(clause, words) {
        Ok(name) => {
            let state = ConfigState {
                block,
                block_word: first,
                zone: ZoneSettings::none(),
                ..state
            };
            Ok(step_to(ConfigEvent::OpenZone(name), state, clause))
        }
        Err(error) => Err(error),
    }
}

/// Begins a block outside of blocks.
fn open_outside(
    keyword: Keyword,
    state: ConfigState,
    clause: Clause,
    words: ClauseWords,
    first: ConfigToken,
) -> Result<ConfigStep, ConfigError>
    ensures { result ≡ open_outside keyword state clause words first }
{
    match keyword {
        Keyword::Options => open_options(state, clause, words, first),
        Keyword::View => open_view(state, clause, words, first),
        Keyword::Zone => open_zone(ConfigBlock::Zone, state, clause, words, first),
        _ => pass_block(state, clause, first),
    }
}

/// Begins a block in a view.
fn open_in_view(
    keyword: Keyword,
    state: ConfigState,
    clause: Clause,
    words: ClauseWords,
    first: ConfigToken,
) -> Result<ConfigStep, ConfigError>
    ensures { result ≡ open_in_view keyword state clause words first }
{
    match keyword {
        Keyword::Zone => open_zone(ConfigBlock::ZoneInView, state, clause, words, first),
        _ => pass_block(state, clause, first),
    }
}

/// Begins a block.
fn open_step(
    keyword: Keyword,
    state: ConfigState,
    clause: Clause,
    words: ClauseWords,
    first: ConfigToken,
) -> Result<ConfigStep, ConfigError>
    ensures { result ≡ open_in state.block keyword state clause words first }
{
    match state.block {
        ConfigBlock::Outside => open_outside(keyword, state, clause, words, first),
        ConfigBlock::View => open_in_view(keyword, state, clause, words, first),
        _ => pass_block(state, clause, first),
    }
}

/// Ends a block. The block around it is `block`.
fn close_block(
    event: ConfigEvent,
    block: ConfigBlock,
    state: ConfigState,
    clause: Clause,
) -> Result<ConfigStep, ConfigError>
    ensures { result ≡ closed_block event block state clause }
{
    let state = ConfigState {
        block,
        last: LastClause::Block,
        ..state
    };
    Ok(step_to(event, state, clause))
}

/// Ends the block that is open.
fn close_open(state: ConfigState, clause: Clause) -> Result<ConfigStep, ConfigError>
    ensures { result ≡ close_in state.block state clause }
{
    match state.block {
        ConfigBlock::Outside => Err(error_at_end(clause, ConfigErrorKind::UnexpectedClose)),
        ConfigBlock::Options => {
            close_block(
                ConfigEvent::CloseOptions,
                ConfigBlock::Outside,
                state,
                clause,
            )
        }
        ConfigBlock::View => {
            close_block(ConfigEvent::CloseView, ConfigBlock::Outside, state, clause)
        }
        ConfigBlock::Zone => {
            close_block(ConfigEvent::CloseZone, ConfigBlock::Outside, state, clause)
        }
        ConfigBlock::ZoneInView => {
            close_block(ConfigEvent::CloseZone, ConfigBlock::View, state, clause)
        }
    }
}

/// Reads a closing brace after a statement.
fn close_step(state: ConfigState, clause: Clause) -> Result<ConfigStep, ConfigError>
    ensures { result ≡ close_step state clause }
{
    if 0 < clause.words {
        return Err(error_at_end(clause, ConfigErrorKind::MissingSemicolon));
    }
    if block_number(state.block) == block_number(state.outermost) {
        return Err(error_at_end(clause, ConfigErrorKind::UnexpectedClose));
    }
    close_open(state, clause)
}

/// Reads the end of the text after a statement.
fn end_step(state: ConfigState, clause: Clause) -> Result<ConfigStep, ConfigError>
    ensures { result ≡ end_step state clause }
{
    if 0 < clause.words {
        return Err(error_at_end(clause, ConfigErrorKind::MissingSemicolon));
    }
    if block_number(state.block) == block_number(state.outermost) {
        return Ok(step_to(ConfigEvent::End, state, clause));
    }
    Err(error_at_token(open_word(&state), ConfigErrorKind::OpenBlock))
}

/// Returns the first word of a statement. Fails with `EmptyStatement` or `ExpectedWord`.
fn first_word(clause: Clause, first: Option<ConfigToken>) -> Result<ConfigToken, ConfigError>
    ensures { result ≡ first_word clause first }
{
    match first {
        Some(token) => word_token(token),
        None => Err(error_at_end(clause, ConfigErrorKind::EmptyStatement)),
    }
}

/// Reads a statement that a semicolon ends.
fn simple_clause(
    text: &[u8],
    state: ConfigState,
    clause: Clause,
    words: ClauseWords,
) -> Result<ConfigStep, ConfigError>
    ensures { result ≡ statement_in Ends text.now state clause words }
{
    match first_word(clause, words.first) {
        Ok(first) => {
            let keyword = read_keyword(first.text(text));
            simple_step(keyword, text, state, clause, words, first)
        }
        Err(error) => Err(error),
    }
}

/// Reads the words before an opening brace.
fn open_clause(
    text: &[u8],
    state: ConfigState,
    clause: Clause,
    words: ClauseWords,
) -> Result<ConfigStep, ConfigError>
    ensures { result ≡ statement_in Opens text.now state clause words }
{
    match first_word(clause, words.first) {
        Ok(first) => {
            let keyword = read_keyword(first.text(text));
            open_step(keyword, state, clause, words, first)
        }
        Err(error) => Err(error),
    }
}

/// Reads a clause after a statement.
fn statement_step(
    text: &[u8],
    state: ConfigState,
    clause: Clause,
    words: ClauseWords,
) -> Result<ConfigStep, ConfigError>
    ensures { result ≡ statement_in clause.end text.now state clause words }
{
    match clause.end {
        ClauseEnd::Ends => simple_clause(text, state, clause, words),
        ClauseEnd::Opens => open_clause(text, state, clause, words),
        ClauseEnd::Closes => close_step(state, clause),
        ClauseEnd::Last => end_step(state, clause),
    }
}

/// Counts an opening brace in a block that is passed over.
fn deeper(state: ConfigState, clause: Clause) -> Result<ConfigStep, ConfigError>
    ensures { result ≡ deeper state clause }
{
    if 255 <= state.depth {
        return Err(error_at_end(clause, ConfigErrorKind::TooDeep));
    }
    let state = ConfigState {
        depth: state.depth + 1,
        ..state
    };
    pass(state, clause)
}

/// Counts a closing brace in a block that is passed over.
fn less_deep(state: ConfigState, clause: Clause) -> Result<ConfigStep, ConfigError>
    ensures { result ≡ less_deep state clause }
{
    let state = ConfigState {
        depth: state.depth.saturating_sub(1),
        last: LastClause::PassedBlock,
        ..state
    };
    pass(state, clause)
}

/// Reads a clause in a block that is passed over.
fn passed_step(state: ConfigState, clause: Clause) -> Result<ConfigStep, ConfigError>
    ensures { result ≡ passed_in clause.end state clause }
{
    match clause.end {
        ClauseEnd::Ends => pass(state, clause),
        ClauseEnd::Opens => deeper(state, clause),
        ClauseEnd::Closes => less_deep(state, clause),
        ClauseEnd::Last => Err(error_at_token(state.passed_word, ConfigErrorKind::OpenBlock)),
    }
}

/// Reads a clause after a block that is passed over.
fn after_passed(state: ConfigState, clause: Clause) -> Result<ConfigStep, ConfigError>
    ensures { result ≡ after_passed clause.end state clause }
{
    match clause.end {
        ClauseEnd::Ends => {
            let state = ConfigState {
                last: LastClause::Statement,
                ..state
            };
            pass(state, clause)
        }
        ClauseEnd::Opens => {
            let state = ConfigState { depth: 1, ..state };
            pass(state, clause)
        }
        _ => Err(error_at_end(clause, ConfigErrorKind::MissingSemicolon)),
    }
}

/// Returns the error of a semicolon that is missing before a word, or before the end of a clause.
fn before_word(clause: Clause, first: Option<ConfigToken>) -> Result<ConfigStep, ConfigError>
    ensures { result ≡ before_word clause first }
{
    match first {
        Some(token) => Err(error_at_token(token, ConfigErrorKind::MissingSemicolon)),
        None => Err(error_at_end(clause, ConfigErrorKind::MissingSemicolon)),
    }
}

/// Reads a clause after `options`, a view or a zone.
fn after_block(
    state: ConfigState,
    clause: Clause,
    words: ClauseWords,
) -> Result<ConfigStep, ConfigError>
    ensures { result ≡ after_block clause.end state clause words }
{
    match clause.end {
        ClauseEnd::Ends => {
            if 0 < clause.words {
                return before_word(clause, words.first);
            }
            let state = ConfigState {
                last: LastClause::Statement,
                ..state
            };
            pass(state, clause)
        }
        _ => before_word(clause, words.first),
    }
}

/// Reads a clause.
fn clause_step(text: &[u8], state: ConfigState, clause: Clause) -> Result<ConfigStep, ConfigError>
    ensures { result ≡ clause_step text.now state clause }
{
    if 0 < state.depth {
        return passed_step(state, clause);
    }
    match state.last {
        LastClause::Statement => { statement_step(text, state, clause, clause_words(text, clause)) }
        LastClause::PassedBlock => after_passed(state, clause),
        LastClause::Block => after_block(state, clause, clause_words(text, clause)),
    }
}

/// Reads the clause at an offset of a `named.conf`, in a state. Returns what it means for zones, the
/// state after it, and the offset of the next clause.
///
/// Fails with the first error of the clause: a comment, a quoted string or a block that is not
/// closed; a semicolon, a word or a block that is missing; a brace that closes nothing; a path that
/// is not quoted, or a keyword that is; a value that the statement doesn't have.
pub fn next_step(text: &[u8], from: usize, state: ConfigState) -> Result<ConfigStep, ConfigError>
    ensures { result ≡ next_step text.now from state }
{
    match next_clause(text, from) {
        Ok(clause) => clause_step(text, state, clause),
        Err(error) => Err(error),
    }
}
