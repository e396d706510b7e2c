//! A state whose last owner is not parsed yet.
ghost use Rattle.std.specs.Prelude.{◌≡◌, ℕ, Bool, List, None, Some, option_map, true};
ghost use Rattle.std.specs.Option.{option_copied};
ghost use Rattle.dns_lexer.specs.EntryTokens.{TokenSeen, token_seen};
ghost use Rattle.zone_reader.specs.Past.{NamedBy};
ghost use Rattle.zone_parts.specs.Inherited.{IsInherited, LeavesMeant, Means};
ghost use Rattle.zone_parts.specs.Passing.{knows_ttl};

use crate::pass::{parse_owner, pass_ttl};
use crate::record::Inherited;
use dns_lexer::entry_tokens::EntryToken;
use rdata_fields::TokenList;
use zone_reader::{NameBuffer, NameState, State};

/// Stores what later entries inherit of a record: its TTL in the state, and the token of its owner, which
/// is not parsed.
#[inline(always)]
pub(crate) fn store_inherited<'t>(
    state: &mut State,
    owner: &mut Option<EntryToken<'t>>,
    inherited: Inherited<'t>,
)
    ensures { (blank : Bool) (end : ℕ) (tokens : List TokenSeen) → knows_ttl state.old ≡ true
        → IsInherited blank tokens (option_map token_seen inherited.entry.owner) inherited.entry.ttl
        → LeavesMeant blank end tokens state.old (option_map token_seen owner.old)
        state.new (option_map token_seen owner.new) }
{
    pass_ttl(state, inherited.ttl);
    match inherited.owner {
        Some(token) => *owner = Some(token),
        None => {}
    }
}

/// Parses a token as a name. An invalid one is a rejected name.
fn named_by(origin: Option<&NameBuffer>, token: EntryToken<'_>) -> NameState
    ensures { NamedBy (option_copied origin.entry) (Some (token_seen token.entry)) result }
{
    let tokens = [token];
    let mut source = TokenList::new(&tokens, 0);
    parse_owner(origin, &mut source)
}

/// Parses the last owner, if it is not parsed yet.
pub(crate) fn parse_last_owner<'t>(state: &mut State, owner: &mut Option<EntryToken<'t>>)
    ensures means { Means state.old (option_map token_seen owner.old) state.new }
    ensures parsed { owner.new ≡ None }
{
    if let Some(token) = *owner {
        state.owner = named_by(state.origin.name(), token);
        *owner = None;
    }
}
