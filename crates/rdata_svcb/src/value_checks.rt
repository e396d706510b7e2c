//! The values of service parameters (RFC 9460 sections 7 and 8, RFC 9461 section 5).
ghost use Rattle.std.specs.Prelude.{◌≡◌, ◌≢◌, ℕ, [], MatchBool, MatchOption, IfErr, OnOk, is_some, length};
ghost use Rattle.rdata_svcb.specs.Params.{params_of, value_at};
ghost use Rattle.rdata_svcb.specs.ParamsFaults.{AreAllRight, IsFirstWrong, IsFirstWrongParam, AreRightParams, IsParamsFault, value_fault};
ghost use Rattle.rdata_svcb.specs.Values.{AreWireStrings, AreKeys, AreGroups, IsParamValue, first_missing};

use crate::params::{Param, check_form, first_param};
use crate::template::is_query_path;
use rdata_values::ErrorKind;

/// Key `mandatory` (RFC 9460 section 8).
pub const MANDATORY: u16 = 0;

/// Key `alpn` (RFC 9460 section 7.1).
pub const ALPN: u16 = 1;

/// Key `no-default-alpn` (RFC 9460 section 7.1).
pub const NO_DEFAULT_ALPN: u16 = 2;

/// Key `port` (RFC 9460 section 7.2).
pub const PORT: u16 = 3;

/// Key `ipv4hint` (RFC 9460 section 7.3).
pub const IPV4HINT: u16 = 4;

/// Key `ech` (RFC 9848).
pub const ECH: u16 = 5;

/// Key `ipv6hint` (RFC 9460 section 7.3).
pub const IPV6HINT: u16 = 6;

/// Key `dohpath` (RFC 9461 section 5).
pub const DOHPATH: u16 = 7;

/// Returns whether octets are strings of 1 to 255 octets, each after its length.
fn are_strings(octets: &[u8]) -> bool
    ensures { MatchBool result (AreWireStrings octets.now) (¬ AreWireStrings octets.now) }
{
    let mut rest = octets;
    while !rest.is_empty() {
        let count = usize::from(rest[0]);
        if count == 0 || rest.len() < 1 + count {
            return false;
        }
        rest = &rest[1 + count..];
    }
    true
}

/// Returns whether octets are one or more groups of `size` octets.
fn are_groups(octets: &[u8], size: usize) -> bool
    requires { size ≢ 0 }
    ensures { MatchBool result (AreGroups size octets.now) (¬ AreGroups size octets.now) }
{
    !octets.is_empty() && octets.len() % size == 0
}

/// Returns whether one of the parameters, in wire format, has a key.
fn has_value(params: &[u8], key: u16) -> bool
    ensures { result ≡ is_some (value_at (params_of params.now) key) }
{
    let mut rest = params;
    while let Some(front) = first_param(rest) {
        if front.param.key == key {
            return true;
        }
        rest = front.rest;
    }
    false
}

/// Returns whether octets are keys of two octets, each above 0, above the key before it, and the
/// key of a parameter.
fn are_keys(params: &[u8], octets: &[u8]) -> bool
    ensures { MatchBool result (AreKeys (params_of params.now) 0 octets.now)
        (¬ AreKeys (params_of params.now) 0 octets.now) }
{
    let mut above = 0;
    let mut rest = octets;
    while !rest.is_empty() {
        if rest.len() < 2 {
            return false;
        }
        let key = 256 * u16::from(rest[0]) + u16::from(rest[1]);
        if key <= above || !has_value(params, key) {
            return false;
        }
        above = key;
        rest = &rest[2..];
    }
    true
}

/// Returns whether a value is one that its key allows.
fn is_value(params: &[u8], key: u16, value: &[u8]) -> bool
    ensures { MatchBool result (IsParamValue (params_of params.now) key value.now)
        (¬ IsParamValue (params_of params.now) key value.now) }
{
    match key {
        MANDATORY => !value.is_empty() && are_keys(params, value),
        ALPN => !value.is_empty() && are_strings(value),
        NO_DEFAULT_ALPN => value.is_empty() && has_value(params, ALPN),
        PORT => value.len() == 2,
        IPV4HINT => are_groups(value, 4),
        ECH => !value.is_empty(),
        IPV6HINT => are_groups(value, 16),
        DOHPATH => is_query_path(value),
        _ => true,
    }
}

/// Returns the first parameter, in wire format, whose value its key does not allow.
fn first_wrong(params: &[u8]) -> Option<Param<'_>>
    ensures { MatchOption result (AreAllRight (params_of params.now))
        (λ p. IsFirstWrongParam p.key p.value.now (params_of params.now)) }
{
    let mut rest = params;
    while let Some(front) = first_param(rest) {
        if !is_value(params, front.param.key, front.param.value) {
            return Some(front.param);
        }
        rest = front.rest;
    }
    None
}

/// Returns the key of the first parameter, in wire format, whose value its key does not allow.
pub fn wrong_value(params: &[u8]) -> Option<u16>
    ensures { MatchOption result (AreAllRight (params_of params.now))
        (λ key. IsFirstWrong key (params_of params.now)) }
{
    match first_wrong(params) {
        Some(param) => Some(param.key),
        None => None,
    }
}

/// Returns the first key of a list, in wire format, that no parameter has.
fn first_missing(params: &[u8], octets: &[u8]) -> Option<u16>
    ensures { result ≡ first_missing (params_of params.now) octets.now }
{
    let mut rest = octets;
    while rest.len() > 1 {
        let key = 256 * u16::from(rest[0]) + u16::from(rest[1]);
        if !has_value(params, key) {
            return Some(key);
        }
        rest = &rest[2..];
    }
    None
}

/// Returns the error of a value that its key does not allow.
fn value_fault(params: &[u8], key: u16, value: &[u8]) -> ErrorKind
    ensures { result ≡ value_fault (params_of params.now) key value.now }
{
    if key != MANDATORY {
        return ErrorKind::ParamValue(key);
    }
    match first_missing(params, value) {
        Some(missing) => ErrorKind::MissingParam(missing),
        None => ErrorKind::ParamValue(MANDATORY),
    }
}

/// Fails if octets are not the wire format of parameters with values that their keys allow.
///
/// The wire format is checked first: fails with `ShortParams` if a parameter is truncated, and with
/// `ParamOrder` if keys do not ascend. Then fails with `MissingParam` or `ParamValue` for the first
/// value that is not allowed.
pub fn check_params(octets: &[u8]) -> Result<(), ErrorKind>
    ensures ok { OnOk result (AreRightParams octets.now) }
    ensures fault { IfErr result (λ fault. IsParamsFault fault octets.now) }
    ensures err { IfErr result (λ _. ¬ AreRightParams octets.now) }
{
    check_form(octets)?;
    match first_wrong(octets) {
        None => Ok(()),
        Some(wrong) => Err(value_fault(octets, wrong.key, wrong.value)),
    }
}
