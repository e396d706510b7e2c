//! Service parameters in wire format (RFC 9460 section 2.2), parsed without memory.
//!
//! A parameter is a key of two octets, the length of its value in two octets, and the value. Keys
//! ascend, so each key occurs once.
ghost use Rattle.std.specs.Prelude.{◌≡◌, ◌≢◌, ℕ, ◌+◌, ◌-◌, ◌<◌, ◌≤◌, List, None, [], ◌∷◌, ◌++◌, IfOk, IfErr, OnErr, OnOk, MatchOption, MatchResult, length, take, drop};
ghost use Rattle.rdata_svcb.specs.Params.{pair, value_at, param, params_from, params_wire, params_of, BeginsNoParam, HasFittingValues, IsParams, IsUnsettled};
ghost use Rattle.rdata_svcb.specs.ParamsFaults.{IsFormFault, SettlesLast, FindsPlace};

use rdata_values::ErrorKind;
use std::marker::Model;

/// A service parameter: its key, and the octets of its value.
#[derive(Clone, Copy)]
pub struct Param<'a> {
    pub key: u16,
    pub value: &'a [u8],
}

/// A service parameter, and the octets after it.
#[derive(Clone, Copy)]
pub(crate) struct FirstParam<'a> {
    pub(crate) param: Param<'a>,
    pub(crate) rest: &'a [u8],
}

/// Returns the parameter that octets begin with.
pub(crate) fn first_param(octets: &[u8]) -> Option<FirstParam<'_>>
    ensures cases { MatchOption result (BeginsNoParam octets.now)
        (λ f. (octets.now ≡ param f.param.key f.param.value.now ++ f.rest.now) × (f.param.key < 65536) × (length f.param.value.now < 65536)) }
    ensures list { MatchOption result (params_of octets.now ≡ [])
        (λ f. params_of octets.now ≡ pair f.param ∷ params_of f.rest.now) }
{
    if octets.len() < 4 {
        return None;
    }
    let key = u16::from_be_bytes([octets[0], octets[1]]);
    let count = usize::from(u16::from_be_bytes([octets[2], octets[3]]));
    if octets.len() < 4 + count {
        return None;
    }
    let value = &octets[4..4 + count];
    Some(FirstParam {
        param: Param { key, value },
        rest: &octets[4 + count..],
    })
}

/// An iterator over the parameters of a wire format, in their order.
#[derive(Drop)]
pub struct Params<'a> {
    rest: &'a [u8],
}

impl<'a> Model for Params<'a> {
    ghost use Rattle.std.specs.Prelude.{List, ℕ};
    ghost use Rattle.rdata_svcb.specs.Params.{params_of};

    // Keys with the octets of their values.
    ghost Value = { List (ℕ × List ℕ) };

    ghost view = { λ p. params_of p.rest.now };
}

impl<'a> Params<'a> {
    /// Returns the parameters of a wire format. If the octets are not one, returns the parameters
    /// that can be parsed.
    pub fn new(octets: &'a [u8]) -> Self
        ensures { result ≡ params_of octets.now }
    {
        Params { rest: octets }
    }
}

impl<'a> Iterator for Params<'a> {
    type Item = Param<'a>;

    ghost use Rattle.std.specs.Iterator.{YieldsFirstBy, item_count};
    ghost use Rattle.rdata_svcb.specs.Params.{pair};

    ghost next_gives = { YieldsFirstBy pair (λ left. left) };

    ghost remaining = { item_count (λ left. left) };

    fn next(&mut self) -> Option<Param<'a>> {
        let front = first_param(self.rest)?;
        self.rest = front.rest;
        Some(front.param)
    }
}

/// Fails if octets are not the wire format of parameters. Their values are not checked.
pub(crate) fn check_form(octets: &[u8]) -> Result<(), ErrorKind>
    ensures ok { OnOk result (IsParams octets.now) }
    ensures err { IfErr result (λ fault. IsFormFault fault octets.now) }
{
    let mut rest = octets;
    let mut next = 0;
    while !rest.is_empty() {
        let Some(front) = first_param(rest) else {
            return Err(ErrorKind::ShortParams);
        };
        let key = u32::from(front.param.key);
        if key < next {
            return Err(ErrorKind::ParamOrder(front.param.key));
        }
        next = key + 1;
        rest = front.rest;
    }
    Ok(())
}

/// Returns the offset at which a parameter with a key belongs. Fails with `RepeatedParam` if a
/// parameter has the key.
fn find_place(octets: &[u8], key: u16) -> Result<usize, ErrorKind>
    ensures within { IfOk result (λ place. place ≤ length octets.now) }
    ensures place { (params : List (ℕ × List ℕ)) → HasFittingValues params
        → octets.now ≡ params_wire params → FindsPlace params key octets.now result }
{
    let mut place = 0;
    while let Some(front) = first_param(&octets[place..]) {
        if key < front.param.key {
            break;
        }
        if key == front.param.key {
            return Err(ErrorKind::RepeatedParam);
        }
        place = octets.len() - front.rest.len();
    }
    Ok(place)
}

/// Moves a parameter that was appended after others to its offset by key order, and sets its
/// length.
///
/// The others are the first `at` octets. After them are the key in two octets, two octets for the
/// length, which may have any value, and the parameter's value up to the end. On an error, nothing
/// is changed.
pub fn settle_last(octets: &mut [u8], at: usize) -> Result<(), ErrorKind>
    requires { at + 4 ≤ length octets.old }
    ensures settled { (params : List (ℕ × List ℕ)) (key : ℕ) (value : List ℕ)
        → HasFittingValues params → key < 65536 → at ≡ length (params_wire params)
        → IsUnsettled params key value octets.old
        → SettlesLast params key value octets.new result }
    ensures err { OnErr result (octets.new ≡ octets.old) }
{
    let behind = octets.len() - at;
    if behind - 4 > 65535 {
        return Err(ErrorKind::LongValue);
    }
    let key = u16::from_be_bytes([octets[at], octets[at + 1]]);
    let place = find_place(&octets[..at], key)?;
    let size = ((behind - 4) as u16).to_be_bytes();
    octets[at + 2] = size[0];
    octets[at + 3] = size[1];
    let moved = &mut octets[place..];
    moved.rotate_left(at - place);
    Ok(())
}
