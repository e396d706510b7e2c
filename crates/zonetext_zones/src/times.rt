//! The times with which signatures are compared.
use crate::options::{Usage, seconds_of};
use clap::ArgMatches;
use rdata_values::Date;
use std::time::{SystemTime, UNIX_EPOCH};
use zone_dnssec::Times;

/// Returns the seconds since 1970, modulo 2^32.
fn seconds_now<'o>(rt: &HostRuntime) -> Result<u32, Usage<'o>> {
    let Ok(now) = SystemTime::now(rt) else {
        return Err(Usage::Clock);
    };
    match now.duration_since(UNIX_EPOCH) {
        Ok(since) => Ok((since.as_secs() % (1 << 32)) as u32),
        Err(_) => Err(Usage::Clock),
    }
}

/// Returns the instant of an option: by default the present one.
pub fn instant_of<'o>(rt: &HostRuntime, text: Option<&'o str>) -> Result<u32, Usage<'o>> {
    let Some(value) = text else {
        return seconds_now(rt);
    };
    match Date::from_text(value.as_bytes()) {
        Ok(date) if date.is_valid() => Ok(date.seconds()),
        _ => Err(Usage::Value {
            option: "--now",
            value,
            wants: "a time, as 20260131235959 or in seconds since 1970",
        }),
    }
}

/// Returns whether the options say that each zone must be signed, or that no signatures are checked.
pub fn dnssec_of(inner: &ArgMatches) -> Option<bool> {
    if inner.get_flag("dnssec") {
        return Some(true);
    }
    if inner.get_flag("no-dnssec") {
        Some(false)
    } else {
        None
    }
}

/// Returns the times for signatures, if a zone may be checked as a signed one.
pub fn times_of<'o>(
    rt: &HostRuntime,
    inner: &'o ArgMatches,
    has_zone: bool,
) -> Result<Option<Times>, Usage<'o>> {
    if inner.get_flag("dnssec") && !has_zone {
        return Err(Usage::NoZone);
    }
    let margin = seconds_of(inner.get_str("within"), "--within")?.unwrap_or(0);
    let now = inner.get_str("now");
    if !has_zone && now.is_none() {
        return Ok(None);
    }
    let instant = instant_of(rt, now)?;
    if has_zone {
        Ok(Some(Times { instant, margin }))
    } else {
        Ok(None)
    }
}
