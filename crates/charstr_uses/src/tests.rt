//! The caller, over texts of RFC 1035 section 5.1.
use super::*;
use std::process::Abort;

/// Returns whether a result is this text.
fn is_text(made: Result<String, FromStrError>, wanted: &[u8]) -> bool {
    match made {
        Ok(text) => text.as_bytes() == wanted,
        Err(_) => false,
    }
}

#[test]
fn quotes(rt: HostRuntime) {
    let alloc = rt.alloc();
    assert!(rt; is_text(quoted(alloc, r"a\032\;b"), b"\"a ;b\""));
    assert!(rt; is_text(quoted(alloc, r#"\"\\"#), b"\"\\\"\\\\\""));
    assert!(rt; quoted(alloc, r"a\").is_err());
}
