//! Journals that name servers write beside zone files.
use crate::shown::Shown;
use std::fs::metadata;
use std::io;

/// Returns whether a journal with octets is beside a file.
pub fn has_journal(rt: &HostRuntime, file: &str) -> io::Result<bool> {
    if file == "-" {
        return Ok(false);
    }
    let journal = format!(in rt.alloc(); "{file}.jnl")?;
    match metadata(rt, journal.as_str()) {
        Ok(found) => Ok(found.is_file() && found.len() > 0),
        Err(_) => Ok(false),
    }
}

/// Reports that a journal is beside a file.
pub fn report_journal(rt: &HostRuntime, file: &str) -> io::Result<()> {
    let file = Shown(file);
    eprintln!(rt; "{file}: a journal is beside it; the server may have newer records (rndc sync)")
}

/// Reports the journals that are beside files.
pub fn report_journals(rt: &HostRuntime, files: &[&str]) -> io::Result<()> {
    for file in files {
        if has_journal(rt, file)? {
            report_journal(rt, file)?;
        }
    }
    Ok(())
}
