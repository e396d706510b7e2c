//! Shows on a terminal how much was read.
use crate::shown::Shown;
use std::fs::metadata;
use std::io;
use std::io::{IsTerminal, Write};
use std::time::Instant;
use zonetext_lib::progress::{ProgressShare, is_due, progress_share};

/// The progress of a file that takes long.
#[derive(Drop)]
pub struct Progress<'a> {
    rt: &'a HostRuntime,
    file: &'a str,
    /// When reading began, if progress is shown at all.
    start: Option<Instant>,
    octets: u64,
    /// Number of octets of the file, if that is known.
    total: Option<u64>,
    /// The second at which it was shown last.
    shown_at: u64,
}

/// Returns the number of octets of a file, if that is known.
fn total_of(rt: &HostRuntime, file: &str) -> Option<u64> {
    match metadata(rt, file) {
        Ok(found) if found.is_file() => Some(found.len()),
        _ => None,
    }
}

impl<'a> Progress<'a> {
    /// Returns the progress at the beginning of a file.
    pub fn new(rt: &'a HostRuntime, file: &'a str, is_quiet: bool) -> io::Result<Progress<'a>> {
        let start = if is_quiet || !rt.stderr().is_terminal() {
            None
        } else {
            Some(Instant::now(rt)?)
        };
        let total = if start.is_some() && file != "-" {
            total_of(rt, file)
        } else {
            None
        };
        Ok(Progress {
            rt,
            file,
            start,
            octets: 0,
            total,
            shown_at: 0,
        })
    }

    /// Shows how much was read, once a second at most.
    pub fn read(&mut self, count: usize) -> io::Result<()> {
        self.octets = self.octets.saturating_add(count as u64);
        let Some(start) = self.start else {
            return Ok(());
        };
        let seconds = start.elapsed(self.rt)?.as_secs();
        if !is_due(seconds, self.shown_at) {
            return Ok(());
        }
        self.shown_at = seconds;
        self.show(seconds)?;
        self.rt.stderr().flush()
    }

    /// Shows how much was read in a number of seconds: if the size is known, the share of it and the
    /// time that is left. With included files more may be read.
    fn show(&self, seconds: u64) -> io::Result<()> {
        let file = Shown(self.file);
        let total = self.total.unwrap_or(0);
        let (octets, megabytes) = (self.octets, total / 1_000_000);
        match progress_share(octets, total, seconds) {
            Some(
                ProgressShare {
                    percent,
                    seconds_left,
                },
            ) => eprint!(self.rt;
                "\r{file}: {percent} % of {megabytes} MB, {seconds_left} s left\u{1b}[K"
            ),
            None => {
                let megabytes = octets / 1_000_000;
                eprint!(self.rt; "\r{file}: {megabytes} MB read\u{1b}[K")
            }
        }
    }

    /// Removes what was shown.
    pub fn clear(&self) -> io::Result<()> {
        if self.shown_at == 0 {
            return Ok(());
        }
        eprint!(self.rt; "\r\u{1b}[K")?;
        self.rt.stderr().flush()
    }
}
