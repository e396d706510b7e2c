//! Finds the end of a line.
ghost use Rattle.zone_stream.specs.Line.{EndsLineAt};

/// Returns the offset after the first line feed of octets, if they have one.
pub(crate) fn line_end(octets: &[u8]) -> Option<usize>
    ensures { EndsLineAt octets.now result }
{
    let mut at = 0;
    while at < octets.len() {
        if octets[at] == b'\n' {
            return Some(at + 1);
        }
        at += 1;
    }
    None
}
