//! The texts of statuses.
ghost use Rattle.c_calls.specs.Reports.{CopiesWhole};
ghost use Rattle.c_calls.specs.Status.{status_text};

use c_calls::outcome::Outcome;
use c_calls::status::status_print;

/// Writes the text of a status: [`status_print`].
#[unsafe(no_mangle)]
pub extern "C" fn dnstext_status_text(status: u32, text: &mut [u8], outcome: &mut Outcome) -> u32
    ensures { CopiesWhole (status_text status) text.old result text.new outcome.new }
{
    status_print(status, text, outcome)
}
