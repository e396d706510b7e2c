//! Splits texts at commas.
ghost use Rattle.std.specs.Option.{option_copied};
ghost use Rattle.rdata_svcb.specs.Items.{IsWithout, SplitsAt};

/// The text before a mark, and the text after it.
#[derive(Clone, Copy)]
pub(crate) struct Split<'a> {
    pub(crate) before: &'a [u8],
    pub(crate) behind: Option<&'a [u8]>,
}

/// Returns the text up to the first such mark, and the text after it if there is one.
pub(crate) fn split_first(text: &[u8], mark: u8) -> Split<'_>
    ensures without { IsWithout mark result.before.now }
    ensures split { SplitsAt mark text.now result.before.now (option_copied result.behind) }
{
    for (index, octet) in text.iter().enumerate() {
        if *octet == mark {
            return Split {
                before: &text[..index],
                behind: Some(&text[index + 1..]),
            };
        }
    }
    Split {
        before: text,
        behind: None,
    }
}
