//! Texts around a mark.
ghost use Rattle.rdata_tails.specs.Marks.{FindsFirst, FindsLast};

/// The text before a mark, and the text after it.
#[derive(Clone, Copy)]
pub(crate) struct Parts<'a> {
    pub(crate) before: &'a [u8],
    pub(crate) after: &'a [u8],
}

/// Returns the text before the first such mark, and the text after it.
pub(crate) fn around_first(text: &[u8], mark: u8) -> Option<Parts<'_>>
    ensures { FindsFirst mark text.now result }
{
    for (index, byte) in text.iter().enumerate() {
        if *byte == mark {
            return Some(Parts {
                before: &text[..index],
                after: &text[index + 1..],
            });
        }
    }
    None
}

/// Returns the text before the last such mark, and the text after it.
pub(crate) fn around_last(text: &[u8], mark: u8) -> Option<Parts<'_>>
    ensures { FindsLast mark text.now result }
{
    let mut end = text.len();
    while end > 0 {
        if text[end - 1] == mark {
            return Some(Parts {
                before: &text[..end - 1],
                after: &text[end..],
            });
        }
        end -= 1;
    }
    None
}
