//! Appends octets, texts and numbers one after another.
ghost use Rattle.std.specs.Prelude.{◌≡◌, ◌++◌, OnOk};
ghost use Rattle.std.specs.Fmt.{decimal};

use itoa::Buffer;
use std::alloc::{AllocError, Allocator};

/// Appends octets, and a number after them.
#[inline(always)]
pub fn push_number<A: Allocator>(
    out: &mut Vec<u8, A>,
    before: &[u8],
    number: usize,
) -> Result<(), AllocError>
    ensures { OnOk result (out.new.items ≡ out.old.items ++ before.now ++ decimal number) }
{
    let mut buffer = Buffer::new();
    out.extend_from_slice(before)?;
    out.extend_from_slice(buffer.format(number).as_bytes())
}

/// Appends octets, and a text after them.
#[inline(always)]
pub fn push_text<A: Allocator>(
    out: &mut Vec<u8, A>,
    before: &[u8],
    text: &str,
) -> Result<(), AllocError>
    ensures { OnOk result (out.new.items ≡ out.old.items ++ before.now ++ text.now) }
{
    out.extend_from_slice(before)?;
    out.extend_from_slice(text.as_bytes())
}
