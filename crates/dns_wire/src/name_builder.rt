//! A builder of names.
ghost use Rattle.std.specs.Prelude.{ℕ, ◌≡◌, ◌<◌, ◌≤◌, ◌+◌, ◌-◌, [], ◌∷◌, ◌++◌, length, slice_set, OnOk, OnErr, IsOk};
ghost use Rattle.dns_wire.specs.Wire.{wire_label};
ghost use Rattle.dns_wire.specs.Building.{AnswersGrowth, needed_for_octet, grown};
ghost use Rattle.dns_wire.specs.Opened.{Opened, Opened-prop};
ghost use Rattle.dns_wire.specs.Limits.{max_label, max_relative};

use crate::error::PushError;
use crate::label::MAX_LABEL;
use crate::name::Name;
use crate::relative::{MAX_RELATIVE, RelativeName};
use arrayvec::ArrayVec;
use dns_octets::{AsOctets, AsOctetsMut, EmptyBuilder, FreezeBuilder, OctetsBuilder, ShortBuf};
use std::marker::Model;

// Adds an octet to the last label of the octets, which has `count` octets.
fn lengthen<B: OctetsBuilder + AsOctetsMut>(
    inner: &mut B,
    count: usize,
    octet: u8,
) -> Result<(), ShortBuf>
    requires few { count < max_label }
    requires place { count < length (B.octets inner.old) }
    ensures ok { OnOk result (B.octets inner.new ≡ slice_set (B.octets inner.old ++ octet ∷ []) (length (B.octets inner.old) - count - 1) (count + 1)) }
    ensures err { OnErr result (B.octets inner.new ≡ B.octets inner.old) }
    ensures fits { 1 ≤ B.room.fits - length (B.octets inner.old) → IsOk result }
    ensures within { OnOk result (length (B.octets inner.old) + 1 ≤ B.room.capacity) }
{
    let len = inner.as_slice().len();
    inner.append_slice(&[octet])?;
    let octets = inner.as_slice_mut();
    octets[len - count - 1] = count as u8 + 1;
    Ok(())
}

// Adds an octet to the last label of the octets, which has `count` octets; if `count` is 0, appends
// a label of that one octet.
fn grow<B: OctetsBuilder + AsOctetsMut>(
    inner: &mut B,
    count: usize,
    octet: u8,
) -> Result<(), PushError>
    requires few { count ≤ max_label }
    requires place { 0 < count → count < length (B.octets inner.old) }
    ensures answers { AnswersGrowth (length (B.octets inner.old) + needed_for_octet count) (count + 1) B.room result }
    ensures ok { OnOk result (B.octets inner.new ≡ grown (B.octets inner.old) count octet) }
    ensures err { OnErr result (B.octets inner.new ≡ B.octets inner.old) }
{
    let len = inner.as_slice().len();
    if count == 0 {
        if len > MAX_RELATIVE - 2 {
            return Err(PushError::LongName);
        }
        return inner
            .append_slice(&[1, octet])
            .map_err(|_| PushError::ShortBuf);
    }
    if len >= MAX_RELATIVE {
        return Err(PushError::LongName);
    }
    if count == MAX_LABEL {
        return Err(PushError::LongLabel);
    }
    lengthen(inner, count, octet).map_err(|_| PushError::ShortBuf)
}

// Returns the wire format of a label: its length octet and its octets.
fn wire_label(label: &[u8]) -> ArrayVec<u8, 64>
    requires { length label.now ≤ max_label }
    ensures { result.items ≡ wire_label label.now }
{
    let mut octets = ArrayVec::new();
    octets.push(label.len() as u8);
    octets.try_extend_from_slice(label).unwrap();
    octets
}

// Appends a whole label.
fn append_whole<B: OctetsBuilder>(inner: &mut B, label: &[u8]) -> Result<(), PushError>
    ensures answers { AnswersGrowth (length (B.octets inner.old) + (length label.now + 1)) (length label.now) B.room result }
    ensures ok { OnOk result (B.octets inner.new ≡ B.octets inner.old ++ wire_label label.now) }
    ensures err { OnErr result (B.octets inner.new ≡ B.octets inner.old) }
{
    let len = inner.as_slice().len();
    if len >= MAX_RELATIVE || label.len() >= MAX_RELATIVE - len {
        return Err(PushError::LongName);
    }
    if label.len() > MAX_LABEL {
        return Err(PushError::LongLabel);
    }
    let octets = wire_label(label);
    inner
        .append_slice(octets.as_slice())
        .map_err(|_| PushError::ShortBuf)
}

/// A builder of a name: finished labels, and possibly an open one.
#[derive(Drop)]
pub struct NameBuilder<B: OctetsBuilder> {
    inner: B,
    current: usize,
    ghost opened: { Opened (B.octets inner) current } by { Opened-prop (B.octets inner) current },
}

impl<B: OctetsBuilder> Model for NameBuilder<B> {
    ghost use Rattle.std.specs.Prelude.{ℕ, ◌≤◌, ◌<◌, ◌++◌, All, length};
    ghost use Rattle.dns_wire.specs.Building.{Naming, closed};
    ghost use Rattle.dns_wire.specs.Wire.{IsPlain, wire_length};
    ghost use Rattle.dns_wire.specs.Limits.{max_relative};

    ghost Value = { Naming };

    ghost view = { λ b. record { labels = b.opened.0.0; current = b.opened.0.1 } };

    ghost invariant = { λ b. All IsPlain (b.opened.0.0 ++ closed b.opened.0.1) × (wire_length (b.opened.0.0 ++ closed b.opened.0.1) ≤ max_relative) };
}

impl<B: OctetsBuilder> NameBuilder<B> {
    ghost use Rattle.std.specs.Prelude.{◌≡◌, ◌≢◌, ◌<◌, ◌↔◌, ◌+◌, ◌++◌, [], ◌∷◌, IsTrue, OnOk, OnErr, length};
    ghost use Rattle.dns_wire.specs.Building.{AnswersGrowth, AnswersRoot, all_labels, with_octet, with_label, no_labels, ended};
    ghost use Rattle.dns_wire.specs.Wire.{wire_length};

    /// Returns a builder without labels, without allocating.
    pub fn new(alloc: B::Alloc) -> Self
    where
        B: EmptyBuilder,
        ensures { result ≡ no_labels }
    {
        NameBuilder {
            inner: B::empty(alloc),
            current: 0,
        }
    }

    /// Returns whether a label is open.
    pub fn in_label(&self) -> bool
        ensures { IsTrue result ↔ (self.now.current ≢ []) }
    {
        self.current > 0
    }

    /// Returns whether there is no label, finished or open.
    pub fn is_empty(&self) -> bool
        ensures { IsTrue result ↔ (all_labels self.now ≡ []) }
    {
        self.inner.as_slice().is_empty()
    }

    /// Adds an octet to the open label, or opens a label if there isn't one.
    ///
    /// Fails with [`PushError::LongName`] if the name would exceed 254 octets, else with
    /// [`PushError::LongLabel`] if the label would exceed 63, else with [`PushError::ShortBuf`] if
    /// the buffer lacks capacity or an allocation fails. An error changes nothing.
    pub fn push(&mut self, octet: u8) -> Result<(), PushError>
    where
        B: AsOctetsMut,
        ensures answers { AnswersGrowth (wire_length (all_labels (with_octet self.old octet))) (length self.old.current + 1) B.room result }
        ensures ok { OnOk result (self.new ≡ with_octet self.old octet) }
        ensures err { OnErr result (self.new ≡ self.old) }
    {
        grow(&mut self.inner, self.current, octet)?;
        self.current += 1;
        Ok(())
    }

    /// Closes the open label. Does nothing if there isn't one.
    pub fn end_label(&mut self)
        ensures { self.new ≡ ended self.old }
    {
        self.current = 0;
    }

    /// Closes the open label and appends a whole label, of at least one octet. Fails as
    /// [`push`](Self::push) does, with the checks in the same order. An error changes nothing.
    pub fn append_label(&mut self, label: &[u8]) -> Result<(), PushError>
        requires { 0 < length label.now }
        ensures answers { AnswersGrowth (wire_length (all_labels (with_label self.old label.now))) (length label.now) B.room result }
        ensures ok { OnOk result (self.new ≡ with_label self.old label.now) }
        ensures err { OnErr result (self.new ≡ self.old) }
    {
        append_whole(&mut self.inner, label)?;
        self.current = 0;
        Ok(())
    }

    /// Closes the open label and returns the relative name.
    pub fn finish(self) -> RelativeName<B::Octets>
    where
        B: FreezeBuilder,
        ensures { result ≡ all_labels self }
    {
        RelativeName {
            octets: self.inner.freeze(),
        }
    }

    /// Closes the open label, appends the root and returns the absolute name. Fails with
    /// [`PushError::ShortBuf`] if the root doesn't fit or an allocation fails.
    pub fn into_name(self) -> Result<Name<B::Octets>, PushError>
    where
        B: FreezeBuilder + Drop,
        ensures { AnswersRoot (all_labels self) B.room result }
    {
        let mut inner = self.inner;
        match inner.append_slice(&[0]) {
            Ok(()) => Ok(Name {
                octets: inner.freeze(),
            }),
            Err(_) => Err(PushError::ShortBuf),
        }
    }
}

/// The octets of the labels so far, as if the open one were closed.
impl<B: OctetsBuilder> AsOctets for NameBuilder<B> {
    ghost use Rattle.dns_wire.specs.Wire.{wire};
    ghost use Rattle.dns_wire.specs.Building.{all_labels};

    ghost octets = { λ b. wire (all_labels b) };

    fn as_slice(&self) -> &[u8] {
        AsOctets::as_slice(&self.inner)
    }
}
