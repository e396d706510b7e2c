//! Decides with which records of a zone file parts begin.
ghost use Rattle.std.specs.Prelude.{◌≡◌, ◌↔◌, [], ◌∷◌, ◌++◌, IfErr, IfOk, IsTrue, List, OnOk, false, true};
ghost use Rattle.std.specs.String.{string_bytes};
ghost use Rattle.zone_record.specs.Borrowed.{IsNoRecord, IsRecordOf};
ghost use Rattle.rdata_fields.specs.declared.record_ref.RecordRef.{RecordRef};
ghost use Rattle.zone_stream.specs.Heads.{BeginsPart, IsBeginError, IsHeadError, IsRepeated, PushesHead};
ghost use Rattle.zone_stream.specs.declared.cut_error.CutError.TheVariants.{NoRecord};
ghost use Rattle.zone_reader.specs.declared.known.NameState.TheVariants.{Unset};
ghost use Rattle.zone_stream.specs.Cutting.{BeginsHere, HasProcessed, IsCutError, IsStoreError, MustStore, NeedsRecord, PassesRecord, owner_changes};
ghost use Rattle.zone_stream.specs.Shares.{no_shares};

use crate::cut_error::CutError;
use crate::head::PartHead;
use crate::shares::Shares;
use dns_octets::AsOctets;
use dns_zone::zonefile_fmt::{DisplayKind, ZonefileFmt};
use rdata_fields::RecordRef;
use rdata_values::RecordType;
use std::alloc::Allocator;
use zone_reader::{NameState, State};
use zone_record::laws::records_hold_values;
use zone_record::{Record, owned_record, record_of};

/// Decides with which records of a file parts begin. A part begins with the first record. It also
/// begins with a record if its owner is not that of the record before, and it is in a later share
/// of the file than the beginning of the current part.
#[derive(Drop)]
pub struct Cutter<A: Allocator> {
    alloc: A,
    shares: Shares,
    /// The owner of the record before.
    owner: NameState,
    /// Whether parts after the first SOA begin with it.
    repeats_soa: bool,
    soa: Option<Record<Vec<u8, A>, Vec<u8, A>>>,
}

/// Returns the record that was read, for as long as `given` is borrowed. Fails with `NoRecord` if
/// the owner is not a name, or the RDATA is not of the type.
fn first_of<'a>(given: &'a RecordRef<'_>) -> Result<Record<&'a [u8], &'a [u8]>, CutError>
    ensures is { IfOk result (IsRecordOf given.now) }
    ensures error { IfErr result (λ e. e ≡ NoRecord) }
    ensures none { IfErr result (λ _. IsNoRecord given.now) }
{
    match record_of(given) {
        Some(one) => Ok(one),
        None => Err(CutError::NoRecord),
    }
}

/// Appends the lines with which a part begins. Fails with `LongTtl` if zone files can't hold one of
/// its TTLs.
fn push_head<Owner: AsOctets, Octets: AsOctets, A: Allocator>(
    lines: &mut String<A>,
    head: &PartHead<'_, Owner, Octets>,
) -> Result<(), CutError>
    ensures pushes { OnOk result (PushesHead head.now (string_bytes lines.old)
        (string_bytes lines.new)) }
    ensures error { IfErr result (IsHeadError head.now) }
{
    if !head.can_be_read() {
        return Err(CutError::LongTtl);
    }
    write!(lines, "{}", head.display_zonefile(DisplayKind::Simple))?;
    Ok(())
}

impl<A: Allocator + Copy> Cutter<A> {
    /// Returns a cutter for a file of this number of octets, before its first record. The file is
    /// cut into at most `count` parts, and at least one. If `repeats_soa`, each part after the
    /// first SOA begins with it.
    pub fn new(alloc: A, octets: usize, count: usize, repeats_soa: bool) -> Cutter<A>
        ensures shares { result.shares ≡ no_shares octets count }
        ensures owner { result.owner ≡ Unset }
        ensures repeats { result.repeats_soa ≡ repeats_soa }
        ensures none { HasProcessed [] result }
    {
        Cutter {
            alloc,
            shares: Shares::new(octets, count),
            owner: NameState::Unset,
            repeats_soa,
            soa: None,
        }
    }

    /// Returns whether a record's owner differs from the one before. Letter case doesn't count.
    fn changes_owner(&self, state: &State) -> bool
        ensures { result ≡ owner_changes self.now.owner state.now.owner }
    {
        match (self.owner.name(), state.owner.name()) {
            (Some(before), Some(owner)) => before != owner,
            _ => true,
        }
    }

    /// Returns whether a part begins with a record whose entry begins at this offset.
    fn begins(&self, state: &State, at: usize) -> bool
        ensures { IsTrue result ↔ BeginsHere self.now state.now at }
    {
        self.shares.may_begin(at) && self.changes_owner(state)
    }

    /// Returns the record that is repeated before the first one of a part.
    fn repeated(&self) -> Option<Record<&[u8], &[u8]>>
        ensures { IsRepeated self.now.soa result }
    {
        match &self.soa {
            Some(soa) => {
                records_hold_values(soa);
                record_of(&soa.borrowed())
            }
            None => None,
        }
    }

    /// Appends the lines of a part that begins with a record.
    fn push_lines(
        &self,
        state: &State,
        given: &RecordRef<'_>,
        lines: &mut String<A>,
    ) -> Result<(), CutError>
        ensures begins { OnOk result (BeginsPart state.now self.now.soa given.now
            (string_bytes lines.old) (string_bytes lines.new)) }
        ensures error { IfErr result (IsBeginError state.now self.now.soa given.now) }
    {
        let first = first_of(given)?;
        let repeated = self.repeated();
        let head = PartHead {
            state,
            repeated,
            first,
        };
        push_head(lines, &head)
    }

    /// Returns whether a record is the first SOA, and is to be repeated.
    fn must_store(&self, given: &RecordRef<'_>) -> bool
        ensures { IsTrue result ↔ MustStore self.now given.now }
    {
        self.repeats_soa && given.rtype == RecordType::SOA && self.soa.is_none()
    }

    /// Stores the first SOA, if it is to be repeated. Fails with `NoRecord` as `first_of` does.
    fn keep_soa(&mut self, given: &RecordRef<'_>) -> Result<(), CutError>
        ensures shares { self.new.shares ≡ self.old.shares }
        ensures owner { self.new.owner ≡ self.old.owner }
        ensures repeats { self.new.repeats_soa ≡ self.old.repeats_soa }
        ensures keeps { (before : List RecordRef) → HasProcessed before self.old
            → OnOk result (HasProcessed (before ++ given.now ∷ []) self.new) }
        ensures error { IfErr result (IsStoreError given.now) }
        ensures needs { IfErr result (λ _. MustStore self.old given.now) }
    {
        if self.must_store(given) {
            let Some(soa) = owned_record(self.alloc, given)? else {
                return Err(CutError::NoRecord);
            };
            self.soa = Some(soa);
        }
        Ok(())
    }

    /// Processes the last record that was read. `state` is the reader's state after it, and `at` is
    /// the offset of its entry. Returns whether a part begins with it. If so, the lines with which
    /// the part begins are appended, up to and with this record, and the part continues with the
    /// text after its entry.
    ///
    /// Fails with `LongTtl` if a part would begin with the record, and zone files can't hold one of
    /// the TTLs in its lines, and with `NoRecord` if the owner is not a name, or the RDATA is not of
    /// the type. Only a record with which a part begins, or the SOA to repeat, can fail. After an
    /// error no further record may be processed.
    pub fn process_record(
        &mut self,
        state: &State,
        at: usize,
        given: &RecordRef<'_>,
        lines: &mut String<A>,
    ) -> Result<bool, CutError>
        ensures is { IfOk result (λ begins. IsTrue begins ↔ BeginsHere self.old state.now at) }
        ensures passes { IfOk result (λ begins. PassesRecord self.old state.now at begins
            self.new) }
        ensures begins { IfOk result (λ begins. begins ≡ true
            → BeginsPart state.now self.old.soa given.now (string_bytes lines.old)
            (string_bytes lines.new)) }
        ensures goes_on { IfOk result (λ begins. begins ≡ false
            → string_bytes lines.new ≡ string_bytes lines.old) }
        ensures repeats { self.new.repeats_soa ≡ self.old.repeats_soa }
        ensures soa { (before : List RecordRef) → HasProcessed before self.old
            → OnOk result (HasProcessed (before ++ given.now ∷ []) self.new) }
        ensures error { IfErr result (IsCutError self.old state.now given.now at) }
        ensures needs { IfErr result (λ _. NeedsRecord self.old state.now given.now at) }
    {
        let begins = self.begins(state, at);
        if begins {
            self.push_lines(state, given, lines)?;
            self.shares.begin(at);
        }
        self.keep_soa(given)?;
        self.owner = state.owner.copied();
        Ok(begins)
    }
}
