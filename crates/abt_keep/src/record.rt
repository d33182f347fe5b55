//! The record that a store keeps of a source.
ghost use Rattle.std.specs.Prelude.{◌≡◌, ◌≢◌, ◌≤◌, ◌↔◌, length, IsSome, IsErrOf, IfSome, IfOk, Ok};
ghost use Rattle.abt_rate.specs.Limits.{spacing_max};
ghost use Rattle.abt_keep.specs.Record.{IsSpacing, old_record, octets_of, record_in};

use crate::fault::RecordFault;
use std::marker::Model;

/// The least spacing that a rate has, in picoseconds.
const SPACING_MIN: u64 = 234;

/// The greatest, in picoseconds: that of one cell per second.
const SPACING_MAX: u64 = 1_000_000_000_000;

/// The record that a store keeps of a source over a crash (docs/RULES.md, "Kept records"): a number, and a spacing in
/// picoseconds, which some rate may have.
#[derive(Clone, Copy, Debug, PartialEq, Eq)]
pub struct Record {
    number: u32,
    spacing: u64,
}

impl Model for Record {
    ghost use Rattle.abt_keep.specs.Record.{KeptRecord, record_code, IsSpacing};

    ghost Value = { KeptRecord };

    ghost coded = { record_code };

    ghost view = { λ r. record { number = r.number; spacing = r.spacing } };

    ghost invariant = { λ r. IsSpacing r.spacing };

    ghost inverse = { λ r. record { number = r.number; spacing = r.spacing } };
}

impl Record {
    /// The record of a number and a spacing in picoseconds, or `None` if no rate has such a spacing: below 234, or above
    /// 10^12.
    pub fn new(number: u32, spacing: u64) -> Option<Record>
        ensures some { IsSome result ↔ IsSpacing spacing }
        ensures value { IfSome result (λ kept. kept ≡ record { number = number; spacing = spacing }) }
    {
        if spacing < SPACING_MIN || spacing > SPACING_MAX {
            return None;
        }
        Some(Record { number, spacing })
    }

    /// The record of a number that was kept before spacings were: it has the greatest spacing, 10^12 picoseconds.
    pub fn old(number: u32) -> Record
        ensures { result ≡ old_record number }
    {
        Record {
            number,
            spacing: SPACING_MAX,
        }
    }

    /// The number.
    pub fn number(self) -> u32
        ensures { result ≡ self.number }
    {
        self.number
    }

    /// The spacing, in picoseconds.
    pub fn spacing(self) -> u64
        ensures value { result ≡ self.spacing }
        ensures range { IsSpacing result }
    {
        self.spacing
    }

    /// The octets, as stable storage holds them (docs/FORMATS.md, "Kept records").
    pub fn to_octets(self) -> [u8; 12]
        ensures value { result ≡ octets_of self }
        ensures back { record_in result ≡ Ok self }
    {
        let [n3, n2, n1, n0] = self.number.to_be_bytes();
        let [s7, s6, s5, s4, s3, s2, s1, s0] = self.spacing.to_be_bytes();
        [n3, n2, n1, n0, s7, s6, s5, s4, s3, s2, s1, s0]
    }

    /// The record that octets say (docs/FORMATS.md, "Kept records"). Four octets are an old record.
    ///
    /// # Errors
    /// [`RecordFault::Length`] if there are neither 4 nor 12 octets, else [`RecordFault::Spacing`] if no rate has the
    /// spacing.
    pub fn from_octets(octets: &[u8]) -> Result<Record, RecordFault>
        ensures value { result ≡ record_in octets.now }
        ensures length { IsErrOf result RecordFault.Length ↔
            ((length octets.now ≢ 4) × (length octets.now ≢ 12)) }
        ensures back { length octets.now ≡ 12 → IfOk result (λ kept. octets_of kept ≡ octets.now) }
    {
        match octets {
            [n3, n2, n1, n0] => Ok(Record::old(u32::from_be_bytes([*n3, *n2, *n1, *n0]))),
            [n3, n2, n1, n0, s7, s6, s5, s4, s3, s2, s1, s0] => {
                let number = u32::from_be_bytes([*n3, *n2, *n1, *n0]);
                let spacing = u64::from_be_bytes([*s7, *s6, *s5, *s4, *s3, *s2, *s1, *s0]);
                Record::new(number, spacing).ok_or(RecordFault::Spacing)
            }
            _ => Err(RecordFault::Length),
        }
    }
}
