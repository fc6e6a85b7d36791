// The schedule file: what its header says, and a reader that borrows it and goes from record to record.
#![tactic(auto)]

ghost use Rattle.std.specs.Prelude.{◌≡◌, ◌||◌, ◌+◌, ◌*◌, ◌≤◌, OnOk, length, eqb};
ghost use Rattle.definitions.specs.Schedule.{version, count_of, file_refusal};
ghost use Rattle.definitions.specs.Merge.{fault};
ghost use Rattle.definitions.specs.Refusal.{code_of};
ghost use Rattle.container.specs.Choice.{ite};
ghost use Rattle.schedule.specs.Proper.{Proper, Plain};
ghost use Rattle.schedule.specs.Records.{Pairs};

use definitions::{Refusal, Version};

// A record: its first byte, its second, and its last two as one number. In version 1 it has no more than two and the number is 0, as it
// has to be in later versions where the action has no use for it: an Option would be turned into that 0.
#[derive(Clone, Copy, PartialEq, Eq, Debug)]
pub struct Record {
    pub first: u8,
    pub second: u8,
    pub extra: u16,
}

// A schedule, read as a file of a version, and the byte at which the next record starts: an iterator is a slice and where it stands.
#[derive(Clone, Copy)]
pub struct Reader<'a> {
    pub schedule: &'a [u8],
    pub version: Version,
    pub at: usize,
}

// ---- the header

// The count that the header states.
#[tactic(auto, unfolding(definitions::specs::Schedule::count_of))]
pub fn count_of(s: &[u8]) -> usize
    requires { 3 ≤ length s.now }
    ensures { result ≡ count_of s.now }
{
    usize::from(u16::from_be_bytes([s[1], s[2]]))
}

// The version that the header states.
pub fn version_of(s: &[u8]) -> Version
    requires { 3 ≤ length s.now }
    ensures { result ≡ version s.now }
{
    s[0]
}

// There are versions 1 to 3.
#[tactic(auto, using(crate::proofs::Laws::known_cases))]
fn is_known(v: Version) -> bool
    ensures { result ≡ (eqb v 1 || (eqb v 2 || eqb v 3)) }
{
    matches!(v, 1 | 2 | 3)
}

// The length of a file of version v with n records; also where the record after them starts.
#[tactic(auto, using(crate::proofs::Laws::length_cases))]
pub fn length_of(v: Version, n: usize) -> usize
    requires { n ≤ 4096 }
    ensures { result ≡ 3 + ite (eqb v 1) 2 4 * n }
{
    match v {
        1 => 3 + 2 * n,
        _ => 3 + 4 * n,
    }
}

// Whether a file is one of the three versions, and as long as it says.
pub fn check(s: &[u8]) -> Result<(), Refusal>
    ensures refusal { code_of result ≡ file_refusal s.now }
    ensures proper { OnOk result (Proper s.now) }
{
    if s.len() < 3 {
        return Err(Refusal::ShortFile);
    }
    let v = s[0];
    if !is_known(v) {
        return Err(Refusal::Version);
    }
    let n = count_of(s);
    if 4096 < n {
        return Err(Refusal::Count);
    }
    if s.len() != length_of(v, n) {
        return Err(Refusal::Length);
    }
    Ok(())
}

// The same of a file that has to be of version 1.
#[tactic(auto, using(crate::proofs::Laws::fault_cases))]
pub fn check_plain(s: &[u8]) -> Result<(), Refusal>
    ensures fault { code_of result ≡ fault s.now }
    ensures plain { OnOk result (Plain s.now) }
{
    if s.len() < 3 {
        return Err(Refusal::ShortFile);
    }
    if s[0] != 1 {
        return Err(Refusal::Version);
    }
    check(s)
}

// ---- the records

// The records of a file of version 1, two bytes each.
pub fn records(s: &[u8]) -> &[[u8; 2]]
    requires { Plain s.now }
    ensures { Pairs s.now result.now }
{
    s[3..].as_chunks::<2>().0
}

impl<'a> Reader<'a> {
    ghost use Rattle.std.specs.Prelude.{◌≡◌};

    // A reader of a file of version v, at a position.
    pub fn new(schedule: &'a [u8], version: Version, at: usize) -> Self
        ensures file { result.schedule ≡ schedule.entry }
        ensures version { result.version ≡ version }
        ensures position { result.at ≡ at }
    {
        Reader {
            schedule,
            version,
            at,
        }
    }
}

impl Iterator for Reader<'_> {
    type Item = Record;

    ghost use Rattle.schedule.specs.Reader.{Reads, left_in};

    ghost next_gives = { Reads };

    ghost remaining = { left_in };

    // The record at the position, of two bytes or of four; the position is then that of the one after. An arm for each
    // of the two widths: the version is known at run time alone, so a width in a type would be chosen by the same two arms, and be no plainer.
    fn next(&mut self) -> Option<Record> {
        let rest = self.schedule.get(self.at..)?;
        match rest {
            [first, second, ..] if self.version == 1 => {
                self.at += 2;
                Some(Record {
                    first: *first,
                    second: *second,
                    extra: 0,
                })
            }
            [first, second, high, low, ..] if self.version != 1 => {
                let extra = u16::from_be_bytes([*high, *low]);
                self.at += 4;
                Some(Record {
                    first: *first,
                    second: *second,
                    extra,
                })
            }
            _ => None,
        }
    }
}
