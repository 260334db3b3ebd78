//! A file that is kept in memory alone.

ghost use Rattle.std.specs.Prelude.{◌≡◌, ◌≤◌, ◌+◌, length, false, true, refl, [], is_ok, OnOk};
ghost use Rattle.sqlite_disk.specs.Disk.{CountsFault, Cut, Holds, MoreFaults, Torn};
ghost use Rattle.sqlite_disk.specs.Refusal.{finds_no_room, is_full_kind, is_no_room};
ghost use Rattle.store_copies.specs.Sheets.{sheet_bytes};

use sqlite_disk::{Disk, Tally, digest_of};
use std::alloc::{AllocError, Global};
use std::io;

/// A file that is kept in memory alone. What is written counts as kept at once, so a sync has
/// nothing to do: a store over it is as fast as memory, and its bytes then go to a disk in one
/// piece.
#[derive(Drop)]
pub struct Sheet {
    bytes: Vec<u8>,
    /// How many calls have failed.
    failures: u64,
    /// How many of them found other bytes than the caller knows of.
    strays: u64,
}

impl Sheet {
    /// A file without a byte.
    pub(crate) fn new(alloc: Global) -> Sheet
        ensures { sheet_bytes result ≡ [] }
    {
        Sheet::of(Vec::new(alloc))
    }

    /// A file with these bytes.
    pub(crate) fn of(bytes: Vec<u8>) -> Sheet
        ensures { sheet_bytes result ≡ bytes.items }
    {
        Sheet {
            bytes,
            failures: 0,
            strays: 0,
        }
    }

    /// The file's bytes.
    pub fn bytes(&self) -> &[u8]
        ensures { result.now ≡ sheet_bytes self.now }
    {
        &self.bytes
    }

    /// Counts a call that fails, and says why it does.
    fn failed(&mut self, why: io::ErrorKind) -> io::Error
        ensures bytes { self.new.bytes ≡ self.old.bytes }
        ensures strays { self.new.strays ≡ self.old.strays }
        ensures counted { MoreFaults self.old.failures self.new.failures }
        ensures grown { self.old.failures ≤ self.new.failures }
        ensures kind { is_no_room result ≡ is_full_kind why }
    {
        self.failures = self.failures.saturating_add(1);
        io::Error::from(why)
    }

    /// What a call answers that wanted memory.
    fn answered(&mut self, grown: Result<(), AllocError>) -> io::Result<()>
        ensures bytes { self.new.bytes ≡ self.old.bytes }
        ensures strays { self.new.strays ≡ self.old.strays }
        ensures variant { is_ok result ≡ is_ok grown }
        ensures counted { CountsFault result self.old.failures self.new.failures }
        ensures kind { finds_no_room result ≡ false }
    {
        match grown {
            Ok(()) => Ok(()),
            Err(_) => Err(self.failed(io::ErrorKind::OutOfMemory)),
        }
    }
}

impl Disk for Sheet {
    ghost seen = { λ sheet. sheet.bytes.items };

    ghost may_leave = { λ sheet left. left ≡ sheet.bytes.items };

    ghost is_usable = { λ _. true };

    ghost is_clean = { λ _. true };

    ghost is_fair = { λ _ _. true };

    ghost faults = { λ sheet. sheet.failures };

    ghost tally_of = { λ sheet. record { caught = sheet.strays; refused = 0 } };

    ghost key_of = { λ _. 0 };

    ghost seen_may_stay = { λ _. refl };

    ghost fair_if_clean = { λ _ _ _. refl };

    fn len(&mut self) -> io::Result<usize> {
        Ok(self.bytes.len())
    }

    fn read_at(&mut self, at: usize, buf: &mut [u8]) -> io::Result<()> {
        let there = self.bytes.len().saturating_sub(at);
        if there < buf.len() {
            return Err(self.failed(io::ErrorKind::UnexpectedEof));
        }
        if !buf.is_empty() {
            buf.copy_from_slice(&self.bytes[at..at + buf.len()]);
        }
        Ok(())
    }

    fn read_checked(&mut self, key: u64, want: u64, at: usize, buf: &mut [u8]) -> io::Result<()> {
        self.read_at(at, buf)?;
        if digest_of(key, buf) == want {
            return Ok(());
        }
        self.strays = self.strays.saturating_add(1);
        Err(self.failed(io::ErrorKind::InvalidData))
    }

    fn write_at(&mut self, at: usize, bytes: &[u8]) -> io::Result<()> {
        let written = write_into(&mut self.bytes, at, bytes);
        self.answered(written)
    }

    fn set_len(&mut self, len: usize) -> io::Result<()> {
        let resized = resize(&mut self.bytes, len);
        self.answered(resized)
    }

    fn sync(&mut self) -> io::Result<()> {
        Ok(())
    }

    fn may_be_used(&self) -> bool {
        true
    }

    fn tally(&self) -> Tally {
        Tally {
            caught: self.strays,
            refused: 0,
        }
    }

    fn mixes(&self) -> bool {
        false
    }

    // Nobody else can change these bytes, so no secret guards them.
    fn key(&self) -> u64 {
        0
    }
}

/// Makes the file this long: cuts it, or adds zeros.
fn resize(file: &mut Vec<u8>, len: usize) -> Result<(), AllocError>
    ensures len { OnOk result (length file.new.items ≡ len) }
    ensures cut { Cut len file.old.items file.new.items }
{
    file.resize(len, 0)
}

/// Writes the bytes over others.
fn overwrite(file: &mut [u8], at: usize, bytes: &[u8])
    requires { at + length bytes.now ≤ length file.old }
    ensures len { length file.new ≡ length file.old }
    ensures written { Holds file.new at bytes.now }
    ensures torn { Torn at (length bytes.now) file.old file.new }
{
    file[at..at + bytes.len()].copy_from_slice(bytes);
}

/// Writes the bytes into the file, which is made long enough first: where there is no memory for
/// that, no byte changes.
fn write_into(file: &mut Vec<u8>, at: usize, bytes: &[u8]) -> Result<(), AllocError>
    ensures written { OnOk result (Holds file.new.items at bytes.now) }
    ensures torn { Torn at (length bytes.now) file.old.items file.new.items }
{
    let Some(end) = at.checked_add(bytes.len()) else {
        return Err(AllocError);
    };
    let len = file.len().max(end);
    resize(file, len)?;
    overwrite(file, at, bytes);
    Ok(())
}
