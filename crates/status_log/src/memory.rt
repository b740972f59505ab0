//! What a log keeps in memory.
ghost use Rattle.std.specs.Prelude.{◌≡◌};

use crate::LogEntry;
use crate::names::read_names;
use crate::payload::{Change, Opening, change_in};
use stab_base::{RowId, Version};
use std::alloc::{AllocError, Global};
use vault::{Fold, PAYLOAD_MAX};

// How many bytes go before the names of an opening.
const HEAD_LEN: usize = 53;

/// The open entry. While none is open, the entry is a place for the next.
#[derive(Drop)]
pub struct LogMemory {
    pub(crate) entry: LogEntry,
    pub(crate) is_open: bool,
}

impl LogMemory {
    ghost use Rattle.std.specs.Prelude.{◌≡◌, ◌+◌, ◌*◌, ◌≤◌, length, drop, Some};
    ghost use Rattle.std.specs.Vec.{vec_capacity};
    ghost use Rattle.status_log.specs.Payload.{entry_in, without};
    ghost use Rattle.status_log.specs.Memory.{pending_in};

    // Puts an entry in place of the one that is there.
    fn open(&mut self, opening: Opening, payload: &[u8])
        requires size { 53 + 12 * opening.count ≤ length payload.now }
        requires room { opening.count ≤ vec_capacity self.old.entry.old }
        ensures pending { pending_in self.new ≡ Some (entry_in opening (drop 53 payload.now)) }
        ensures capacity { vec_capacity self.old.entry.old ≤ vec_capacity self.new.entry.old }
    {
        let entry = &mut self.entry;
        entry.version = opening.version;
        entry.row = opening.row;
        entry.client = opening.client;
        entry.number = opening.number;
        entry.base = opening.base;
        entry.fresh = opening.fresh;
        read_names(&mut entry.old, &payload[HEAD_LEN..], opening.count as usize);
        self.is_open = true;
    }

    // Closes the entry of this version, if it is open.
    fn close(&mut self, version: Version)
        ensures closed { pending_in self.new ≡ without (pending_in self.old) version }
        ensures kept { self.new.entry ≡ self.old.entry }
    {
        if self.entry.version == version {
            self.is_open = false;
        }
    }
}

impl Fold for LogMemory {
    type Change = Change;

    ghost use Rattle.status_log.specs.Memory.{Fits, HasSpare, Says};

    ghost fits = { Fits };

    ghost has_spare = { HasSpare };

    ghost says = { Says };

    #[tactic(auto, unfolding(crate::specs::Payload::pending_of))]
    fn start(alloc: Global) -> Self {
        LogMemory {
            entry: LogEntry {
                version: 0,
                row: RowId::from_bytes([0; 16]),
                client: 0,
                number: 0,
                base: 0,
                fresh: 0,
                old: Vec::new(alloc),
            },
            is_open: false,
        }
    }

    fn reserve(&mut self, _payloads: u64, bytes: u64) -> Result<(), AllocError> {
        let most = bytes.min(PAYLOAD_MAX as u64) as usize;
        self.entry.old.reserve(most / 12 + 1)
    }

    fn read(_alloc: Global, payload: &[u8]) -> Result<Change, AllocError> {
        Ok(change_in(payload))
    }

    fn note(&mut self, change: Change, payload: &[u8], _index: u64) -> Result<(), AllocError> {
        match change {
            Change::Open(opening) => {
                let missing = (opening.count as usize).saturating_sub(self.entry.old.len());
                self.entry.old.reserve(missing)?;
                self.open(opening, payload);
            }
            Change::Close(version) => self.close(version),
            Change::Nothing => {}
        }
        Ok(())
    }
}
