//! Devices with no row: which are such, and how they are made such.
ghost use Rattle.std.specs.Prelude.{◌≡◌, [], OnOk, IfOk};
ghost use Rattle.vault.specs.Standing.{IsUp};
ghost use Rattle.row_store.specs.Standing as rows;
ghost use Rattle.store_commit.specs.Bare.{has_no_rows, is_bare, Clears};
ghost use Rattle.store_commit.specs.Standing.{devs, writes_of, AreSound, AreLookedAt, HaveOpenings, IsReady};
ghost use Rattle.store_commit.specs.Standing.{NothingHidden};
ghost use Rattle.store_commit.specs.Scan.{ReadsRows, Asks};
ghost use Rattle.store_commit.specs.TakesOn.{AllLeave};
ghost use Rattle.store_commit.specs.Unset.{KeepsUnset, HasCause};

use crate::devs::TableDevs;
use crate::fault::{CommitFault, of_rows};
use disk_trait::Disk;
use row_store::{RowDev, RowFault};

// Whether a device has no row and no subscription.
fn has_no_rows<D: Disk + Drop>(row_dev: &mut RowDev<D>) -> Result<bool, RowFault>
    requires up { IsUp (rows.vault_of row_dev.old) }
    requires looked { rows.IsLookedAt D.state row_dev.old }
    ensures reads { ReadsRows D.state D.images row_dev.old row_dev.new result }
    ensures none { IfOk result (λ none. none ≡ has_no_rows (rows.held D.state row_dev.old)) }
{
    let ids = row_dev.ids()?;
    let subs = row_dev.subs()?;
    Ok(ids.len() == 0 && subs.len() == 0)
}

impl<D: Disk + Drop> TableDevs<D> {
    // Whether the devices have no row, no subscription, no chunk and no open entry.
    fn is_bare(&mut self) -> Result<bool, CommitFault>
        requires { AreLookedAt D.state self.old }
        ensures asks { Asks D.state D.images self.old self.new result }
        ensures bare { IfOk result (λ bare. bare ≡ is_bare (devs D.state self.old)) }
        ensures agenda { self.new.agenda ≡ self.old.agenda }
        ensures scanned { self.new.scanned ≡ self.old.scanned }
    {
        let no_rows = of_rows(has_no_rows(&mut self.rows))?;
        let names = self.chunks.names()?;
        let is_open = self.log.pending().is_some();
        Ok(no_rows && names.len() == 0 && !is_open)
    }

    // Takes away what writes have left that were cut short. The devices are then at rest.
    fn open_all(&mut self) -> Result<(), CommitFault>
        requires looked { AreLookedAt D.state self.old }
        requires room { HaveOpenings D.state self.old }
        ensures fuse { KeepsUnset D.state self.old self.new }
        ensures cause { HasCause D.state self.old self.new result }
        ensures rests { OnOk result (IsReady D.state self.new []) }
        ensures same { OnOk result (devs D.state self.new ≡ devs D.state self.old) }
        // Where the files stand for what is held, a crash at any moment leaves it.
        ensures leave { AreSound D.state self.old → AllLeave D.state D.images self.old self.new }
        ensures agenda { self.new.agenda ≡ self.old.agenda }
        ensures scanned { self.new.scanned ≡ self.old.scanned }
    {
        self.chunks.open_write()?;
        self.rows.open_write()?;
        self.log.open_write()?;
        Ok(())
    }

    // Opens the devices, which were looked at, where they have no row; else formats them.
    fn open_or_format(&mut self) -> Result<(), CommitFault>
        requires looked { AreLookedAt D.state self.old }
        requires room { HaveOpenings D.state self.old }
        requires idle { writes_of self.old ≡ [] }
        requires hidden { NothingHidden self.old }
        ensures { Clears D.state D.images self.old self.new result }
    {
        let is_bare = self.is_bare()?;
        if is_bare {
            return self.open_all();
        }
        self.format()
    }

    /// Makes the disks those of a table with no row, whatever they hold: restarts them and looks at them first, and
    /// formats them only where they hold a row, a subscription, a chunk or an open entry. The devices are then at rest.
    pub fn clear(&mut self) -> Result<(), CommitFault>
        ensures { Clears D.state D.images self.old self.new result }
    {
        self.restart(0);
        self.look()?;
        self.open_or_format()
    }
}
