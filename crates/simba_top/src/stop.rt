ghost use Rattle.std.specs.Prelude.{◌≡◌};
ghost use Rattle.simba_top.specs.declared.stop.Stop.TheVariants as stops;
ghost use Rattle.simba_top.specs.Stops.{of_line, of_script, of_world};

use node_steps::WorldFault;
use script_text::{BadLine, ScriptFault};
use stab_io::{Failed, LineFault};
use std::alloc::{AllocError, AllocFailed};

/// Why a run ends before the end of its script.
#[derive(Drop, Clone, Copy)]
pub(crate) enum Stop {
    /// The source failed.
    Read,
    /// The sink failed.
    Put,
    /// The depot failed.
    Depot,
    /// Memory was refused.
    Memory,
    /// The next line is in no grammar.
    BadLine(BadLine),
    /// The next line passes the limit of this number.
    Limit(u32),
    /// The event of the next line sends more bytes than may be sent: limit 10.
    Sent,
}

impl From<LineFault> for Stop {
    ghost from_gives = { λ fault stop. stop ≡ of_line fault };

    fn from(fault: LineFault) -> Stop {
        match fault {
            LineFault::Read => Stop::Read,
            LineFault::LineLimit { .. } => Stop::Limit(3),
            LineFault::InputLimit { .. } => Stop::Limit(1),
            LineFault::Memory => Stop::Memory,
        }
    }
}

impl From<ScriptFault> for Stop {
    ghost from_gives = { λ fault stop. stop ≡ of_script fault };

    fn from(fault: ScriptFault) -> Stop {
        match fault {
            ScriptFault::BadLine(fault) => Stop::BadLine(fault),
            ScriptFault::Limit(limit) => Stop::Limit(limit),
            ScriptFault::Memory => Stop::Memory,
        }
    }
}

impl From<WorldFault> for Stop {
    ghost from_gives = { λ fault stop. stop ≡ of_world fault };

    fn from(fault: WorldFault) -> Stop {
        match fault {
            WorldFault::Limit { code: 10, .. } => Stop::Sent,
            WorldFault::Limit { code, .. } => Stop::Limit(code),
            WorldFault::Depot => Stop::Depot,
            WorldFault::Memory => Stop::Memory,
        }
    }
}

impl From<Failed> for Stop {
    ghost from_gives = { λ _ stop. stop ≡ stops.Put };

    fn from(_e: Failed) -> Stop {
        Stop::Put
    }
}

impl From<AllocError> for Stop {
    ghost from_gives = { λ _ stop. stop ≡ stops.Memory };

    fn from(_e: AllocError) -> Stop {
        Stop::Memory
    }
}

impl<T: Drop> From<AllocFailed<T>> for Stop {
    ghost from_gives = { λ _ stop. stop ≡ stops.Memory };

    fn from(_e: AllocFailed<T>) -> Stop {
        Stop::Memory
    }
}
