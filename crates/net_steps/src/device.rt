//! What a client with a gateway has in memory.
ghost use Rattle.std.specs.Prelude.{◌≡◌};
ghost use Rattle.gated_tables.specs.Devices as tables;
ghost use Rattle.gated_tables.specs.Devices.{is_online, or_zero};
ghost use Rattle.net_steps.specs.Devices.{device_of};

use stab_base::GateNo;

/// A client's gateway, whether its link is up, and the token of its session.
#[derive(Debug, Clone, Copy, PartialEq, Eq)]
pub(crate) struct Device {
    pub(crate) gate: GateNo,
    pub(crate) linked: bool,
    pub(crate) token: Option<u64>,
}

impl Device {
    /// Its link begins down.
    pub(crate) fn new(gate: GateNo) -> Device
        ensures { device_of result ≡ tables.new_device gate }
    {
        Device {
            gate,
            linked: false,
            token: None,
        }
    }

    /// Whether it is registered and its link is up.
    pub(crate) fn is_online(&self) -> bool
        ensures { result ≡ is_online (device_of self.now) }
    {
        self.linked && self.token.is_some()
    }

    /// The token that goes with what the client sends.
    pub(crate) fn stamp(&self) -> u64
        ensures { result ≡ or_zero (device_of self.now).token }
    {
        self.token.unwrap_or(0)
    }
}
