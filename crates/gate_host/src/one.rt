//! Calls of one gateway.
ghost use Rattle.std.specs.Prelude.{◌≡◌, ◌↔◌, ℕ, Bool, true, false, Option, Some, None, is_some};
ghost use Rattle.std.specs.Prelude.{IfOk, IfErr, OnOk, OnErr, IsErrOf};
ghost use Rattle.gate_tables.specs.Gate.{Gateway as AGateway, Running, Directory, Done, crashed, taken, ticked, tokens};
ghost use Rattle.gate_tables.specs.Gate.{is_spent};
ghost use Rattle.gateway_core.specs.State.{state_of};
ghost use Rattle.gateway_core.specs.declared.gate_fault.GateFault.TheVariants.{Spent};
ghost use Rattle.gate_host.specs.Moves.{up, down, restarted, most_starts};
ghost use Rattle.gate_host.specs.Holds.{IsGate};

use gateway_core::{GateFault, Gateway, Sent};
use stab_base::{Node, Sequence};
use std::alloc::AllocError;
use table_model::Message;

/// Lets a message come in, and hands out what it made the gateway send.
pub(crate) fn take(
    gateway: &mut Gateway,
    from: Node,
    message: &Message,
) -> Result<Sequence<Sent>, GateFault>
    requires { is_some (state_of gateway.old).running ≡ true }
    ensures held { (directory : Directory) (number starts : ℕ) (running : Running)
        → IsGate directory number (up starts running) gateway.old
        → OnOk result (IsGate directory number
        (up starts (taken directory number starts running from message.now).running) gateway.new) }
    ensures sent { (directory : Directory) (number starts : ℕ) (running : Running)
        → IsGate directory number (up starts running) gateway.old
        → IfOk result (λ sent. sent ≡ (taken directory number starts running from message.now).sends) }
    ensures kept { (directory : Directory) (number : ℕ) (state : AGateway)
        → IsGate directory number state gateway.old → OnErr result (IsGate directory number state gateway.new) }
    ensures spent { (directory : Directory) (number starts : ℕ) (running : Running)
        → IsGate directory number (up starts running) gateway.old → (last : ℕ)
        → (IsErrOf result (Spent last) ↔ ((last ≡ tokens) × (is_spent running from message.now ≡ true))) }
{
    gateway.deliver(from, message)?;
    Ok(gateway.take_out().messages)
}

/// Lets a tick come, and hands out what it made the gateway send.
pub(crate) fn tick(gateway: &mut Gateway) -> Result<Sequence<Sent>, AllocError>
    requires { is_some (state_of gateway.old).running ≡ true }
    ensures held { (directory : Directory) (number starts : ℕ) (running : Running)
        → IsGate directory number (up starts running) gateway.old
        → OnOk result (IsGate directory number (up starts (ticked running).running) gateway.new) }
    ensures sent { (directory : Directory) (number starts : ℕ) (running : Running)
        → IsGate directory number (up starts running) gateway.old
        → IfOk result (λ sent. sent ≡ (ticked running).sends) }
    ensures kept { (directory : Directory) (number : ℕ) (state : AGateway)
        → IsGate directory number state gateway.old → OnErr result (IsGate directory number state gateway.new) }
{
    gateway.tick()?;
    Ok(gateway.take_out().messages)
}

/// Starts a gateway that is down, where it hasn't started 2^32 - 1 times; one that is up stays.
pub(crate) fn start(gateway: &mut Gateway) -> Result<(), GateFault>
    ensures held { (directory : Directory) (number : ℕ) (state : AGateway)
        → IsGate directory number state gateway.old
        → OnOk result (IsGate directory number (restarted state) gateway.new) }
    ensures kept { (directory : Directory) (number : ℕ) (state : AGateway)
        → IsGate directory number state gateway.old → OnErr result (IsGate directory number state gateway.new) }
    ensures spent { (directory : Directory) (number : ℕ) (state : AGateway)
        → IsGate directory number state gateway.old → (last : ℕ)
        → (IsErrOf result (Spent last) ↔ ((last ≡ most_starts) × (state ≡ down most_starts))) }
    ensures only { IfErr result (λ e. e ≡ Spent most_starts) }
{
    if gateway.is_up() {
        return Ok(());
    }
    let starts = gateway.starts();
    if starts == u32::MAX {
        return Err(GateFault::Spent {
            last: u64::from(u32::MAX),
        });
    }
    gateway.start(starts + 1);
    Ok(())
}
