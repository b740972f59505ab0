ghost use Rattle.std.specs.Prelude.{◌≡◌, ◌++◌, ◌↔◌, [], ℕ, Option, Some, None, true, is_some, OnOk, OnErr, IfOk};
ghost use Rattle.std.specs.Prelude.{IsErrOf};
ghost use Rattle.gate_tables.specs.Gate as gate;
ghost use Rattle.gate_tables.specs.Gate.{taken, ticked, crashed, started, is_spent, tokens};
ghost use Rattle.gateway_core.specs.State.{state_of, gathered, number_of, directory_of};

use crate::directory::Directory;
use crate::gate_fault::GateFault;
use crate::out::{Out, Sent};
use crate::running::Running;
use crate::site::Site;
use stab_base::{GateNo, Node, Sequence};
use std::alloc::{AllocError, Global};
use std::mem;
use table_model::Message;

/// A gateway. It keeps clients' sessions and timers in memory alone, passes messages on between clients and Stores, and
/// tells clients of changes.
///
/// A message takes logarithmic time in sessions and timers, besides its copy; a change of a table and a tick take time
/// in the sessions and their timers.
#[derive(Drop)]
pub struct Gateway {
    site: Site,
    running: Option<Running>,
    messages: Vec<Sent>,
}

impl Gateway {
    /// A gateway that is up and has no sessions. It has started 0 times.
    pub fn new(alloc: Global, number: GateNo, directory: Directory) -> Result<Gateway, AllocError>
        ensures state { IfOk result (λ made. state_of made ≡ record {
          starts = 0;
          running = Some (record { drawn = 0; sessions = [] });
        }) }
        ensures number { IfOk result (λ made. number_of made ≡ number) }
        ensures directory { IfOk result (λ made. directory_of made ≡ directory) }
        ensures gathered { IfOk result (λ made. gathered made ≡ []) }
    {
        Ok(Gateway {
            site: Site {
                number,
                directory,
                starts: 0,
                alloc,
            },
            running: Some(Running::new(alloc)),
            messages: Vec::new(alloc),
        })
    }

    /// Whether it is up.
    pub fn is_up(&self) -> bool
        ensures { result ≡ is_some (state_of self.now).running }
    {
        self.running.is_some()
    }

    /// How often it has started.
    pub fn starts(&self) -> u32
        ensures { result ≡ (state_of self.now).starts }
    {
        self.site.starts
    }

    /// From now on this is its directory. Its sessions, its timers and what was gathered stay.
    pub fn place(&mut self, directory: Directory)
        ensures directory { directory_of self.new ≡ directory }
        ensures state { state_of self.new ≡ state_of self.old }
        ensures number { number_of self.new ≡ number_of self.old }
        ensures gathered { gathered self.new ≡ gathered self.old }
    {
        self.site.directory = directory;
    }

    /// Takes a message, and gathers what it makes the gateway send. A message that no rule of a gateway takes is
    /// dropped.
    ///
    /// `Spent` where a client asks for a session and the last token since the start, of number `last`, is drawn.
    pub fn deliver(&mut self, from: Node, message: &Message) -> Result<(), GateFault>
        requires { is_some (state_of self.old).running ≡ true }
        ensures state { (running : gate.Running) → (state_of self.old).running ≡ Some running
            → OnOk result (state_of self.new ≡ record (state_of self.old) {
              running = Some (taken (directory_of self.old) (number_of self.old) (state_of self.old).starts running
                  from message.now).running;
            }) }
        ensures sends { (running : gate.Running) → (state_of self.old).running ≡ Some running
            → OnOk result (gathered self.new ≡ gathered self.old ++ (taken (directory_of self.old)
            (number_of self.old) (state_of self.old).starts running from message.now).sends) }
        ensures kept { OnErr result (state_of self.new ≡ state_of self.old) }
        ensures same { OnErr result (gathered self.new ≡ gathered self.old) }
        ensures number { number_of self.new ≡ number_of self.old }
        ensures directory { directory_of self.new ≡ directory_of self.old }
        ensures spent { (running : gate.Running) → (state_of self.old).running ≡ Some running → (last : ℕ)
            → (IsErrOf result (GateFault.Spent last)
            ↔ ((last ≡ tokens) × (is_spent running from message.now ≡ true))) }
    {
        match &mut self.running {
            Some(running) => running.deliver(&self.site, from, message, &mut self.messages),
            None => unreachable!(),
        }
    }

    /// A tick: each timer counts, and gathers what clients are told.
    pub fn tick(&mut self) -> Result<(), AllocError>
        requires { is_some (state_of self.old).running ≡ true }
        ensures state { (running : gate.Running) → (state_of self.old).running ≡ Some running
            → OnOk result (state_of self.new
            ≡ record (state_of self.old) { running = Some (ticked running).running }) }
        ensures sends { (running : gate.Running) → (state_of self.old).running ≡ Some running
            → OnOk result (gathered self.new ≡ gathered self.old ++ (ticked running).sends) }
        ensures kept { OnErr result (state_of self.new ≡ state_of self.old) }
        ensures same { OnErr result (gathered self.new ≡ gathered self.old) }
        ensures number { number_of self.new ≡ number_of self.old }
        ensures directory { directory_of self.new ≡ directory_of self.old }
    {
        match &mut self.running {
            Some(running) => running.tick(self.site.alloc, &mut self.messages),
            None => unreachable!(),
        }
    }

    /// A crash: it loses its sessions and timers, and is down. What was gathered stays.
    pub fn crash(&mut self)
        ensures state { state_of self.new ≡ crashed (state_of self.old) }
        ensures gathered { gathered self.new ≡ gathered self.old }
        ensures number { number_of self.new ≡ number_of self.old }
        ensures directory { directory_of self.new ≡ directory_of self.old }
    {
        self.running = None;
    }

    /// Its start of this number: it is up and has no sessions. Starts have rising numbers, so that no token of an
    /// earlier one counts any more.
    pub fn start(&mut self, starts: u32)
        ensures state { state_of self.new ≡ started (state_of self.old) starts }
        ensures gathered { gathered self.new ≡ gathered self.old }
        ensures number { number_of self.new ≡ number_of self.old }
        ensures directory { directory_of self.new ≡ directory_of self.old }
    {
        self.site.starts = starts;
        self.running = Some(Running::new(self.site.alloc));
    }

    /// Hands over what was gathered.
    pub fn take_out(&mut self) -> Out
        ensures out { result.messages ≡ gathered self.old }
        ensures emptied { gathered self.new ≡ [] }
        ensures state { state_of self.new ≡ state_of self.old }
        ensures number { number_of self.new ≡ number_of self.old }
        ensures directory { directory_of self.new ≡ directory_of self.old }
    {
        Out {
            messages: Sequence::from_vec(mem::replace(
                &mut self.messages,
                Vec::new(self.site.alloc),
            )),
        }
    }
}
