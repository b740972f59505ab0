//! The sessions of a gateway.
ghost use Rattle.std.specs.Prelude.{◌≡◌, None, [], OnOk, OnErr, IfOk, option_copied, map};
ghost use Rattle.std.specs.Ordering.{nat_cmp};
ghost use Rattle.std.specs.Map.{lookup};
ghost use Rattle.std.specs.BTreeMap.{is_at, insert_entry};
ghost use Rattle.gate_tables.specs.Gate as gate;
ghost use Rattle.gate_tables.specs.Gate.{with_timer, without_timer, restored, notify, notices};
ghost use Rattle.gate_tables.specs.Gate.{after_tick, told_at_tick, after_change, told_of_change};
ghost use Rattle.gateway_core.specs.Sessions.{with_changed};

use crate::out::Sent;
use crate::session::Session;
use gate_tables::Timer;
use slab::Slab;
use stab_base::{ClientNo, Node, TableNo};
use std::alloc::{AllocError, Global};
use std::collections::BTreeMap;
use std::marker::Model;
use table_model::{Message, Notify, TableSubscription};

/// The sessions, by client: each stands in a slot of a slab, with its client.
#[derive(Drop)]
pub(crate) struct Sessions {
    places: BTreeMap<ClientNo, usize>,
    slab: Slab<(ClientNo, Session)>,
}

impl Model for Sessions {
    ghost use Rattle.std.specs.Prelude.{List, ℕ};
    ghost use Rattle.gate_tables.specs.Gate as gate;
    ghost use Rattle.gateway_core.specs.Sessions.{sessions_in, ArePlaced};

    ghost Value = { List (ℕ × gate.Session) };

    ghost view = { λ s. sessions_in s.slab s.places.entries };

    ghost invariant = { λ s. ArePlaced s.slab s.places.entries };
}

fn notice(client: ClientNo, bitmap: u64) -> Sent
    ensures { result ≡ notify client bitmap }
{
    (
        Node::Client(client),
        Message::Notify(Notify { client, bitmap }),
    )
}

impl Sessions {
    /// No sessions.
    pub(crate) fn new(alloc: Global) -> Self
        ensures { result ≡ [] }
    {
        Sessions {
            places: BTreeMap::new(alloc),
            slab: Slab::new(alloc),
        }
    }

    /// A client's session.
    pub(crate) fn get(&self, client: ClientNo) -> Option<&Session>
        ensures { option_copied result ≡ lookup (is_at (nat_cmp client)) self.now }
    {
        let Some(slot) = self.places.get(&client) else {
            return None;
        };
        let Some(held) = self.slab.get(*slot) else {
            unreachable!()
        };
        Some(&held.1)
    }

    // Gives a session to a client that has none.
    fn add(&mut self, client: ClientNo, session: Session) -> Result<(), AllocError>
        requires { lookup (is_at (nat_cmp client)) self.old ≡ None }
        ensures ok { OnOk result (self.new ≡ insert_entry nat_cmp self.old client session) }
        ensures err { OnErr result (self.new ≡ self.old) }
    {
        self.slab.reserve(1)?;
        let slot = self.slab.vacant_key();
        self.places.insert(client, slot)?;
        self.slab.insert_reserved((client, session));
        Ok(())
    }

    /// Gives a client a session, in place of the one that it has.
    pub(crate) fn put(&mut self, client: ClientNo, session: Session) -> Result<(), AllocError>
        ensures ok { OnOk result (self.new ≡ insert_entry nat_cmp self.old client session) }
        ensures err { OnErr result (self.new ≡ self.old) }
    {
        let Some(slot) = self.places.get(&client).copied() else {
            return self.add(client, session);
        };
        let Some(held) = self.slab.get_mut(slot) else {
            unreachable!()
        };
        *held = (client, session);
        Ok(())
    }

    /// Sets a timer of a client that has a session.
    pub(crate) fn set_timer(
        &mut self,
        client: ClientNo,
        table: TableNo,
        timer: Timer,
    ) -> Result<(), AllocError>
        ensures ok { OnOk result (self.new ≡ with_changed (λ s. with_timer s table timer) client self.old) }
        ensures err { OnErr result (self.new ≡ self.old) }
    {
        let Some(slot) = self.places.get(&client).copied() else {
            return Ok(());
        };
        let Some(held) = self.slab.get_mut(slot) else {
            unreachable!()
        };
        held.1.set_timer(table, timer)
    }

    /// Takes a timer of a client away.
    pub(crate) fn remove_timer(&mut self, client: ClientNo, table: TableNo)
        ensures { self.new ≡ with_changed (λ s. without_timer s table) client self.old }
    {
        let Some(slot) = self.places.get(&client).copied() else {
            return;
        };
        let Some(held) = self.slab.get_mut(slot) else {
            unreachable!()
        };
        held.1.remove_timer(table);
    }

    /// Sets the timers of a client's subscriptions that a Store has kept, marked.
    pub(crate) fn restore(
        &mut self,
        client: ClientNo,
        some: &[TableSubscription],
    ) -> Result<(), AllocError>
        ensures ok { OnOk result (self.new ≡ with_changed (restored some.now) client self.old) }
        ensures err { OnErr result (self.new ≡ self.old) }
    {
        let Some(session) = self.get(client) else {
            return Ok(());
        };
        let made = session.restored(some)?;
        self.put(client, made)
    }

    /// A tick at each session.
    pub(crate) fn tick(&mut self)
        ensures { self.new ≡ map (λ e. (e.0, after_tick e.1)) self.old }
    {
        self.slab.retain(|_, held| {
            held.1.tick();
            true
        });
    }

    /// A change of a table at each session.
    pub(crate) fn change(&mut self, table: TableNo, strong: bool)
        ensures { self.new ≡ map (λ e. (e.0, after_change table strong e.1)) self.old }
    {
        self.slab.retain(|_, held| {
            held.1.change(table, strong);
            true
        });
    }

    /// What the clients are told at the next tick, by rising client.
    pub(crate) fn told_at_tick(&self, alloc: Global) -> Result<Vec<Sent>, AllocError>
        ensures { IfOk result (λ sent. sent.items ≡ notices told_at_tick self.now) }
    {
        let mut sent = Vec::new(alloc);
        for (client, slot) in &self.places {
            if let Some(held) = self.slab.get(*slot) {
                if let Some(bitmap) = held.1.told_at_tick() {
                    sent.push(notice(*client, bitmap))?;
                }
            }
        }
        Ok(sent)
    }

    /// What the clients are told at once of a change of a table, by rising client.
    pub(crate) fn told_of_change(
        &self,
        alloc: Global,
        table: TableNo,
        strong: bool,
    ) -> Result<Vec<Sent>, AllocError>
        ensures { IfOk result (λ sent. sent.items ≡ notices (told_of_change table strong) self.now) }
    {
        let mut sent = Vec::new(alloc);
        for (client, slot) in &self.places {
            if let Some(held) = self.slab.get(*slot) {
                if let Some(bitmap) = held.1.told_of_change(table, strong) {
                    sent.push(notice(*client, bitmap))?;
                }
            }
        }
        Ok(sent)
    }
}
