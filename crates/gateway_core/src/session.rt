//! What a gateway keeps of one client.
ghost use Rattle.std.specs.Prelude.{◌≡◌, [], OnOk, OnErr, IfOk, is_some, if◌then◌else◌};
ghost use Rattle.std.specs.List.{list_any};
ghost use Rattle.std.specs.Ordering.{nat_cmp};
ghost use Rattle.std.specs.Map.{lookup};
ghost use Rattle.std.specs.BTreeMap.{is_at};
ghost use Rattle.gate_tables.specs.Timers.{as_counted, as_fired, is_due, each, any_due, bitmap};
ghost use Rattle.gate_tables.specs.Gate as gate;
ghost use Rattle.gate_tables.specs.Gate.{with_timer, without_timer, restored, marked, fires_at_once};
ghost use Rattle.gate_tables.specs.Gate.{after_tick, told_at_tick, after_change, told_of_change};

use gate_tables::{Timer, bit};
use stab_base::TableNo;
use std::alloc::{AllocError, Global};
use std::collections::BTreeMap;
use std::marker::Model;
use table_model::TableSubscription;

/// A client's token, and its timers by table.
#[derive(Drop)]
pub(crate) struct Session {
    token: u64,
    timers: BTreeMap<TableNo, Timer>,
}

impl Model for Session {
    ghost use Rattle.gate_tables.specs.Gate as gate;

    ghost Value = { gate.Session };

    ghost view = { λ s. record { token = s.token; timers = s.timers.entries } };
}

// Adds a tick to each timer.
fn count(timers: &mut BTreeMap<TableNo, Timer>)
    ensures { timers.new.entries ≡ each as_counted timers.old.entries }
{
    timers.retain(|_, timer| {
        *timer = timer.counted();
        true
    });
}

// Lets each marked timer fire.
fn fire(timers: &mut BTreeMap<TableNo, Timer>)
    ensures { timers.new.entries ≡ each as_fired timers.old.entries }
{
    timers.retain(|_, timer| {
        *timer = timer.fired();
        true
    });
}

// Marks a table's timer, and tells whether there is one.
fn mark(timers: &mut BTreeMap<TableNo, Timer>, table: TableNo) -> bool
    ensures marked { timers.new.entries ≡ marked table timers.old.entries }
    ensures has_timer { result ≡ is_some (lookup (is_at (nat_cmp table)) timers.old.entries) }
{
    match timers.get_mut(&table) {
        Some(timer) => {
            *timer = timer.marked();
            true
        }
        None => false,
    }
}

// Whether a timer is due.
fn any_due(timers: &BTreeMap<TableNo, Timer>) -> bool
    ensures { result ≡ any_due timers.now.entries }
{
    timers.iter().any(|(_, timer)| timer.is_due())
}

// Whether a timer is due at the next tick.
fn any_due_next(timers: &BTreeMap<TableNo, Timer>) -> bool
    ensures { result ≡ list_any (λ e. is_due (as_counted e.1)) timers.now.entries }
{
    timers.iter().any(|(_, timer)| timer.counted().is_due())
}

// The bits of the marked timers, and of one table's.
fn bits_with(timers: &BTreeMap<TableNo, Timer>, table: TableNo) -> u64
    ensures { result ≡ bitmap (marked table timers.now.entries) }
{
    let mut bits = 0;
    for (number, timer) in timers.iter() {
        if timer.marked || *number == table {
            bits |= bit(*number);
        }
    }
    bits
}

// The bits of the marked timers.
fn bits(timers: &BTreeMap<TableNo, Timer>) -> u64
    ensures { result ≡ bitmap timers.now.entries }
{
    let mut bits = 0;
    for (number, timer) in timers.iter() {
        if timer.marked {
            bits |= bit(*number);
        }
    }
    bits
}

impl Session {
    /// A session without timers.
    pub(crate) fn new(alloc: Global, token: u64) -> Self
        ensures { result ≡ record { token = token; timers = [] } }
    {
        Session {
            token,
            timers: BTreeMap::new(alloc),
        }
    }

    pub(crate) fn token(&self) -> u64
        ensures { result ≡ self.now.token }
    {
        self.token
    }

    /// Sets a table's timer, whatever timer it had.
    pub(crate) fn set_timer(&mut self, table: TableNo, timer: Timer) -> Result<(), AllocError>
        ensures ok { OnOk result (self.new ≡ with_timer self.old table timer) }
        ensures err { OnErr result (self.new ≡ self.old) }
    {
        self.timers.insert(table, timer)?;
        Ok(())
    }

    /// Takes a table's timer away.
    pub(crate) fn remove_timer(&mut self, table: TableNo)
        ensures { self.new ≡ without_timer self.old table }
    {
        self.timers.remove(&table);
    }

    fn copy(&self) -> Result<Session, AllocError>
        ensures { IfOk result (λ made. made ≡ self.now) }
    {
        Ok(Session {
            token: self.token,
            timers: self.timers.clone()?,
        })
    }

    /// Sets the timers of subscriptions that a Store has kept, marked.
    pub(crate) fn restored(&self, some: &[TableSubscription]) -> Result<Session, AllocError>
        ensures { IfOk result (λ made. made ≡ restored some.now self.now) }
    {
        let mut made = self.copy()?;
        for kept in some {
            made.set_timer(kept.table, Timer::new(kept.period, kept.tolerance, true))?;
        }
        Ok(made)
    }

    /// The tables that the client is told of at the next tick, as bits.
    pub(crate) fn told_at_tick(&self) -> Option<u64>
        ensures { result ≡ told_at_tick self.now }
    {
        if any_due_next(&self.timers) {
            Some(bits(&self.timers))
        } else {
            None
        }
    }

    /// A tick: each timer counts, and where one is due, all that are marked fire.
    pub(crate) fn tick(&mut self)
        ensures { self.new ≡ after_tick self.old }
    {
        count(&mut self.timers);
        if any_due(&self.timers) {
            fire(&mut self.timers);
        }
    }

    /// The tables that the client is told of as a table changes, as bits.
    pub(crate) fn told_of_change(&self, table: TableNo, strong: bool) -> Option<u64>
        ensures { result ≡ told_of_change table strong self.now }
    {
        if strong && self.timers.contains_key(&table) {
            Some(bits_with(&self.timers, table))
        } else {
            None
        }
    }

    /// A change of a table: its timer is marked. That of a strong table fires at once, with all that are marked.
    pub(crate) fn change(&mut self, table: TableNo, strong: bool)
        ensures { self.new ≡ after_change table strong self.old }
    {
        let has_timer = mark(&mut self.timers, table);
        if strong && has_timer {
            fire(&mut self.timers);
        }
    }
}
