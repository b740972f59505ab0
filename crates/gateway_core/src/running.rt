//! What a gateway holds while it is up, and what each event makes of it.
ghost use Rattle.std.specs.Prelude.{◌≡◌, ◌∷◌, ◌++◌, ◌<◌, ◌↔◌, [], ℕ, Some, true, not, OnOk, OnErr, IfErr, IsErrOf};
ghost use Rattle.std.specs.Prelude.{option_copied};
ghost use Rattle.std.specs.Ordering.{nat_cmp};
ghost use Rattle.std.specs.Map.{lookup};
ghost use Rattle.std.specs.BTreeMap.{is_at};
ghost use Rattle.gate_tables.specs.Gate as gate;
ghost use Rattle.gate_tables.specs.Gate.{answer, has_token, session_of, wished, token_of, registered};
ghost use Rattle.gate_tables.specs.Gate.{from_client, from_store, to_client, restore, changed, ticked};
ghost use Rattle.gate_tables.specs.Gate.{has_token_left, is_spent, taken, tokens, refused, passed, by_session};
ghost use Rattle.stab_base.specs.declared.node.Node.TheVariants as nodes;

use crate::gate_fault::GateFault;
use crate::out::Sent;
use crate::session::Session;
use crate::sessions::Sessions;
use crate::site::{Site, answer, refused_table};
use gate_tables::{Asked, Timer, Wish, asked_of, client_of};
use stab_base::{ClientNo, Node, StoreNo, TableNo};
use std::alloc::{AllocError, Global};
use std::marker::Model;
use table_model::Message;

/// How many tokens it has drawn since it started, and its sessions.
#[derive(Drop)]
pub(crate) struct Running {
    drawn: u32,
    sessions: Sessions,
}

impl Model for Running {
    ghost use Rattle.gate_tables.specs.Gate as gate;

    ghost Value = { gate.Running };

    ghost view = { λ r. record { drawn = r.drawn; sessions = r.sessions } };
}

// Gathers one message.
fn send(messages: &mut Vec<Sent>, to: Node, message: Message) -> Result<(), GateFault>
    ensures sent { OnOk result (messages.new.items ≡ messages.old.items ++ (to, message) ∷ []) }
    ensures same { OnErr result (messages.new.items ≡ messages.old.items) }
    ensures memory { IfErr result (λ e. e ≡ GateFault.Memory) }
{
    messages.push((to, message))?;
    Ok(())
}

// The token of a number that was drawn.
fn token_of(starts: u32, drawn: u32) -> u64
    ensures { result ≡ token_of starts drawn }
{
    (u64::from(starts) << 32) + u64::from(drawn)
}

// Whether a session has a token.
fn has_token(session: Option<&Session>, token: u64) -> bool
    ensures { result ≡ has_token (option_copied session.entry) token }
{
    match session {
        Some(session) => session.token() == token,
        None => false,
    }
}

impl Running {
    /// As it is behind a start.
    pub(crate) fn new(alloc: Global) -> Self
        ensures { result ≡ record { drawn = 0; sessions = [] } }
    {
        Running {
            drawn: 0,
            sessions: Sessions::new(alloc),
        }
    }

    // Gives a client a session of its own, whatever it had before.
    fn register(
        &mut self,
        site: &Site,
        client: ClientNo,
        messages: &mut Vec<Sent>,
    ) -> Result<(), GateFault>
        ensures running { OnOk result (self.new
            ≡ (registered site.now.directory site.now.number site.now.starts self.old client).running) }
        ensures sends { OnOk result (messages.new.items ≡ messages.old.items
            ++ (registered site.now.directory site.now.number site.now.starts self.old client).sends) }
        ensures kept { OnErr result (self.new ≡ self.old) }
        ensures same { OnErr result (messages.new.items ≡ messages.old.items) }
        ensures spent { (last : ℕ) → (IsErrOf result (GateFault.Spent last)
            ↔ ((last ≡ tokens) × (not (has_token_left self.old) ≡ true))) }
    {
        if self.drawn == u32::MAX {
            return Err(GateFault::Spent {
                last: u64::from(u32::MAX),
            });
        }
        let drawn = self.drawn + 1;
        let token = token_of(site.starts, drawn);
        let mut sent = site.welcome(client, token)?;
        messages.reserve(sent.len())?;
        self.sessions.put(client, Session::new(site.alloc, token))?;
        self.drawn = drawn;
        messages.append(&mut sent).unwrap();
        Ok(())
    }

    // Refuses what a client asks.
    fn refuse(&self, asked: Asked, status: u32, messages: &mut Vec<Sent>) -> Result<(), GateFault>
        ensures sends { OnOk result (messages.new.items ≡ messages.old.items
            ++ (refused self.now asked status).sends) }
        ensures same { OnErr result (messages.new.items ≡ messages.old.items) }
        ensures memory { IfErr result (λ e. e ≡ GateFault.Memory) }
    {
        messages.push(answer(asked.client, asked.table, asked.kind, status, asked.token))?;
        Ok(())
    }

    // Changes the timer that a client's message is about.
    fn wish(&mut self, asked: Asked) -> Result<(), AllocError>
        ensures ok { (session : gate.Session) → session_of self.old asked.client ≡ Some session
            → OnOk result (self.new ≡ wished self.old asked session asked.wish) }
        ensures err { OnErr result (self.new ≡ self.old) }
    {
        match asked.wish {
            Wish::Pass => Ok(()),
            Wish::Subscribe { period, tolerance } => {
                let timer = Timer::new(period, tolerance, false);
                self.sessions.set_timer(asked.client, asked.table, timer)
            }
            Wish::Unsubscribe => {
                self.sessions.remove_timer(asked.client, asked.table);
                Ok(())
            }
        }
    }

    // Passes on what a client with a session asks of a table that is in the directory.
    fn pass_on(
        &mut self,
        site: &Site,
        asked: Asked,
        owner: StoreNo,
        message: &Message,
        messages: &mut Vec<Sent>,
    ) -> Result<(), GateFault>
        ensures running { (session : gate.Session) → session_of self.old asked.client ≡ Some session
            → OnOk result (self.new ≡ wished self.old asked session asked.wish) }
        ensures sends { OnOk result (messages.new.items ≡ messages.old.items
            ++ (nodes.Store owner, passed site.now.number asked asked.wish message.now) ∷ []) }
        ensures kept { OnErr result (self.new ≡ self.old) }
        ensures same { OnErr result (messages.new.items ≡ messages.old.items) }
        ensures memory { IfErr result (λ e. e ≡ GateFault.Memory) }
    {
        messages.reserve(1)?;
        let passed = site.passed(asked, message)?;
        self.wish(asked)?;
        messages.push((Node::Store(owner), passed)).unwrap();
        Ok(())
    }

    // What a client asks of a table.
    fn ask(
        &mut self,
        site: &Site,
        asked: Asked,
        message: &Message,
        messages: &mut Vec<Sent>,
    ) -> Result<(), GateFault>
        ensures running { OnOk result (self.new ≡ (by_session site.now.directory site.now.number self.old asked
            message.now (session_of self.old asked.client)).running) }
        ensures sends { OnOk result (messages.new.items ≡ messages.old.items
            ++ (by_session site.now.directory site.now.number self.old asked
            message.now (session_of self.old asked.client)).sends) }
        ensures kept { OnErr result (self.new ≡ self.old) }
        ensures same { OnErr result (messages.new.items ≡ messages.old.items) }
        ensures memory { IfErr result (λ e. e ≡ GateFault.Memory) }
    {
        if !has_token(self.sessions.get(asked.client), asked.token) {
            return self.refuse(asked, 19, messages);
        }
        match site.directory.placed(asked.table) {
            Some(place) => self.pass_on(site, asked, place.owner, message, messages),
            None => self.refuse(asked, 18, messages),
        }
    }

    // A client's message but for a registration.
    fn from_client(
        &mut self,
        site: &Site,
        message: &Message,
        messages: &mut Vec<Sent>,
    ) -> Result<(), GateFault>
        ensures running { OnOk result (self.new
            ≡ (from_client site.now.directory site.now.number self.old message.now).running) }
        ensures sends { OnOk result (messages.new.items ≡ messages.old.items
            ++ (from_client site.now.directory site.now.number self.old message.now).sends) }
        ensures kept { OnErr result (self.new ≡ self.old) }
        ensures same { OnErr result (messages.new.items ≡ messages.old.items) }
        ensures memory { IfErr result (λ e. e ≡ GateFault.Memory) }
    {
        match asked_of(message) {
            Some(asked) => self.ask(site, asked, message, messages),
            None => Ok(()),
        }
    }

    // A Store's message for a client.
    fn to_client(
        &mut self,
        client: ClientNo,
        message: &Message,
        messages: &mut Vec<Sent>,
    ) -> Result<(), GateFault>
        ensures running { OnOk result (self.new ≡ (to_client self.old client message.now).running) }
        ensures sends { OnOk result (messages.new.items ≡ messages.old.items
            ++ (to_client self.old client message.now).sends) }
        ensures kept { OnErr result (self.new ≡ self.old) }
        ensures same { OnErr result (messages.new.items ≡ messages.old.items) }
        ensures memory { IfErr result (λ e. e ≡ GateFault.Memory) }
    {
        if self.sessions.get(client).is_none() {
            return Ok(());
        }
        send(messages, Node::Client(client), message.copy()?)?;
        if let Some(table) = refused_table(message) {
            self.sessions.remove_timer(client, table);
        }
        Ok(())
    }

    // A table has changed.
    fn change(
        &mut self,
        site: &Site,
        table: TableNo,
        messages: &mut Vec<Sent>,
    ) -> Result<(), GateFault>
        ensures running { OnOk result (self.new ≡ (changed site.now.directory self.old table).running) }
        ensures sends { OnOk result (messages.new.items ≡ messages.old.items
            ++ (changed site.now.directory self.old table).sends) }
        ensures kept { OnErr result (self.new ≡ self.old) }
        ensures same { OnErr result (messages.new.items ≡ messages.old.items) }
        ensures memory { IfErr result (λ e. e ≡ GateFault.Memory) }
    {
        let strong = site.directory.is_strong(table);
        let mut sent = self.sessions.told_of_change(site.alloc, table, strong)?;
        messages.append(&mut sent)?;
        self.sessions.change(table, strong);
        Ok(())
    }

    // A Store's message.
    fn from_store(
        &mut self,
        site: &Site,
        message: &Message,
        messages: &mut Vec<Sent>,
    ) -> Result<(), GateFault>
        ensures running { OnOk result (self.new ≡ (from_store site.now.directory self.old message.now).running) }
        ensures sends { OnOk result (messages.new.items ≡ messages.old.items
            ++ (from_store site.now.directory self.old message.now).sends) }
        ensures kept { OnErr result (self.new ≡ self.old) }
        ensures same { OnErr result (messages.new.items ≡ messages.old.items) }
        ensures memory { IfErr result (λ e. e ≡ GateFault.Memory) }
    {
        match message {
            Message::TableVersionUpdateNotification(m) => self.change(site, m.table, messages),
            Message::RestoreClientSubscriptions(m) => {
                if m.reply {
                    self.sessions.restore(m.client, m.subscriptions.as_slice())?;
                }
                Ok(())
            }
            _ => match client_of(message) {
                Some(client) => self.to_client(client, message, messages),
                None => Ok(()),
            },
        }
    }

    /// Takes a message, and gathers what it makes the gateway send. A message that no rule takes is dropped.
    pub(crate) fn deliver(
        &mut self,
        site: &Site,
        from: Node,
        message: &Message,
        messages: &mut Vec<Sent>,
    ) -> Result<(), GateFault>
        ensures running { OnOk result (self.new
            ≡ (taken site.now.directory site.now.number site.now.starts self.old from message.now).running) }
        ensures sends { OnOk result (messages.new.items ≡ messages.old.items
            ++ (taken site.now.directory site.now.number site.now.starts self.old from message.now).sends) }
        ensures kept { OnErr result (self.new ≡ self.old) }
        ensures same { OnErr result (messages.new.items ≡ messages.old.items) }
        ensures spent { (last : ℕ) → (IsErrOf result (GateFault.Spent last)
            ↔ ((last ≡ tokens) × (is_spent self.old from message.now ≡ true))) }
    {
        match (from, message) {
            (Node::Client(_), Message::RegisterDevice(m)) => {
                self.register(site, m.client, messages)
            }
            (Node::Client(_), _) => self.from_client(site, message, messages),
            (Node::Store(_), _) => self.from_store(site, message, messages),
            (Node::Gate(_), _) => Ok(()),
        }
    }

    /// A tick: each timer counts, and clients are told of those that fire.
    pub(crate) fn tick(&mut self, alloc: Global, messages: &mut Vec<Sent>) -> Result<(), AllocError>
        ensures running { OnOk result (self.new ≡ (ticked self.old).running) }
        ensures sends { OnOk result (messages.new.items ≡ messages.old.items ++ (ticked self.old).sends) }
        ensures kept { OnErr result (self.new ≡ self.old) }
        ensures same { OnErr result (messages.new.items ≡ messages.old.items) }
    {
        let mut sent = self.sessions.told_at_tick(alloc)?;
        messages.append(&mut sent)?;
        self.sessions.tick();
        Ok(())
    }
}
