//! How a client takes messages.
ghost use Rattle.std.specs.Prelude.{◌≡◌, true, IfOk, IfErr};
ghost use Rattle.client_journal.specs.Standing.{devs as held_by, writes_of, AreUp, IsReady};
ghost use Rattle.step_tables.specs.ClientMoves.{Client};
ghost use Rattle.step_tables.specs.Travels.{message_of};
ghost use Rattle.client_node.specs.Answers.{IsFault};
ghost use Rattle.client_node.specs.Looks.{Looks};
ghost use Rattle.client_node.specs.Node.{IsClient, IsNode};
ghost use Rattle.client_node.specs.Readied.{IsIdle, Reacts};
ghost use Rattle.client_node.specs.Taking.{Takes};
ghost use Rattle.client_node.specs.Phases.{KeepsPhases};

use crate::calls::pulling::check_link;
use crate::fault::CallFault;
use crate::looking::check_idle;
use crate::node::ClientNode;
use crate::placing::place;
use crate::planning::{Reaction, begins};
use crate::responding::answer;
use crate::torn::place_torn;
use client_journal::Journal;
use disk_trait::Disk;
use stab_base::ClientNo;
use std::alloc::Global;
use step_tables::Message;

// What a message comes to.
fn prepare<D: Disk + Drop>(
    alloc: Global,
    client: ClientNo,
    devs: &mut Journal<D>,
    message: &Message,
) -> Result<Reaction, CallFault>
    requires up { AreUp devs.old }
    requires ready { IsReady D.state devs.old (writes_of devs.old) }
    requires idle { IsIdle (held_by D.state devs.old) client }
    ensures looks { Looks D.state D.images devs.old devs.new result }
    ensures reacts { IfOk result (Reacts (held_by D.state devs.old) client message.now) }
    ensures refused { IfErr result IsFault }
{
    match message {
        Message::SyncResponse(response) => answer(alloc, client, devs, response),
        Message::PullResponse(pulled) => Ok(begins(place(alloc, client, devs, pulled)?)),
        Message::TornRowResponse(answer) => place_torn(alloc, client, devs, answer),
        Message::SyncRequest(_) | Message::PullRequest(_) | Message::TornRowRequest(_) => {
            Ok(Reaction::Nothing)
        }
    }
}

impl<D: Disk + Drop> ClientNode<D> {
    /// Takes a message: the Store's answer to a request, a row for the position that the client pulled from, or one that
    /// it asked for whole. After a refusal and a conflict it asks for what has changed, and so it does behind a row that
    /// came whole, and where the Store has none. Every other message is ignored, and a row that doesn't fit its table is
    /// dropped.
    ///
    /// # Errors
    ///
    /// `Offline`, then `Busy`.
    pub fn deliver(&mut self, message: Message) -> Result<(), CallFault>
        requires node { IsNode D.state self.old }
        requires up { self.old.is_up ≡ true }
        ensures takes { (s : Client) → IsClient D.state self.old s
            → Takes D.state D.images s (message_of message) self.old self.new result }
        ensures node { IsNode D.state self.new }
        ensures declared { self.new.is_declared ≡ self.old.is_declared }
        ensures phases { KeepsPhases self.old self.new }
    {
        check_link(self.is_linked)?;
        check_idle(&self.devs)?;
        let found = prepare(self.alloc, self.number, &mut self.devs, &message);
        let reaction = self.settle(found)?;
        let none = Vec::new(self.alloc);
        match reaction {
            Reaction::Nothing => Ok(()),
            Reaction::Sends(sends) => {
                self.send(sends)?;
                Ok(())
            }
            Reaction::Begins(planned) => self.carry_out(planned, none),
        }
    }
}
