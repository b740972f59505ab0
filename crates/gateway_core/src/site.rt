//! What a gateway knows of itself, and what it writes to others.
ghost use Rattle.std.specs.Prelude.{◌≡◌, ◌∷◌, IfOk, map};
ghost use Rattle.gate_tables.specs.Gate.{answer, asks, passed, saved, refused_table};

use crate::directory::Directory;
use crate::out::Sent;
use gate_tables::{Asked, Wish};
use stab_base::{ClientNo, GateNo, Node, TableNo};
use std::alloc::{AllocError, Global};
use table_model::{Message, OperationResponse, SaveClientSubscription};

/// Which gateway it is, where the tables are, and how often it has started.
#[derive(Drop)]
pub(crate) struct Site {
    pub(crate) number: GateNo,
    pub(crate) directory: Directory,
    pub(crate) starts: u32,
    pub(crate) alloc: Global,
}

/// An answer to a client.
pub(crate) fn answer(
    client: ClientNo,
    table: TableNo,
    answered: u8,
    status: u32,
    token: u64,
) -> Sent
    ensures { result ≡ answer client table answered status token }
{
    (
        Node::Client(client),
        Message::OperationResponse(OperationResponse {
            client,
            table,
            answered,
            status,
            token,
            schema: None,
        }),
    )
}

fn saved(number: GateNo, asked: Asked, on: bool, period: u32, tolerance: u32) -> Message
    ensures { result ≡ saved number asked on period tolerance }
{
    Message::SaveClientSubscription(SaveClientSubscription {
        client: asked.client,
        gate: number,
        table: asked.table,
        on,
        period,
        tolerance,
    })
}

/// The table whose subscription, or its end, a message refuses.
pub(crate) fn refused_table(message: &Message) -> Option<TableNo>
    ensures { result ≡ refused_table message.now }
{
    match message {
        Message::OperationResponse(m) => {
            if (m.answered == 4 || m.answered == 5) && m.status > 0 {
                Some(m.table)
            } else {
                None
            }
        }
        _ => None,
    }
}

impl Site {
    /// What is sent as a client gets a token: the answer, and a question to each Store that owns a table.
    pub(crate) fn welcome(&self, client: ClientNo, token: u64) -> Result<Vec<Sent>, AllocError>
        ensures { IfOk result (λ sent. sent.items
            ≡ answer client 0 1 0 token ∷ map (asks self.now.number client) self.now.directory.owners) }
    {
        let mut sent = vec![in self.alloc; answer(client, 0, 1, 0, token)]?;
        let mut questions = self.directory.ask_owners(self.alloc, self.number, client)?;
        sent.append(&mut questions)?;
        Ok(sent)
    }

    /// What goes to the owner of a table: the client's message, or the subscription that it asks for.
    pub(crate) fn passed(&self, asked: Asked, message: &Message) -> Result<Message, AllocError>
        ensures { IfOk result (λ made. made ≡ passed self.now.number asked asked.wish message.now) }
    {
        match asked.wish {
            Wish::Pass => message.copy(),
            Wish::Subscribe { period, tolerance } => Ok(saved(
                self.number,
                asked,
                true,
                period,
                tolerance,
            )),
            Wish::Unsubscribe => Ok(saved(self.number, asked, false, 0, 0)),
        }
    }
}
