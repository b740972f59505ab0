//! The requests to a table that wait for fragments.
ghost use Rattle.std.specs.Prelude.{◌≡◌, ◌<◌, ℕ, List, [], true, Some, None, Ok, Option, IfOk, OnErr};
ghost use Rattle.std.specs.List.{find};
ghost use Rattle.assemblies.specs.Places.{has_places};
ghost use Rattle.step_tables.specs.Messages as ends;
ghost use Rattle.step_tables.specs.Store.{Stored};
ghost use Rattle.part_tables.specs.Parts.{Part, Asks, BringsUp};
ghost use Rattle.part_tables.specs.StoreParts.{Gathering, is_of_client, without_client, asked, brought_to, weighed};
ghost use Rattle.part_tables.specs.StoreParts.{parted};
ghost use Rattle.step_tables.specs.Travels.{message_of};
ghost use Rattle.message_parts.specs.Parts.{part_of, fragment_of, first_part};
ghost use Rattle.part_store.specs.View.{IsViewOf};
ghost use Rattle.part_store.specs.Gathered.{HasGathered, head_in};
ghost use Rattle.part_store.specs.Weighing.{IsWeighed, settled};
ghost use Rattle.part_store.specs.Calls.{client_of, row_of, may_gather, needs_row, may_complete, IsTaken, IsLeft};
ghost use Rattle.part_store.specs.Calls.{is_done, grown_in};

use crate::view::RowView;
use crate::waiting::{Waiting, is_spelled};
use crate::weighing::{Weighed, weigh};
use assemblies::has_places;
use row_value::Scheme;
use stab_base::ClientNo;
use std::alloc::{AllocError, Global};
use std::collections::BTreeMap;
use table_model::{Message, ObjectFragment, PullRequest, SyncRequest, TornRowRequest};

/// What a part comes to.
#[derive(Debug, Drop)]
pub enum Taken {
    /// It makes this whole message.
    Whole(step_tables::Message),
    /// It is kept until more has come, or dropped.
    Waits,
}

/// The requests to a table that wait for fragments: of each client its last one.
#[derive(Drop)]
pub struct Gatherings {
    waiting: BTreeMap<ClientNo, Waiting>,
    alloc: Global,
}

impl Gatherings {
    /// No request waits.
    pub fn new(alloc: Global) -> Gatherings
        ensures nothing { HasGathered result [] }
    {
        Gatherings {
            waiting: BTreeMap::new(alloc),
            alloc,
        }
    }

    fn may_complete(&self, f: &ObjectFragment) -> bool
        ensures { (gs : List Gathering) → HasGathered self.now gs
            → result ≡ may_complete (fragment_of f.now) (find (is_of_client f.now.client) gs) }
    {
        match self.waiting.get(&f.client) {
            Some(x) => x.may_complete(f),
            None => false,
        }
    }

    /// Whether what the table has of the row of a part decides what it comes to.
    pub fn needs_row(&self, part: &Message) -> bool
        ensures needs { (gs : List Gathering) (p : Part) → HasGathered self.now gs → part_of part.now ≡ Some p
            → result ≡ needs_row gs p }
    {
        match part {
            Message::SyncRequest(_) => true,
            Message::ObjectFragment(f) => !f.down && self.may_complete(f),
            Message::RegisterDevice(_)
            | Message::CreateTable(_)
            | Message::DropTable(_)
            | Message::SubscribeTable(_)
            | Message::UnsubscribeTable(_)
            | Message::Notify(_)
            | Message::PullRequest(_)
            | Message::PullResponse(_)
            | Message::SyncResponse(_)
            | Message::TornRowRequest(_)
            | Message::TornRowResponse(_)
            | Message::OperationResponse(_)
            | Message::SaveClientSubscription(_)
            | Message::RestoreClientSubscriptions(_)
            | Message::TableVersionUpdateNotification(_) => false,
        }
    }

    // Keeps a request that waits, and nothing of one that is made.
    fn settle(&mut self, client: ClientNo, weighed: Weighed) -> Result<Taken, AllocError>
        ensures taken { (gs : List Gathering) (x : Gathering) (made : Option ends.Message) → HasGathered self.old gs
            → x.head.client ≡ client → IsWeighed made x weighed
            → IfOk result (IsTaken (settled (without_client client gs) x made) self.new) }
        ensures memory { (gs : List Gathering) → HasGathered self.old gs → OnErr result (HasGathered self.new gs) }
    {
        match weighed {
            Weighed::Whole(message) => {
                self.waiting.remove(&client);
                Ok(Taken::Whole(message))
            }
            Weighed::Waits(x) => {
                self.waiting.insert(client, x)?;
                Ok(Taken::Waits)
            }
        }
    }

    // A request by its pieces.
    fn ask(
        &mut self,
        scheme: Scheme,
        chunk: u32,
        view: &RowView,
        head: SyncRequest,
    ) -> Result<Taken, AllocError>
        requires chunk { 0 < chunk }
        requires places { has_places head.content ≡ true }
        ensures taken { (items : List Stored) (gs : List Gathering) → HasGathered self.old gs
            → IsViewOf chunk items head.client head.row view.now
            → IfOk result (IsTaken (asked scheme chunk items gs (head_in head)) self.new) }
        ensures memory { (gs : List Gathering) → HasGathered self.old gs → OnErr result (HasGathered self.new gs) }
    {
        if !is_spelled(self.alloc, chunk, &head)? {
            return Ok(Taken::Waits);
        }
        let client = head.client;
        let x = Waiting::new(self.alloc, chunk, head)?;
        let weighed = weigh(self.alloc, scheme, chunk, view, x)?;
        self.settle(client, weighed)
    }

    // Gives a fragment to the request that waits. Whether that has each chunk then.
    fn grow(&mut self, f: ObjectFragment) -> bool
        ensures grown { (gs : List Gathering) → HasGathered self.old gs
            → HasGathered self.new (grown_in (fragment_of f) gs (find (is_of_client f.client) gs)) }
        ensures done { (gs : List Gathering) → HasGathered self.old gs
            → result ≡ is_done (fragment_of f) (find (is_of_client f.client) gs) }
        ensures last { (gs : List Gathering) → HasGathered self.old gs → result ≡ true
            → may_complete (fragment_of f) (find (is_of_client f.client) gs) ≡ true }
    {
        match self.waiting.get_mut(&f.client) {
            Some(x) => x.take(f),
            None => false,
        }
    }

    // What the request that waits comes to.
    fn complete(
        &mut self,
        scheme: Scheme,
        chunk: u32,
        view: &RowView,
        client: ClientNo,
    ) -> Result<Taken, AllocError>
        requires chunk { 0 < chunk }
        ensures taken { (items : List Stored) (gs : List Gathering) (x : Gathering)
            → HasGathered self.old gs → find (is_of_client client) gs ≡ Some x
            → IsViewOf chunk items client x.head.row view.now
            → IfOk result (IsTaken (weighed scheme chunk items (without_client client gs) x) self.new) }
        ensures memory { (gs : List Gathering) → HasGathered self.old gs
            → OnErr result (HasGathered self.new (without_client client gs)) }
    {
        match self.waiting.remove(&client) {
            Some(x) => {
                let weighed = weigh(self.alloc, scheme, chunk, view, x)?;
                self.settle(client, weighed)
            }
            None => Ok(Taken::Waits),
        }
    }

    // A chunk of a request.
    fn bring(
        &mut self,
        scheme: Scheme,
        chunk: u32,
        view: &RowView,
        f: ObjectFragment,
    ) -> Result<Taken, AllocError>
        requires chunk { 0 < chunk }
        ensures taken { (items : List Stored) (gs : List Gathering) → HasGathered self.old gs
            → (needs_row gs (BringsUp (fragment_of f)) ≡ true → IsViewOf chunk items f.client f.row view.now)
            → IfOk result (IsTaken (brought_to scheme chunk items gs (fragment_of f)
            (find (is_of_client f.client) gs)) self.new) }
        ensures memory { (gs : List Gathering) → HasGathered self.old gs
            → OnErr result (HasGathered self.new (without_client f.client gs)) }
    {
        let client = f.client;
        if !self.grow(f) {
            return Ok(Taken::Waits);
        }
        self.complete(scheme, chunk, view, client)
    }

    /// What a part comes to, by a row's view where `needs_row`. A message that isn't a part waits, and changes nothing.
    ///
    /// Where memory is refused nothing has changed; but where a fragment completes a request, that may wait no longer.
    pub fn take(
        &mut self,
        scheme: Scheme,
        chunk: u32,
        view: &RowView,
        part: Message,
    ) -> Result<Taken, AllocError>
        requires chunk { 0 < chunk }
        requires places { may_gather (part_of part) ≡ true }
        ensures taken { (items : List Stored) (gs : List Gathering) (p : Part) → HasGathered self.old gs
            → part_of part ≡ Some p
            → (needs_row gs p ≡ true → IsViewOf chunk items (client_of p) (row_of p) view.now)
            → IfOk result (IsTaken (parted scheme chunk items gs p) self.new) }
        ensures memory { (gs : List Gathering) (p : Part) → HasGathered self.old gs → part_of part ≡ Some p
            → OnErr result (IsLeft gs p self.new) }
        ensures other { part_of part ≡ None → (result ≡ Ok Taken.Waits) × (self.new ≡ self.old) }
    {
        match part {
            Message::SyncRequest(head) => self.ask(scheme, chunk, view, head),
            Message::ObjectFragment(f) => self.take_fragment(scheme, chunk, view, f),
            Message::PullRequest(pull) => Ok(Taken::Whole(whole_pull(pull))),
            Message::TornRowRequest(torn) => Ok(Taken::Whole(whole_torn(torn))),
            Message::RegisterDevice(_)
            | Message::CreateTable(_)
            | Message::DropTable(_)
            | Message::SubscribeTable(_)
            | Message::UnsubscribeTable(_)
            | Message::Notify(_)
            | Message::PullResponse(_)
            | Message::SyncResponse(_)
            | Message::TornRowResponse(_)
            | Message::OperationResponse(_)
            | Message::SaveClientSubscription(_)
            | Message::RestoreClientSubscriptions(_)
            | Message::TableVersionUpdateNotification(_) => Ok(Taken::Waits),
        }
    }

    // A fragment, which may go to a client.
    fn take_fragment(
        &mut self,
        scheme: Scheme,
        chunk: u32,
        view: &RowView,
        f: ObjectFragment,
    ) -> Result<Taken, AllocError>
        requires chunk { 0 < chunk }
        ensures taken { (items : List Stored) (gs : List Gathering) (p : Part) → HasGathered self.old gs
            → part_of (Message.ObjectFragment f) ≡ Some p
            → (needs_row gs p ≡ true → IsViewOf chunk items (client_of p) (row_of p) view.now)
            → IfOk result (IsTaken (parted scheme chunk items gs p) self.new) }
        ensures memory { (gs : List Gathering) (p : Part) → HasGathered self.old gs
            → part_of (Message.ObjectFragment f) ≡ Some p → OnErr result (IsLeft gs p self.new) }
    {
        if f.down {
            Ok(Taken::Waits)
        } else {
            self.bring(scheme, chunk, view, f)
        }
    }
}

/// Whether each column and each place of what has to be gathered for a part has a number of 32 bits.
pub fn may_gather(part: &Message) -> bool
    ensures { result ≡ may_gather (part_of part.now) }
{
    match part {
        Message::SyncRequest(head) => has_places(&head.content),
        Message::RegisterDevice(_)
        | Message::CreateTable(_)
        | Message::DropTable(_)
        | Message::SubscribeTable(_)
        | Message::UnsubscribeTable(_)
        | Message::Notify(_)
        | Message::ObjectFragment(_)
        | Message::PullRequest(_)
        | Message::PullResponse(_)
        | Message::SyncResponse(_)
        | Message::TornRowRequest(_)
        | Message::TornRowResponse(_)
        | Message::OperationResponse(_)
        | Message::SaveClientSubscription(_)
        | Message::RestoreClientSubscriptions(_)
        | Message::TableVersionUpdateNotification(_) => true,
    }
}

fn whole_pull(pull: PullRequest) -> step_tables::Message
    ensures { part_of (Message.PullRequest pull) ≡ Some (first_part (message_of result)) }
{
    step_tables::Message::PullRequest(step_tables::PullRequest {
        client: pull.client,
        token: 0,
        table: pull.table,
        position: pull.position,
    })
}

fn whole_torn(torn: TornRowRequest) -> step_tables::Message
    ensures { part_of (Message.TornRowRequest torn) ≡ Some (first_part (message_of result)) }
{
    step_tables::Message::TornRowRequest(step_tables::TornRowRequest {
        client: torn.client,
        token: 0,
        table: torn.table,
        row: torn.row,
    })
}
