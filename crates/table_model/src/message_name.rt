/// The name of a kind of message.
#[derive(Debug, Clone, Copy, PartialEq, Eq)]
pub enum MessageName {
    RegisterDevice,
    CreateTable,
    DropTable,
    SubscribeTable,
    UnsubscribeTable,
    Notify,
    ObjectFragment,
    PullRequest,
    PullResponse,
    SyncRequest,
    SyncResponse,
    TornRowRequest,
    TornRowResponse,
    OperationResponse,
    SaveClientSubscription,
    RestoreClientSubscriptions,
    TableVersionUpdateNotification,
}
