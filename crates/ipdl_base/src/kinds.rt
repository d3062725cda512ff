//! The small enums of messages and ends.
/// How far inside other calls a message may be sent: `not`, `inside_sync` or `inside_cpow`.
#[derive(Clone, Copy, Debug, PartialEq, Eq)]
pub enum Level {
    Not,
    InsideSync,
    InsideCpow,
}

/// Whether the sender of a message waits for its reply.
#[derive(Clone, Copy, Debug, PartialEq, Eq)]
pub enum Semantics {
    Async,
    Sync,
}

/// One of the two ends of a channel.
#[derive(Clone, Copy, Debug, PartialEq, Eq)]
pub enum Side {
    Parent,
    Child,
}

/// The end that receives a message. Under `Both` either end may send it.
#[derive(Clone, Copy, Debug, PartialEq, Eq)]
pub enum Direction {
    Parent,
    Child,
    Both,
}

/// What an arriving message does to earlier arrivals of its type and route: nothing, replace the last arrived item, or
/// remove the latest of them (docs/arrived.md).
#[derive(Clone, Copy, Debug, PartialEq, Eq)]
pub enum Compress {
    Plain,
    Last,
    All,
}

/// Why a call or a promise fails.
#[derive(Clone, Copy, Debug, PartialEq, Eq)]
pub enum Reason {
    ChannelClosed,
    HandlerRejected,
    ActorDestroyed,
    ResolverDestroyed,
}

/// Why an actor falls.
#[derive(Clone, Copy, Debug, PartialEq, Eq)]
pub enum Destroy {
    Deletion,
    AncestorDeletion,
    NormalShutdown,
    AbnormalShutdown,
}

/// Why an end refuses to send, in the order in which the causes are tested.
#[derive(Clone, Copy, Debug, PartialEq, Eq)]
pub enum SendRefusal {
    Closed,
    DeadActor,
    NestedInNormal,
    InsideCpow,
    LevelTooLow,
    TooDeep,
    TooLarge,
    InCall,
    DeadValue,
}

/// The state of an end (docs/channel.md).
#[derive(Clone, Copy, Debug, PartialEq, Eq)]
pub enum EndState {
    /// It sends, and packets are delivered to it.
    Open,
    /// The end of the channel was delivered to it. It takes what has arrived, and sends nothing.
    Draining,
    /// It has closed.
    Closed,
    /// It has died.
    Dead,
}
