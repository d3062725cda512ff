//! The words of a transcript.
ghost use Rattle.std.specs.Prelude.{◌≡◌};
ghost use Rattle.history.specs.Words as word;

use ipdl_base::{Destroy, Reason, SendRefusal, Side};

/// Returns the word of an end.
pub fn side_word(side: Side) -> &'static [u8]
    ensures { result.now ≡ word.side_word side }
{
    match side {
        Side::Parent => b"parent",
        Side::Child => b"child",
    }
}

/// Returns the word of the cause for which a send is refused.
pub fn refusal_word(refusal: SendRefusal) -> &'static [u8]
    ensures { result.now ≡ word.refusal_word refusal }
{
    match refusal {
        SendRefusal::Closed => b"Closed",
        SendRefusal::DeadActor => b"DeadActor",
        SendRefusal::NestedInNormal => b"NestedInNormal",
        SendRefusal::InsideCpow => b"InsideCpow",
        SendRefusal::LevelTooLow => b"LevelTooLow",
        SendRefusal::TooDeep => b"TooDeep",
        SendRefusal::TooLarge => b"TooLarge",
        SendRefusal::InCall => b"InCall",
        SendRefusal::DeadValue => b"DeadValue",
    }
}

/// Returns the word of a fault.
pub fn reason_word(reason: Reason) -> &'static [u8]
    ensures { result.now ≡ word.reason_word reason }
{
    match reason {
        Reason::ChannelClosed => b"ChannelClosed",
        Reason::HandlerRejected => b"HandlerRejected",
        Reason::ActorDestroyed => b"ActorDestroyed",
        Reason::ResolverDestroyed => b"ResolverDestroyed",
    }
}

/// Returns the word of the reason why an actor falls.
pub fn destroy_word(destroy: Destroy) -> &'static [u8]
    ensures { result.now ≡ word.destroy_word destroy }
{
    match destroy {
        Destroy::Deletion => b"Deletion",
        Destroy::AncestorDeletion => b"AncestorDeletion",
        Destroy::NormalShutdown => b"NormalShutdown",
        Destroy::AbnormalShutdown => b"AbnormalShutdown",
    }
}
