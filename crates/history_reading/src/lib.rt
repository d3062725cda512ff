//! What is read from the lines of a history, end by end, and the laws of histories as tests of what
//! is read (docs/laws.md). `law_checks` decides the laws.
#![tactic(auto)]

mod end_reading;
mod law;
mod note;
mod nulled;
mod numbers;
mod parts;
mod reading;
mod rows;
mod sent;
mod sent_packet;
mod shapes;
mod stack;
mod unanswered_call;

pub use end_reading::{EndReading, actor_place};
pub use law::Law;
pub use nulled::{all_live, is_nulled, missing};
pub use numbers::NumberList;
pub use parts::{
    ActorPlace, BuiltActor, Call, CallFrame, Cause, EventKind, HandledRequest, PacketKind,
};
pub use reading::Reading;
pub use rows::is_request_number;
pub use sent::SentList;
pub use sent_packet::{ReplyContent, Request, SentPacket};
pub use stack::CallStack;
pub use unanswered_call::UnansweredCall;
