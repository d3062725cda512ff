//! One end of a channel: what it keeps, its calls, and the lines and packets that they make
//! (docs/channel.md). Each call that changes an end makes one step of the model of `channel_model`,
//! or leaves the end unchanged.
#![tactic(auto)]

mod answers;
mod end;
mod ready_name;
mod ready_request;
mod resolver;

pub use answers::{
    CloseAnswer, DeliverAnswer, FinishAnswer, Handling, KeepAnswer, NamedAnswer, ResolveAnswer,
    RunningHandler, SendAnswer, TakeAnswer, Top,
};
pub use end::End;
pub use end_parts::{Named, Packet};
pub use ipdl_base::EndState;
pub use resolver::Resolver;
