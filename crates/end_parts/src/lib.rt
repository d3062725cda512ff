//! The parts that one end of a channel is made of: its stack, promises, names and output, with the
//! packets, replies and answers that they contain (docs/channel.md, "The parts of an end"). Contracts
//! see each part as a list of the model, with every box at one place. Public for `end_steps` and
//! `channel_core` alone.
#![tactic(auto)]

mod copied_answer;
mod end_output;
mod kept_resolver;
mod name_entries;
mod packet;
mod packet_reading;
mod promise_entries;
mod reply;
mod stack_entries;
mod value_actors;

pub use copied_answer::{CopiedAnswer, receive_answer, resume_line};
pub use end_output::EndOutput;
pub use kept_resolver::KeptResolver;
pub use name_entries::{NameContent, NameEntries, Named, shown_id};
pub use packet::Packet;
pub use packet_reading::{PacketReading, frame_of, goodbye_frame, read_packet};
pub use promise_entries::PromiseEntries;
pub use reply::{
    AnsweredRequest, RequestKey, is_replied_to, refused_line, reply_line, reply_to, resolver_reply,
};
pub use stack_entries::{DispatchEntry, ResumedCall, StackEntries};
pub use value_actors::{
    ActorTest, first_actor, lives_as, lives_otherwise, null_dead, null_dead_beside, wrong_actor,
};
