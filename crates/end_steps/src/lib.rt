//! What the steps of an end do with its parts: refusals, sent requests, deliveries, takes, answers,
//! falls and closing (docs/channel.md, "The parts of an end"). Public for `channel_core` alone.
#![tactic(auto)]

mod answer_packet;
mod arrivals;
mod built_actor;
mod closing;
mod deletion;
mod delivery_refusals;
mod refusals;
mod renaming;
mod request_plan;
mod return_answer;
mod sent_request;
mod taken_item;

pub use answer_packet::{AnswerPacket, put_answer};
pub use arrivals::{answer_call, receive_end, receive_reply, receive_request};
pub use built_actor::{build_actor, built_by, push_built};
pub use closing::{FallCause, close_parts, destroy_subtree, fail_all, reject_all};
pub use deletion::delete_by;
pub use delivery_refusals::{DeliveryRefusal, Receiver, delivery_refusal};
pub use refusals::{answer_refusal, send_refusal, values_refusal};
pub use renaming::{
    DestroyedReply, NewName, destroyed_by_name, destroyed_reply, new_name, push_destroyed,
};
pub use request_plan::{RequestPlan, copy_next, plan_next, take_message};
pub use return_answer::return_packet;
pub use sent_request::{await_reply, id_of, is_constructor, next_request, send_line, seq_of};
pub use taken_item::{answer_of, settle_promise};
