//! Answers with a second copy of their values, and answers as their senders receive them.
ghost use Rattle.std.specs.Prelude.{◌≡◌};
ghost use Rattle.ipdl_base.specs.Plain.{plain_values};
ghost use Rattle.nesting_core.specs.Plain.{plain_answer};
ghost use Rattle.channel_model.specs.Returns.{resume_line};
ghost use Rattle.channel_model.specs.ValueActors.{received};
ghost use Rattle.end_parts.specs.CopiedAnswers.{IsCopied, IsCopyOf};
ghost use Rattle.end_parts.specs.PlainLines.{plain_what};

use crate::value_actors::{ActorTest, first_actor, null_dead};
use actor_tree::Tree;
use ipdl_base::{MessageRow, Reason, Schema, Values, What, returns_of_row};
use nesting_core::Answer;

/// An answer with a second copy of its values: one copy goes to the sender, the other into a line.
#[derive(Drop)]
pub struct CopiedAnswer {
    pub answer: Answer,
    pub copy: Option<Values>,
}

/// Returns the answer to a request of a message as its sender receives it: the fault ActorDestroyed
/// if an actor of its values is missing, and otherwise the values with null for dead actors. Takes
/// no memory.
pub fn receive_answer(
    schema: &Schema,
    tree: &Tree,
    row: &MessageRow,
    given: CopiedAnswer,
) -> CopiedAnswer
    requires { IsCopied given }
    ensures answer { plain_answer result.answer ≡ received schema.now tree.now row.now (plain_answer given.answer) }
    ensures copied { IsCopied result }
{
    let CopiedAnswer { answer, copy } = given;
    match (answer, copy) {
        (Answer::Fault(reason), _) => CopiedAnswer {
            answer: Answer::Fault(reason),
            copy: None,
        },
        (Answer::Ok(values), Some(copy)) => receive_values(schema, tree, row, values, copy),
        (Answer::Ok(_), None) => unreachable!(),
    }
}

// Receives values that have a second copy.
fn receive_values(
    schema: &Schema,
    tree: &Tree,
    row: &MessageRow,
    values: Values,
    copy: Values,
) -> CopiedAnswer
    requires { plain_values copy ≡ plain_values values }
    ensures answer { plain_answer result.answer ≡ received schema.now tree.now row.now (Answer.Ok (plain_values values)) }
    ensures copied { IsCopied result }
{
    let types = returns_of_row(row);
    let missing = first_actor(&values, ActorTest::Missing, schema, tree, types);
    if missing.is_some() {
        CopiedAnswer {
            answer: Answer::Fault(Reason::ActorDestroyed),
            copy: None,
        }
    } else {
        let mut values = values;
        let mut copy = copy;
        null_dead(&mut values, schema, tree, types);
        null_dead(&mut copy, schema, tree, types);
        CopiedAnswer {
            answer: Answer::Ok(values),
            copy: Some(copy),
        }
    }
}

/// Returns the line of a call that resumes with an answer, whose second copy is `copy`.
pub fn resume_line(seq: i32, answer: &Answer, copy: Option<Values>) -> What
    requires { IsCopyOf answer.now copy }
    ensures { plain_what result ≡ resume_line seq (plain_answer answer.now) }
{
    match (answer, copy) {
        (Answer::Ok(_), Some(values)) => What::ResumeOk(seq, values),
        (Answer::Fault(reason), _) => What::ResumeFault(seq, *reason),
        (Answer::Ok(_), None) => unreachable!(),
    }
}
