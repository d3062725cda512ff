//! Tests of the actors in values, and of refused requests and answers.
ghost use Rattle.ipdl_base.specs.Sound.{IsSound};
ghost use Rattle.end_parts.specs.CopiedAnswers.{IsCopied};
ghost use Rattle.std.specs.Prelude.{IfOk};

use super::checks::{answer_text, check, push_number, push_two, refusal_text, what_text};
use super::parts::{SchemaCase, told_of_schema};
use super::schemas::{ASK, CALL, TOP, insert_kid};
use actor_tree::Tree;
use end_parts::{
    ActorTest, AnsweredRequest, CopiedAnswer, StackEntries, first_actor, lives_as, lives_otherwise,
    receive_answer, reply_to, resume_line, wrong_actor,
};
use end_steps::{answer_refusal, id_of, next_request, send_line, send_refusal, seq_of};
use ipdl_base::{Body, Message, MessageRow, Schema, Side, Value, Values, What, returns_of_row};
use nesting_core::Answer;
use std::alloc::{AllocError, Global};
use std::test::Fail;

/// A message of a schema, and the parts of an end: a top actor with one more below it, and no frame.
#[derive(Clone, Copy)]
struct Scene<'a> {
    schema: &'a Schema,
    tree: &'a Tree,
    stack: &'a StackEntries,
    row: &'a MessageRow,
}

/// The values that are one actor.
fn one_actor(alloc: Global, id: i32) -> Result<Values, AllocError> {
    Ok(Values::First(
        Box::new(alloc, Value::Actor(id))?,
        Box::new(alloc, Values::Nothing)?,
    ))
}

/// Returns the kind of the line of a request.
fn line_text(alloc: Global, scene: Scene, message: &Message) -> Result<&'static str, AllocError> {
    let message = message.copy(alloc)?;
    let line = send_line(scene.row, message);
    let text = what_text(&line);
    drop(line);
    Ok(text)
}

/// Appends which actor of a request is wrong, why ends that are closed and open refuse to send it, and
/// its number.
fn push_refusals(
    log: &mut String,
    scene: Scene,
    message: &Message,
    values: &Values,
) -> Result<(), AllocError>
    requires { IsSound scene.schema.now }
{
    let Scene {
        schema,
        tree,
        stack,
        row,
    } = scene;
    push_number(log, wrong_actor(schema, tree, row, message))?;
    let closed = refusal_text(send_refusal(false, schema, tree, stack, row, message.route, values));
    let open = refusal_text(send_refusal(true, schema, tree, stack, row, message.route, values));
    log.push(' ')?;
    push_two(log, closed, open)?;
    write!(log, "{}", message.seq)
}

/// Appends what the refusals of a request are, and the kind of its line.
fn push_sent(
    alloc: Global,
    log: &mut String,
    scene: Scene,
    message: &Message,
    values: &Values,
) -> Result<(), AllocError>
    requires { IsSound scene.schema.now }
{
    push_refusals(log, scene, message, values)?;
    let line = line_text(alloc, scene, message)?;
    writeln!(log, " {line}")
}

/// The same of the next request to an actor with these values.
fn push_request_with(
    alloc: Global,
    log: &mut String,
    scene: Scene,
    route: i32,
    values: &Values,
) -> Result<(), AllocError>
    requires { IsSound scene.schema.now }
{
    let Scene { stack, row, .. } = scene;
    let message = next_request(alloc, Side::Child, 2, 0, stack, row, route, values)?;
    let done = push_sent(alloc, log, scene, &message, values);
    drop(message);
    done
}

/// The same of the next request to an actor with another one as its value.
fn push_request(
    alloc: Global,
    log: &mut String,
    scene: Scene,
    route: i32,
    id: i32,
) -> Result<(), AllocError>
    requires { IsSound scene.schema.now }
{
    let values = one_actor(alloc, id)?;
    let done = push_request_with(alloc, log, scene, route, &values);
    drop(values);
    done
}

/// Appends why ends that are open and closed refuse to answer by this reply.
fn push_answer_refusals(log: &mut String, scene: Scene, reply: &Message) -> Result<(), AllocError>
    requires { IsSound scene.schema.now }
{
    let Scene {
        schema,
        tree,
        row,
        ..
    } = scene;
    let none = refusal_text(answer_refusal(true, schema, tree, row, None));
    let closed = refusal_text(answer_refusal(false, schema, tree, row, Some(reply)));
    let open = refusal_text(answer_refusal(true, schema, tree, row, Some(reply)));
    write!(log, "{} ", reply.number)?;
    push_two(log, none, closed)?;
    writeln!(log, "{open}")
}

/// Appends what the refusals of an answer with an actor are.
fn push_reply(alloc: Global, log: &mut String, scene: Scene, id: i32) -> Result<(), AllocError>
    requires { IsSound scene.schema.now }
{
    let request = AnsweredRequest {
        seq: -1,
        route: TOP,
        number: CALL,
        transaction: -1,
    };
    let reply = reply_to(&request, Body::Reply(one_actor(alloc, id)?));
    let done = push_answer_refusals(log, scene, &reply);
    drop(reply);
    done
}

/// An answer with an actor, and its copy.
fn given(alloc: Global, id: i32) -> Result<CopiedAnswer, AllocError>
    ensures { IfOk result IsCopied }
{
    let values = one_actor(alloc, id)?;
    let copy = values.copy(alloc)?;
    Ok(CopiedAnswer {
        answer: Answer::Ok(values),
        copy: Some(copy),
    })
}

/// The first dead actor that is left in an answer.
fn dead_in(scene: Scene, answer: &Answer) -> Option<i32> {
    let Scene {
        schema,
        tree,
        row,
        ..
    } = scene;
    match answer {
        Answer::Ok(values) => {
            first_actor(values, ActorTest::Dead, schema, tree, returns_of_row(row))
        }
        Answer::Fault(_) => None,
    }
}

/// Appends an answer that was received, with the line of its call.
fn push_resumed(
    log: &mut String,
    scene: Scene,
    answer: &Answer,
    line: &What,
) -> Result<(), AllocError> {
    push_two(log, answer_text(answer), what_text(line))?;
    push_number(log, dead_in(scene, answer))?;
    log.push('\n')
}

/// Appends what an answer with an actor is at its sender.
fn push_received(alloc: Global, log: &mut String, scene: Scene, id: i32) -> Result<(), AllocError> {
    let given = given(alloc, id)?;
    let CopiedAnswer { answer, copy } = receive_answer(scene.schema, scene.tree, scene.row, given);
    let line = resume_line(1, &answer, copy);
    let done = push_resumed(log, scene, &answer, &line);
    drop(line);
    drop(answer);
    done
}

/// Appends the results of a message with several routes and actors.
fn push_message(alloc: Global, log: &mut String, scene: Scene) -> Result<(), AllocError>
    requires { IsSound scene.schema.now }
{
    push_request(alloc, log, scene, TOP, 6)?;
    push_request(alloc, log, scene, TOP, 8)?;
    push_request(alloc, log, scene, 6, 0)?;
    push_reply(alloc, log, scene, 6)?;
    push_reply(alloc, log, scene, 8)?;
    push_received(alloc, log, scene, 6)?;
    push_received(alloc, log, scene, 8)
}

/// Appends the results of two messages.
fn push_messages(
    alloc: Global,
    log: &mut String,
    schema: &Schema,
    tree: &Tree,
    stack: &StackEntries,
) -> Result<(), AllocError>
    requires { IsSound schema.now }
{
    for number in [CALL, ASK] {
        if let Some(row) = schema.message(number) {
            let scene = Scene {
                schema,
                tree,
                stack,
                row,
            };
            push_message(alloc, log, scene)?;
        }
    }
    Ok(())
}

/// Appends who lives, and the numbers of requests and actors.
fn push_numbers(log: &mut String, tree: &Tree) -> Result<(), AllocError> {
    let (kid, top) = (lives_as(tree, 0, 6), lives_otherwise(tree, 1, 6));
    write!(log, "{kid} {top} ")?;
    write!(
        log,
        "{} {} ",
        seq_of(Side::Parent, 3),
        seq_of(Side::Child, 3)
    )?;
    writeln!(log, "{} {}", id_of(Side::Parent, 3), id_of(Side::Child, 3))
}

fn tell_with_tree(
    alloc: Global,
    log: &mut String,
    schema: &Schema,
    tree: &mut Tree,
) -> Result<(), AllocError>
    requires { IsSound schema.now }
{
    insert_kid(tree)?;
    push_numbers(log, tree)?;
    let stack = StackEntries::new(alloc)?;
    let done = push_messages(alloc, log, schema, tree, &stack);
    drop(stack);
    done
}

/// Appends the results of a tree of two actors, and of two messages of a schema.
pub fn tell(alloc: Global, schema: &Schema, log: &mut String) -> Result<(), AllocError>
    requires { IsSound schema.now }
{
    let mut tree = Tree::new(alloc, 1)?;
    let done = tell_with_tree(alloc, log, schema, &mut tree);
    drop(tree);
    done
}

#[test]
fn requests_of_an_end(rt: HostRuntime) -> Result<(), Fail> {
    let found = told_of_schema(rt.alloc(), SchemaCase::Messages)?;
    check(
        &rt,
        found.as_str(),
        "true true 3 -3 14 12
none Closed none -3 call
none Closed DeadValue -3 call
6 Closed DeadActor -3 call
65541 DeadActor Closed none
65541 DeadActor Closed DeadValue
ok resume ok none
ok resume ok none
none Closed none -3 send
none Closed DeadValue -3 send
6 Closed DeadActor -3 send
65541 DeadActor Closed none
65541 DeadActor Closed none
ok resume ok none
ok resume ok none
",
    );
    Ok(())
}
