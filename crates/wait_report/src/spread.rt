//! Looks at types and messages again when more is known of what they refer to.
ghost use Rattle.std.specs.Prelude.{◌≡◌, ◌<◌, IfOk, OnOk, length};
ghost use Rattle.ipdl_base.specs.Sound.{IsSound};
ghost use Rattle.wait_report.specs.Least as least;

use crate::least::{TOO_MANY, least_of};
use crate::rounds::{look_around, look_at_message, look_at_type};
use ipdl_base::{Kind, MessageRow, Schema, Shape, TypeRow};
use std::alloc::{AllocError, Global};

/// What has to be looked at again when more is known of a type or a protocol that it refers to.
#[derive(Clone, Copy)]
enum User {
    /// A struct or a union, by its number.
    Type(usize),
    /// A union, by its number, through the component with an index.
    Component(usize, usize),
    /// A constructor, by the number of its protocol and its index there.
    Message(usize, usize),
}

/// The users of each struct and union, and those of each protocol. They decide only what is looked at again.
/// That nothing is left out is proved of the look at the whole schema, so nothing is proved of the users.
#[derive(Drop)]
pub struct Users {
    types: Vec<Vec<User>>,
    protocols: Vec<Vec<User>>,
}

/// Returns `count` empty rows.
fn rows(alloc: Global, count: usize) -> Result<Vec<Vec<User>>, AllocError> {
    let mut rows = Vec::with_capacity(alloc, count)?;
    for _ in 0..count {
        rows.push(Vec::new(alloc))?;
    }
    Ok(rows)
}

/// Adds a user to a row, if the row exists.
fn add_user(row: usize, user: User, rows: &mut Vec<Vec<User>>) -> Result<(), AllocError> {
    if row < rows.len() {
        rows[row].push(user)?;
    }
    Ok(())
}

impl Users {
    /// Adds a user of the type or protocol that a shape refers to, if any.
    fn add(&mut self, shape: &Shape, user: User) -> Result<(), AllocError> {
        match shape {
            Shape::Named(number) => add_user(*number as usize, user, &mut self.types),
            Shape::Actor(protocol, false) => {
                add_user(*protocol as usize, user, &mut self.protocols)
            }
            _ => Ok(()),
        }
    }

    /// Adds a struct or a union, by its number.
    fn add_type(&mut self, number: usize, row: &TypeRow) -> Result<(), AllocError> {
        match row {
            TypeRow::Struct(_, fields) => {
                for field in fields.as_slice() {
                    self.add(&field.shape, User::Type(number))?;
                }
            }
            TypeRow::Union(_, components) => {
                for (index, component) in components.as_slice().iter().enumerate() {
                    self.add(component, User::Component(number, index))?;
                }
            }
        }
        Ok(())
    }

    /// Adds a message of a protocol, by its index, if it is a constructor.
    fn add_message(
        &mut self,
        protocol: usize,
        index: usize,
        row: &MessageRow,
    ) -> Result<(), AllocError> {
        if let Kind::Constructor(_) = row.kind {
            add_user(
                protocol,
                User::Message(protocol, index),
                &mut self.protocols,
            )?;
            for field in row.params.as_slice() {
                self.add(&field.shape, User::Message(protocol, index))?;
            }
        }
        Ok(())
    }

    /// Returns the users of a schema's types and protocols.
    pub fn of(alloc: Global, schema: &Schema) -> Result<Users, AllocError> {
        let mut users = Users {
            types: rows(alloc, schema.types.len())?,
            protocols: rows(alloc, schema.protocols.len())?,
        };
        for (number, row) in schema.types.as_slice().iter().enumerate() {
            users.add_type(number, row)?;
        }
        for (number, protocol) in schema.protocols.as_slice().iter().enumerate() {
            for (index, row) in protocol.messages.as_slice().iter().enumerate() {
                users.add_message(number, index, row)?;
            }
        }
        Ok(users)
    }
}

/// Returns all structs, unions and constructors of a schema.
fn all_users(alloc: Global, schema: &Schema) -> Result<Vec<User>, AllocError> {
    let mut work = Vec::with_capacity(alloc, schema.types.len())?;
    for (number, protocol) in schema.protocols.as_slice().iter().enumerate() {
        for (index, row) in protocol.messages.as_slice().iter().enumerate() {
            if let Kind::Constructor(_) = row.kind {
                work.push(User::Message(number, index))?;
            }
        }
    }
    for number in 0..schema.types.len() {
        work.push(User::Type(number))?;
    }
    Ok(work)
}

/// Adds the users of a row to the work.
fn add_work(row: usize, rows: &[Vec<User>], work: &mut Vec<User>) -> Result<(), AllocError> {
    match rows.get(row) {
        Some(users) => work.extend_from_slice(users.as_slice()),
        None => Ok(()),
    }
}

/// Looks at a union through one component, and returns whether its known least value has decreased.
fn look_at_component(
    schema: &Schema,
    number: usize,
    index: usize,
    types: &mut Vec<usize>,
    built: &[bool],
) -> bool
    requires there { number < length schema.now.types }
    requires size { length types.old.items ≡ length schema.now.types }
    ensures { least.Spreads schema.now types.old.items built.now types.new.items built.now }
{
    let TypeRow::Union(_, components) = &schema.types.as_slice()[number] else {
        return false;
    };
    let Some(component) = components.as_slice().get(index) else {
        return false;
    };
    let bytes = least_of(component, types.as_slice(), built)
        .saturating_add(4)
        .min(TOO_MANY);
    if bytes < types[number] {
        types[number] = bytes;
        true
    } else {
        false
    }
}

/// Looks at the constructor at an index, and queues the users of its protocol if that is now known to be
/// built.
fn look_at_constructor(
    schema: &Schema,
    protocol: usize,
    index: usize,
    users: &Users,
    types: &[usize],
    built: &mut Vec<bool>,
    work: &mut Vec<User>,
) -> Result<(), AllocError>
    requires sound { IsSound schema.now }
    requires count { length built.old.items ≡ length schema.now.protocols }
    ensures { OnOk result (least.Spreads schema.now types.now built.old.items types.now built.new.items) }
{
    let Some(protocol) = schema.protocols.as_slice().get(protocol) else {
        return Ok(());
    };
    let Some(row) = protocol.messages.as_slice().get(index) else {
        return Ok(());
    };
    if look_at_message(schema, row, types, built)
        && let Kind::Constructor(made) = row.kind
    {
        add_work(made as usize, users.protocols.as_slice(), work)?;
    }
    Ok(())
}

/// Processes one item, and queues those that refer to it if more is now known of it.
fn visit(
    schema: &Schema,
    user: User,
    users: &Users,
    types: &mut Vec<usize>,
    built: &mut Vec<bool>,
    work: &mut Vec<User>,
) -> Result<(), AllocError>
    requires sound { IsSound schema.now }
    requires size { length types.old.items ≡ length schema.now.types }
    requires count { length built.old.items ≡ length schema.now.protocols }
    ensures { OnOk result (least.Spreads schema.now types.old.items built.old.items types.new.items built.new.items) }
{
    match user {
        User::Type(number) => {
            if number < schema.types.len()
                && look_at_type(schema, number, types, built.as_slice())
            {
                add_work(number, users.types.as_slice(), work)?;
            }
            Ok(())
        }
        User::Component(number, index) => {
            if number < schema.types.len()
                && look_at_component(schema, number, index, types, built.as_slice())
            {
                add_work(number, users.types.as_slice(), work)?;
            }
            Ok(())
        }
        User::Message(protocol, index) => {
            look_at_constructor(
                schema,
                protocol,
                index,
                users,
                types.as_slice(),
                built,
                work,
            )
        }
    }
}

/// Looks at all types and messages once. Where more is known than before, looks at them again, and at those
/// that refer to what was found, until nothing is left to look at. Returns whether more is known than before.
pub fn spread(
    alloc: Global,
    schema: &Schema,
    users: &Users,
    types: &mut Vec<usize>,
    built: &mut Vec<bool>,
) -> Result<bool, AllocError>
    requires sound { IsSound schema.now }
    requires size { length types.old.items ≡ length schema.now.types }
    requires count { length built.old.items ≡ length schema.now.protocols }
    ensures { IfOk result (least.RoundLook schema.now types.old.items built.old.items types.new.items built.new.items) }
{
    if !look_around(schema, types, built) {
        return Ok(false);
    }
    let mut work = all_users(alloc, schema)?;
    for _ in 0..u64::MAX {
        let Some(user) = work.pop() else {
            break;
        };
        visit(schema, user, users, types, built, &mut work)?;
    }
    Ok(true)
}
