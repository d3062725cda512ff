//! The names of an end, with the actor or the resolver that each is bound to.
ghost use Rattle.std.specs.Prelude.{◌≡◌, ◌+◌, ◌<◌, ◌≤◌, not, Some, [], ◌∷◌, ◌++◌, find, filter, option_and_then, option_map, vec_len, vec_capacity, OnOk};
ghost use Rattle.std.specs.Str.{bytes_eq};
ghost use Rattle.channel_model.specs.Names.{held_by_name, without_name, holding, without_resolvers, is_actor};
ghost use Rattle.end_parts.specs.NameContents.{named_by, content_of, naming_of, named_of, holds_at, shown_id};
ghost use Rattle.end_parts.specs.Replies.{answered_by, answered_of};

use crate::kept_resolver::KeptResolver;
use crate::reply::AnsweredRequest;
use ipdl_base::Name;
use std::alloc::{AllocError, Global};
use std::marker::Model;

/// What a name is bound to, as it is reported; a resolver by the number of its request's message.
#[derive(Clone, Copy, Debug, PartialEq, Eq)]
pub enum Named {
    Nothing,
    Actor(i32),
    Resolver(u32),
}

/// What a name is bound to.
#[derive(Drop)]
pub enum NameContent {
    Actor(i32),
    Resolver(KeptResolver),
}

/// A name with what it is bound to.
#[derive(Drop)]
struct NameEntry {
    name: Name,
    content: NameContent,
}

/// The names of an end that are bound. Contracts see the list of them, and the number of further
/// names that there is room for. Only `reserve` takes memory.
#[derive(Drop)]
pub struct NameEntries {
    entries: Vec<NameEntry>,
}

impl Model for NameEntries {
    ghost use Rattle.std.specs.Prelude.{◌-◌, map, vec_len, vec_capacity};
    ghost use Rattle.end_parts.specs.NamesView.{NamesView};
    ghost use Rattle.end_parts.specs.NameContents.{naming_of};

    ghost Value = { NamesView };

    ghost view = { λ a. record { names = map naming_of a.entries.items; spare = vec_capacity a.entries - vec_len a.entries } };
}

impl NameEntries {
    /// Returns a list without names.
    pub fn new(alloc: Global) -> NameEntries
        ensures { result.names ≡ [] }
    {
        NameEntries {
            entries: Vec::new(alloc),
        }
    }

    /// Returns what a name is bound to.
    pub fn named(&self, name: &Name) -> Named
        ensures { result ≡ named_by (held_by_name name.now self.now.names) }
    {
        match find_entry(self.entries.as_slice(), name.as_slice()) {
            None => Named::Nothing,
            Some(entry) => named_of(&entry.content),
        }
    }

    /// Returns what the answer by the resolver of a name repeats, or `None` if the name has no
    /// resolver.
    pub fn resolver_held(&self, name: &Name) -> Option<AnsweredRequest>
        ensures { option_map answered_of result ≡ option_and_then answered_by (held_by_name name.now self.now.names) }
    {
        match find_entry(self.entries.as_slice(), name.as_slice()) {
            None => None,
            Some(entry) => answered_by(&entry.content),
        }
    }

    /// Destroys all resolvers that names are bound to.
    pub fn drop_resolvers(&mut self)
        ensures { self.new.names ≡ without_resolvers self.old.names }
    {
        remove_resolvers(&mut self.entries);
    }

    /// Makes room for one more name. Fails only if memory runs out, and then nothing changes.
    pub fn reserve(&mut self) -> Result<(), AllocError>
        ensures names { self.new.names ≡ self.old.names }
        ensures ok { OnOk result (0 < self.new.spare) }
    {
        self.entries.reserve(1)
    }

    /// Binds a name, in place of what it was bound to.
    pub fn hold(&mut self, name: Name, content: NameContent)
        requires { 0 < self.old.spare }
        ensures { self.new.names ≡ without_name name self.old.names ++ holding name (Some (content_of content)) }
    {
        remove_name(&mut self.entries, name.as_slice());
        push_spare(&mut self.entries, NameEntry { name, content });
    }

    /// Binds a name to the actor of an id, or to nothing if the id is not positive, in place of
    /// what it was bound to.
    pub fn hold_actor(&mut self, name: Name, id: i32)
        requires { 0 < self.old.spare }
        ensures { self.new.names ≡ without_name name self.old.names ++ holding name (holds_at id) }
    {
        if id > 0 {
            self.hold(name, NameContent::Actor(id));
        } else {
            self.remove(&name);
        }
    }

    /// Unbinds a name.
    pub fn remove(&mut self, name: &Name)
        ensures { self.new.names ≡ without_name name.now self.old.names }
    {
        remove_name(&mut self.entries, name.as_slice());
    }
}

// Removes the entry of a name.
fn remove_name(entries: &mut Vec<NameEntry>, name: &[u8])
    ensures items { entries.new.items ≡ filter (λ n. not (bytes_eq n.name name.now)) entries.old.items }
    ensures len { vec_len entries.new ≤ vec_len entries.old }
    ensures capacity { vec_capacity entries.new ≡ vec_capacity entries.old }
{
    entries.retain(|entry| !(entry.name.as_slice() == name));
}

// Appends an entry where there is room.
fn push_spare(entries: &mut Vec<NameEntry>, entry: NameEntry)
    requires { vec_len entries.old < vec_capacity entries.old }
    ensures { entries.new.items ≡ entries.old.items ++ entry ∷ [] }
{
    if entries.push(entry).is_err() {
        unreachable!();
    }
}

// Returns the entry of a name.
fn find_entry<'a>(entries: &'a [NameEntry], name: &[u8]) -> Option<&'a NameEntry>
    ensures { option_map (λ n. n.now) result ≡ find (λ n. bytes_eq n.name name.now) entries.now }
{
    entries.iter().find(|entry| entry.name.as_slice() == name)
}

// Removes the entries of resolvers.
fn remove_resolvers(entries: &mut Vec<NameEntry>)
    ensures { entries.new.items ≡ filter (λ n. is_actor (naming_of n)) entries.old.items }
{
    entries.retain(|entry| is_actor(entry));
}

// Returns what an entry is bound to, as it is reported.
fn named_of(content: &NameContent) -> Named
    ensures { result ≡ named_of content.now }
{
    match content {
        NameContent::Actor(id) => Named::Actor(*id),
        NameContent::Resolver(resolver) => Named::Resolver(resolver.number()),
    }
}

// Returns what the answer by the resolver of an entry repeats.
fn answered_by(content: &NameContent) -> Option<AnsweredRequest>
    ensures { option_map answered_of result ≡ answered_by (content_of content.now) }
{
    match content {
        NameContent::Actor(_) => None,
        NameContent::Resolver(resolver) => Some(resolver.answered()),
    }
}

// Whether an entry is bound to an actor.
fn is_actor(entry: &NameEntry) -> bool
    ensures { result ≡ is_actor (naming_of entry.now) }
{
    match &entry.content {
        NameContent::Actor(_) => true,
        NameContent::Resolver(_) => false,
    }
}

/// Returns the id that the line of a name shows: 0 for one that is not positive.
pub fn shown_id(id: i32) -> i32
    ensures { result ≡ shown_id id }
{
    if id > 0 { id } else { 0 }
}
