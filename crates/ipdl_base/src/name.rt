//! Names.
ghost use Rattle.std.specs.Prelude.{◌≡◌, ◌==◌, ◌+◌, ◌<◌, ◌≤◌, ◌++◌, [], length, IfOk, IsOk, OnErr, OnOk};

use crate::items::Items;
use std::alloc::{AllocError, Global};
use std::fmt;
use std::hash::{Hash, Hasher};
use std::marker::Model;

/// The most bytes that are stored in the name itself.
const ROOM: usize = 22;

/// Where the bytes of a name are.
#[derive(Drop)]
enum NameBytes {
    /// In the name itself: the first `len` of these.
    Short { len: u8, bytes: [u8; ROOM] },
    /// In memory of their own.
    Long(Box<Vec<u8>>),
}

/// A word, a quoted text, the name of a file or any other bytes. Contracts see the list of the bytes. Up to 22 bytes take
/// no memory.
pub struct Name {
    held: NameBytes,
}

impl Model for Name {
    ghost use Rattle.std.specs.Prelude.{List, ℕ};

    ghost Value = { List ℕ };

    ghost use Rattle.ipdl_base.specs.NameBytes.{held_bytes, FitsRoom};

    ghost view = { λ name. held_bytes name.held };

    ghost invariant = { λ name. FitsRoom name.held };
}

// Not derived: a derived `Drop` tests where the bytes are at each place where a name is dropped.
impl Drop for Name {
    fn drop(self) {
        let Name { held: _held } = self;
    }
}

/// A list of names.
pub type Texts = Items<Name>;

/// Returns a name with these bytes in the name itself.
fn short(bytes: &[u8]) -> Name
    requires { length bytes.now ≤ 22 }
    ensures { result ≡ bytes.now }
{
    let mut held = [0; ROOM];
    held[..bytes.len()].copy_from_slice(bytes);
    Name {
        held: NameBytes::Short {
            len: bytes.len() as u8,
            bytes: held,
        },
    }
}

/// Returns a name with the bytes of one text and then those of another, in the name itself.
fn short_of_two(first: &[u8], second: &[u8]) -> Name
    requires { length first.now + length second.now ≤ 22 }
    ensures { result ≡ first.now ++ second.now }
{
    let mut held = [0; ROOM];
    let (front, back) = held.split_at_mut(first.len());
    front.copy_from_slice(first);
    back[..second.len()].copy_from_slice(second);
    Name {
        held: NameBytes::Short {
            len: (first.len() + second.len()) as u8,
            bytes: held,
        },
    }
}

/// Returns a name with the bytes of a vector, which are not moved. Fails only if memory runs out.
fn long(alloc: Global, bytes: Vec<u8>) -> Result<Name, AllocError>
    requires { 22 < length bytes.items }
    ensures { IfOk result (λ name. name ≡ bytes.items) }
{
    Ok(Name {
        held: NameBytes::Long(Box::new(alloc, bytes)?),
    })
}

/// Returns a name with the bytes of one text and then those of another. Fails only if memory runs out.
fn joined(alloc: Global, first: &[u8], second: &[u8]) -> Result<Name, AllocError>
    requires { length first.now ≤ 22 }
    ensures ok { IfOk result (λ name. name ≡ first.now ++ second.now) }
    ensures succeeds { length first.now + length second.now ≤ 22 → IsOk result }
{
    if second.len() <= ROOM - first.len() {
        return Ok(short_of_two(first, second));
    }
    let mut bytes = Vec::from_slice(alloc, first)?;
    bytes.extend_from_slice(second)?;
    long(alloc, bytes)
}

impl Name {
    /// Returns the name without bytes.
    pub fn empty() -> Name
        ensures { result ≡ [] }
    {
        short(&[])
    }

    /// Returns a name with these bytes. Fails only if memory runs out.
    pub fn from_slice(alloc: Global, bytes: &[u8]) -> Result<Name, AllocError>
        ensures ok { IfOk result (λ name. name ≡ bytes.now) }
        ensures succeeds { length bytes.now ≤ 22 → IsOk result }
    {
        if bytes.len() <= ROOM {
            Ok(short(bytes))
        } else {
            long(alloc, Vec::from_slice(alloc, bytes)?)
        }
    }

    /// Returns a name with the bytes of a vector. Fails only if memory runs out.
    pub fn from_vec(alloc: Global, bytes: Vec<u8>) -> Result<Name, AllocError>
        ensures ok { IfOk result (λ name. name ≡ bytes.items) }
        ensures succeeds { length bytes.items ≤ 22 → IsOk result }
    {
        if bytes.len() <= ROOM {
            Ok(short(bytes.as_slice()))
        } else {
            long(alloc, bytes)
        }
    }

    /// Returns the bytes.
    pub fn as_slice(&self) -> &[u8]
        ensures { result.now ≡ self.now }
    {
        match &self.held {
            NameBytes::Short { len, bytes } => &bytes[..*len as usize],
            NameBytes::Long(bytes) => bytes.as_slice(),
        }
    }

    /// Returns the number of bytes.
    pub fn len(&self) -> usize
        ensures { result ≡ length self.now }
    {
        self.as_slice().len()
    }

    /// Returns whether the name has no bytes.
    pub fn is_empty(&self) -> bool
        ensures { result ≡ (length self.now == 0) }
    {
        self.len() == 0
    }

    /// Returns a name with the same bytes. Fails only if memory runs out.
    pub fn copy(&self, alloc: Global) -> Result<Name, AllocError>
        ensures ok { IfOk result (λ name. name ≡ self.now) }
        ensures succeeds { length self.now ≤ 22 → IsOk result }
    {
        match &self.held {
            NameBytes::Short { len, bytes } => Ok(Name {
                held: NameBytes::Short {
                    len: *len,
                    bytes: *bytes,
                },
            }),
            NameBytes::Long(bytes) => long(alloc, Vec::from_slice(alloc, bytes.as_slice())?),
        }
    }

    /// Appends bytes. Fails only if memory runs out, and then the name is unchanged.
    pub fn append(&mut self, alloc: Global, more: &[u8]) -> Result<(), AllocError>
        ensures ok { OnOk result (self.new ≡ self.old ++ more.now) }
        ensures err { OnErr result (self.new ≡ self.old) }
        ensures succeeds { length self.old + length more.now ≤ 22 → IsOk result }
    {
        match &mut self.held {
            NameBytes::Short { .. } => {
                *self = joined(alloc, self.as_slice(), more)?;
                Ok(())
            }
            NameBytes::Long(bytes) => bytes.extend_from_slice(more),
        }
    }
}

impl PartialEq for Name {
    ghost use Rattle.std.specs.Prelude.{nat_eq};
    ghost use Rattle.std.specs.Cmp.Lexicographic.{pointwise};
    ghost use Rattle.std.specs.Cmp.Rules.{comparing};
    ghost use Rattle.std.proofs.Common.{rules};

    ghost eq = { pointwise nat_eq };

    ghost laws = { Prim.search (comparing, rules) };

    fn eq(&self, other: &Self) -> bool {
        self.as_slice() == other.as_slice()
    }
}

impl Eq for Name {
    ghost use Rattle.std.specs.Cmp.Rules.{comparing};
    ghost use Rattle.std.proofs.Common.{rules};

    ghost laws = { Prim.search (comparing, rules) };
}

impl Hash for Name {
    ghost use Rattle.std.specs.Hash as fed;
    ghost use Rattle.std.specs.Cmp.Rules.{hashing};
    ghost use Rattle.std.proofs.Common.{rules};

    ghost hash_input = { fed.slice fed.u8 };

    ghost respects_eq = { Prim.search (hashing, rules) };

    fn hash<H: Hasher>(&self, state: &mut H) {
        self.as_slice().hash(state);
    }
}

impl fmt::Debug for Name {
    fn fmt<W: fmt::Write>(&self, f: &mut fmt::Formatter<W>) -> fmt::Result {
        fmt::Debug::fmt(self.as_slice(), f)
    }
}
