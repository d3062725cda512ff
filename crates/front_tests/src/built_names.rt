//! Tests of the table of names on programs that are built without texts.

use super::founds::{find, show_found, wrong_lookups, wrong_protocols};
use super::given::name;
use ipdl_base::{Compress, Direction, Items, Level, Name, Place, Semantics};
use ipdl_syntax::{
    Attribute, Entry, MessageDecl, NameAt, Program, ProtocolDecl, StructDecl, UnionDecl, Unit,
    Using,
};
use name_table::{
    DeclId, Found, MessageKind, Names, Strength, compress_of, is_lazy, kind_of, message_level,
    protocol_level,
};
use std::alloc::{AllocError, Global};
use std::test::Fail;

const PLACE: Place = Place {
    file: 0,
    line: 1,
    column: 1,
};

fn protocol(alloc: Global, full: Name) -> ProtocolDecl {
    ProtocolDecl {
        full,
        place: PLACE,
        semantics: Semantics::Async,
        managers: Items::from_vec(Vec::new(alloc)),
        manages: Items::from_vec(Vec::new(alloc)),
        messages: Items::from_vec(Vec::new(alloc)),
        attributes: Items::from_vec(Vec::new(alloc)),
    }
}

/// The declarations of a file.
#[derive(Drop)]
struct Declared {
    usings: Vec<Using>,
    structs: Vec<StructDecl>,
    unions: Vec<UnionDecl>,
    protocol: Option<ProtocolDecl>,
}

impl Declared {
    /// Returns no declarations.
    fn new(alloc: Global) -> Declared {
        Declared {
            usings: Vec::new(alloc),
            structs: Vec::new(alloc),
            unions: Vec::new(alloc),
            protocol: None,
        }
    }

    /// Declares a `using`.
    fn using(&mut self, alloc: Global, full: Name) -> Result<(), AllocError> {
        Ok(
            self.usings.push(Using {
                full,
                place: PLACE,
                attributes: Items::from_vec(Vec::new(alloc)),
            })?,
        )
    }

    /// Declares a struct.
    fn structure(&mut self, alloc: Global, full: Name) -> Result<(), AllocError> {
        Ok(
            self.structs.push(StructDecl {
                full,
                place: PLACE,
                fields: Items::from_vec(Vec::new(alloc)),
                attributes: Items::from_vec(Vec::new(alloc)),
            })?,
        )
    }

    /// Declares a union.
    fn union(&mut self, alloc: Global, full: Name) -> Result<(), AllocError> {
        Ok(
            self.unions.push(UnionDecl {
                full,
                place: PLACE,
                components: Items::from_vec(Vec::new(alloc)),
                attributes: Items::from_vec(Vec::new(alloc)),
            })?,
        )
    }

    /// Adds the declaration that a text gives: a word for its kind, and its full name.
    fn declare(&mut self, alloc: Global, text: &str) -> Result<(), AllocError> {
        let (word, full) = text.split_once(" ").unwrap_or(("", ""));
        let full = name(alloc, full)?;
        match word {
            "using" => self.using(alloc, full),
            "struct" => self.structure(alloc, full),
            "union" => self.union(alloc, full),
            _ => {
                self.protocol = Some(protocol(alloc, full));
                Ok(())
            }
        }
    }

    /// Returns a file with these declarations that includes the files with these indices.
    fn entry(self, alloc: Global, includes: &[u32]) -> Result<Entry, AllocError> {
        let includes = Vec::from_slice(alloc, includes)?;
        Ok(Entry {
            key: Name::empty(),
            name: Name::empty(),
            unit: Unit {
                includes: Items::from_vec(Vec::new(alloc)),
                usings: Items::from_vec(self.usings),
                structs: Items::from_vec(self.structs),
                unions: Items::from_vec(self.unions),
                protocol: self.protocol,
            },
            includes: Items::from_vec(includes),
        })
    }
}

/// The declarations of each file. The second and the third files are headers.
const FILE_A: &str = "using A::T<int>
using x::int32_t
using ByteBuf
using Endpoint
struct N::S
union N::E
protocol N::PA";

const FILE_H: &str = "using q::U
using Endpoint<PB>
using Endpoint<PZ>
struct M::S";

const FILE_G: &str = "using q::U
using r::U2
using mozilla::ipc::ManagedEndpoint
struct D
union D";

/// Appends a file that includes the files with these indices and has the declarations in the lines
/// of a text.
fn push_entry(
    alloc: Global,
    includes: &[u32],
    text: &str,
    all: &mut Vec<Entry>,
) -> Result<(), AllocError> {
    let mut declared = Declared::new(alloc);
    for line in text.split('\n') {
        declared.declare(alloc, line)?;
    }
    Ok(all.push(declared.entry(alloc, includes)?)?)
}

/// Returns the program of these files and of two more.
fn small(alloc: Global) -> Result<Program, AllocError> {
    let mut all = Vec::new(alloc);
    push_entry(alloc, &[1, 3], FILE_A, &mut all)?;
    push_entry(alloc, &[2], FILE_H, &mut all)?;
    push_entry(alloc, &[1], FILE_G, &mut all)?;
    push_entry(alloc, &[], "struct Hidden\nprotocol PB", &mut all)?;
    push_entry(alloc, &[0, 3], "protocol O::PB", &mut all)?;
    Ok(Items::from_vec(all))
}

/// Rows: the file that looks the name up, the name, its argument, if it has one, and what it finds.
const LOOKUPS: &str = "0 N::S => struct 0 0
0 S => struct 0 0 and struct 1 0
0 M::S => struct 1 0
1 S => struct 1 0
0 E => union 0 0
0 D => struct 2 0 and union 2 0
0 Hidden => none
3 Hidden => struct 3 0
0 U => using 1 0
2 q::U => using 1 0
0 U2 => using 2 1
0 A::T int => using 0 0
0 T int => none
0 T => none
0 int32_t => int32_t and using 0 1
0 ByteBuf => ByteBuf
0 mozilla::ipc::ByteBuf => ByteBuf
0 PA => protocol 0
0 PB => protocol 3
1 PB => none
4 PB => protocol 3 and protocol 4
4 O::PB => protocol 4
0 bool => bool
0 Endpoint => none
0 ManagedEndpoint => using 2 2
0 Endpoint PB => endpoint 3 false
1 Endpoint PB => using 1 1
4 Endpoint PB => endpoint 3 false and endpoint 4 false
0 ManagedEndpoint N::PA => endpoint 0 true
0 Endpoint PZ => using 1 2
0 Endpoint Nope => none";

/// Rows in the same form, of names after `manager` or `manages`.
const PROTOCOLS: &str = "0 PB => protocol 3\n0 D => none";

#[test]
fn names_find_what_is_seen(rt: HostRuntime) -> Result<(), Fail> {
    let alloc = rt.alloc();
    let program = small(alloc)?;
    assert!(rt; program.len() <= 4096);
    let names = Names::build(alloc, &program)?;
    assert_eq!(rt; wrong_lookups(alloc, &names, LOOKUPS)?.as_str(), "");
    assert_eq!(rt; wrong_protocols(alloc, &names, PROTOCOLS)?.as_str(), "");
    Ok(())
}

const HEADERS: u32 = 4096;

/// Returns a text followed by a number, as a name.
fn numbered(alloc: Global, text: &str, number: u32) -> Result<Name, AllocError> {
    Name::from_vec(alloc, format!(in alloc; "{text}{number}")?.into_bytes())
}

/// Returns the header of this number in a ring. It has 24 usings, 24 structs, a union, and one
/// using that all headers have.
fn header(alloc: Global, file: u32) -> Result<Entry, AllocError> {
    let mut declared = Declared::new(alloc);
    declared.using(alloc, name(alloc, "a::Shared")?)?;
    for place in 0..24u32 {
        let number = file.wrapping_mul(24).wrapping_add(place);
        declared.using(alloc, numbered(alloc, "a::U", number)?)?;
        declared.structure(alloc, numbered(alloc, "a::b::S", number)?)?;
    }
    declared.union(alloc, numbered(alloc, "Q", file)?)?;
    declared.entry(alloc, &[file.wrapping_add(1) % HEADERS])
}

/// Returns headers in a ring of includes.
fn ring(alloc: Global) -> Result<Program, AllocError> {
    let mut all = Vec::new(alloc);
    for file in 0..HEADERS {
        all.push(header(alloc, file)?)?;
    }
    Ok(Items::from_vec(all))
}

/// Returns whether a header finds this struct of another header by its short name.
fn finds_struct(
    alloc: Global,
    names: &Names<'_>,
    file: u32,
    place: u32,
) -> Result<bool, AllocError> {
    let number = file.wrapping_mul(24).wrapping_add(place);
    let found = names.find(
        HEADERS - 1 - file % HEADERS,
        &numbered(alloc, "S", number)?,
        None,
    );
    Ok(matches!(found, Found::One(DeclId::Struct(f, p)) if f == file && p == place as usize))
}

/// Returns whether the header in the middle finds this `using` of another header. It comes after
/// the one that all headers have.
fn finds_using(
    alloc: Global,
    names: &Names<'_>,
    file: u32,
    place: u32,
) -> Result<bool, AllocError> {
    let number = file.wrapping_mul(24).wrapping_add(place);
    let found = names.find(HEADERS / 2, &numbered(alloc, "a::U", number)?, None);
    Ok(matches!(found, Found::One(DeclId::Using(f, p)) if f == file && p == place as usize + 1))
}

/// Returns whether both are found, for each index in a header.
fn finds_all(alloc: Global, names: &Names<'_>, file: u32) -> Result<bool, AllocError> {
    for place in 0..24u32 {
        if !finds_struct(alloc, names, file, place)? || !finds_using(alloc, names, file, place)? {
            return Ok(false);
        }
    }
    Ok(true)
}

/// Returns the number of headers of which everything is found, and what the name that all headers
/// have finds.
fn found_in_ring(alloc: Global, names: &Names<'_>) -> Result<String, AllocError> {
    let mut found = show_found(alloc, find(alloc, names, 77, "Shared", "")?)?;
    let mut count = 0u32;
    for file in 0..HEADERS {
        if finds_all(alloc, names, file)? {
            count = count.wrapping_add(1);
        }
    }
    write!(found, ": {count}")?;
    Ok(found)
}

#[test]
fn a_ring_of_headers(rt: HostRuntime) -> Result<(), Fail> {
    let alloc = rt.alloc();
    let program = ring(alloc)?;
    assert!(rt; program.len() <= 4096);
    let names = Names::build(alloc, &program)?;
    assert_eq!(rt; found_in_ring(alloc, &names)?.as_str(), "using 0 0: 4096");
    Ok(())
}

/// Attributes with their values. An empty text means no value.
const ATTRIBUTES: &[(&str, &str)] = &[
    ("Nested", "inside_sync"),
    ("Nested", "inside_cpow"),
    ("Compress", "all"),
    ("LazySend", ""),
];

fn attribute(alloc: Global, of: &str, value: &str) -> Result<Attribute, AllocError> {
    let value = if value.is_empty() {
        None
    } else {
        Some(name(alloc, value)?)
    };
    Ok(Attribute {
        name: name(alloc, of)?,
        value,
        place: PLACE,
    })
}

/// Returns a sync message with all these attributes.
fn message(alloc: Global, text: &str) -> Result<MessageDecl, AllocError> {
    let mut attributes = Vec::new(alloc);
    for (of, value) in ATTRIBUTES {
        attributes.push(attribute(alloc, of, value)?)?;
    }
    Ok(MessageDecl {
        name: name(alloc, text)?,
        place: PLACE,
        direction: Direction::Parent,
        semantics: Semantics::Sync,
        params: Items::from_vec(Vec::new(alloc)),
        returns: None,
        attributes: Items::from_vec(attributes),
    })
}

/// Returns the protocol `PA`, which manages `PB`.
fn owner(alloc: Global) -> Result<ProtocolDecl, AllocError> {
    let mut manages = Vec::new(alloc);
    manages.push(NameAt {
        name: name(alloc, "PB")?,
        place: PLACE,
    })?;
    let mut owner = protocol(alloc, name(alloc, "PA")?);
    owner.manages = Items::from_vec(manages);
    Ok(owner)
}

/// Appends the kind of a message of this name in a protocol.
fn push_kind(
    alloc: Global,
    owner: &ProtocolDecl,
    text: &str,
    out: &mut String,
) -> Result<(), AllocError> {
    out.push_str(match kind_of(owner, &message(alloc, text)?) {
        MessageKind::Constructor => "constructor ",
        MessageKind::Destructor => "destructor ",
        MessageKind::Normal => "normal ",
    })
}

/// Returns whether the levels, the compression and the laziness of a message and its protocol are
/// those of their attributes, and whether the message does not convert to its protocol, which
/// converts to itself.
fn is_levelled(owner: &ProtocolDecl, makes: &MessageDecl) -> bool {
    let (of_message, of_protocol) = (Strength::of_message(makes), Strength::of_protocol(owner));
    matches!(message_level(makes), Level::InsideSync)
        && matches!(protocol_level(owner), Level::Not)
        && matches!(compress_of(makes), Compress::All)
        && is_lazy(makes)
        && !of_message.converts_to(of_protocol)
        && of_protocol.converts_to(of_protocol)
}

/// Returns the kinds of some messages in a protocol, and whether their levels are right.
fn kinds(alloc: Global) -> Result<String, AllocError> {
    let owner = owner(alloc)?;
    let mut shown = String::new(alloc);
    push_kind(alloc, &owner, "PB", &mut shown)?;
    push_kind(alloc, &owner, "__delete__", &mut shown)?;
    push_kind(alloc, &owner, "Go", &mut shown)?;
    write!(shown, "{}", is_levelled(&owner, &message(alloc, "PB")?))?;
    Ok(shown)
}

#[test]
fn kinds_and_levels(rt: HostRuntime) -> Result<(), Fail> {
    assert_eq!(rt;
        kinds(rt.alloc())?.as_str(),
        "constructor destructor normal true"
    );
    Ok(())
}
