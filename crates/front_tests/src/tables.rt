//! Tests of the schema of a program and of its tables.

ghost use Rattle.ipdl_base.specs.Sound.{IsSound};

use super::given::{files, note};
use actor_tables::table_text;
use ipdl_base::Schema;
use schema_of_text::schema_of;
use std::alloc::{AllocError, Global};
use std::test::Fail;

/// Programs that break no rule. Each row has its subject, which of its messages are carried, in the
/// table's order, its table, and then each file after `@ `. The first file is the word of the
/// command. `====` separates rows.
const TABLES: &str = "A manager, what it manages, and types of a header.
true true true true true 
protocol 0 mozilla::PMyManaged async not
manager mozilla::PMyManager
message 0 both async not plain normal Hello(int32_t? aCount) returns (bool aOk)
message 2 parent async not plain delete __delete__()
protocol 1 mozilla::PMyManager sync not
manages mozilla::PMyManaged
message 65536 parent async not plain constructor PMyManaged()
message 65538 parent sync not plain normal Lookup(nsString aKey) returns (mozilla::MyUnion aFound)
message 65540 child async not plain normal Note(mozilla::MyPair aPair, nullable mozilla::PMyManaged aActor, mozilla::MyData aData)
struct 0 mozilla::MyPair (int32_t first, mozilla::PMyManaged owner)
union 1 mozilla::MyUnion (float, nsString[], mozilla::MyPair)
@ PMyManager.ipdl
include protocol PMyManaged;
include MyTypes;
using mozilla::MyData from \"MyData.h\";
namespace mozilla {
sync protocol PMyManager {
  manages PMyManaged;
parent:
  async PMyManaged();
  sync Lookup(nsString aKey) returns (MyUnion aFound);
child:
  async Note(MyPair aPair, nullable PMyManaged aActor, MyData aData);
};
} // namespace mozilla
@ PMyManaged.ipdl
include protocol PMyManager;
namespace mozilla {
[ManualDealloc] async protocol PMyManaged {
  manager PMyManager;
both:
  async Hello(int32_t? aCount) returns (bool aOk);
parent:
  async __delete__();
};
}
@ MyTypes.ipdlh
include protocol PMyManaged;
using mozilla::MyData from \"MyData.h\";
namespace mozilla {
struct MyPair { int32_t first; PMyManaged owner; };
union MyUnion { float; nsString[]; MyPair; };
}
====
A union that holds arrays of itself.
true 
protocol 0 PU async not
message 0 parent async not plain normal M(U u)
union 0 U (int32_t, U[])
@ PU.ipdl
union U { int32_t; U[]; };
protocol PU {
parent:
  async M(U u);
};
====
A protocol that manages itself.
true true 
protocol 0 PD async not
manager PD
manages PD
message 0 parent async not plain constructor PD()
message 2 parent async not plain delete __delete__()
@ PD.ipdl
protocol PD {
  manager PD;
  manages PD;
parent:
  async PD();
  async __delete__();
};
====
Protocols by their full names, whatever their files; attributes; Shmem inside of a struct.
true false false false true false 
protocol 0 PKid async not
manager a::PMain
message 0 parent async not plain delete __delete__()
protocol 1 a::PMain sync inside_sync
manages PKid
message 65536 parent sync inside_sync plain normal Get(nullable PKid kid, int32_t[] xs, mozilla::Data? d) returns (a::Zed z)
message 65538 parent async not plain normal Plain(UniquePtr<Inner[]> p)
message 65540 both async not plain constructor PKid(Endpoint<PKid> e)
message 65542 child async not compressall normal Tick()
message 65544 child async not plain lazy Lazy(Leaf l)
struct 0 a::Zed (Inner one, int32_t two)
struct 1 Inner (Leaf l)
union 2 Leaf (Shmem, int32_t)
@ PMain.ipdl
include protocol PKid;
include HTypes;
using mozilla::Data from \"x.h\";
namespace a {
struct Zed { Inner one; int32_t two; };
[NestedUpTo=inside_sync] sync protocol PMain {
  manages PKid;
parent:
  [Nested=inside_sync] sync Get(nullable PKid kid, int32_t[] xs, Data? d) returns (Zed z);
  async Plain(UniquePtr<Inner[]> p);
both:
  async PKid(Endpoint<PKid> e);
child:
  [Compress=all] async Tick();
  [LazySend] async Lazy(Leaf l);
};
}
@ PKid.ipdl
include protocol PMain;
protocol PKid { manager PMain; parent: async __delete__(); };
@ HTypes.ipdlh
struct Inner { Leaf l; };
union Leaf { Shmem; int32_t; };
====
Types by file and place, unions among structs; suffixes from left to right.
false true 
protocol 0 PA async not
message 0 parent async not plain normal M(ManagedEndpoint<PA> e)
message 2 parent async not plain normal N(T t, U u)
union 0 U (S[]?)
struct 1 S (int32_t?[] a)
struct 2 R ()
struct 3 T (UniquePtr<nullable PA>[] p, bool b)
@ PA.ipdl
include h;
union U { S[]?; };
struct S { int32_t?[] a; };
protocol PA {
parent:
  async M(ManagedEndpoint<PA> e);
  async N(T t, U u);
};
struct R { };
@ h.ipdlh
struct T { UniquePtr<nullable PA>[] p; bool b; };
include protocol PA;
";

/// Returns for each message of a schema whether it is carried, with a space after it.
fn carried(alloc: Global, schema: &Schema) -> Result<String, AllocError> {
    let mut shown = String::new(alloc);
    for protocol in schema.protocols.as_slice() {
        for message in protocol.messages.as_slice() {
            let carried = message.carried;
            write!(shown, "{carried} ")?;
        }
    }
    Ok(shown)
}

/// Records the row of a program if its table, or which of its messages are carried, is not as expected.
fn check(alloc: Global, row: &str, wrong: &mut String) -> Result<(), Fail> {
    let (head, pieces) = row.split_once("@ ").ok_or("a row without a file")?;
    let (about, head) = head.split_once("\n").ok_or("a row without its messages")?;
    let (wanted, table) = head.split_once("\n").ok_or("a row without its table")?;
    let (word, _) = pieces.split_once("\n").ok_or("a file without its name")?;
    let schema = schema_of(alloc, files(alloc, pieces, 0)?, word)?;
    note(about, carried(alloc, &schema)?.as_str(), wanted, wrong)?;
    let text = table_text(alloc, &schema)?;
    Ok(note(about, str::from_utf8(text.as_slice())?, table, wrong)?)
}

/// Returns the rows of the programs with other tables than expected.
fn wrong_tables(alloc: Global) -> Result<String, Fail> {
    let mut wrong = String::new(alloc);
    for row in TABLES.split("====\n") {
        check(alloc, row, &mut wrong)?;
    }
    Ok(wrong)
}

#[test]
fn tables(rt: HostRuntime) -> Result<(), Fail> {
    assert_eq!(rt; wrong_tables(rt.alloc())?.as_str(), "");
    Ok(())
}

/// A program with a message that has no reply and one that has a reply.
const REPLIES: &str = "@ P.ipdl
sync protocol P {
parent:
  async Ping();
  sync Ask() returns ();
};
";

/// Returns the numbers of the messages that these numbers belong to, and whether there are
/// protocols with these numbers.
fn numbered(alloc: Global, schema: &Schema) -> Result<String, AllocError>
    requires { IsSound schema.now }
{
    let mut shown = String::new(alloc);
    for number in [0, 1, 2, 3, 4, 65536] {
        match schema.message(number) {
            Some(row) => write!(shown, "{} ", row.number)?,
            None => shown.push_str("none ")?,
        }
    }
    for number in [0, 1] {
        write!(shown, "{} ", schema.protocol(number).is_some())?;
    }
    Ok(shown)
}

/// Finds the messages of a schema by their numbers. One has no reply and one has a reply.
#[test]
fn messages_by_number(rt: HostRuntime) -> Result<(), Fail> {
    let alloc = rt.alloc();
    let schema = schema_of(alloc, files(alloc, REPLIES, 0)?, "P.ipdl")?;
    let wanted = "0 none 2 2 none none true false ";
    assert_eq!(rt; numbered(alloc, &schema)?.as_str(), wanted);
    Ok(())
}
