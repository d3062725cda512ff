//! Tests of what names find in a program of several files.

use super::founds::{wrong_lookups, wrong_protocols};
use super::given::{files, program};
use name_table::Names;
use std::test::Fail;

/// A program with headers in a ring, namespaces, `using` and endpoints. In the order of the reach:
/// 0 PMain, 1 POther, 2 HOne, 3 HFour, 4 HTwo, 5 PThird, 6 HThree.
const PROGRAM: &str = "@ PMain.ipdl
include protocol POther;
include HOne;
using mozilla::MyData from \"x.h\";
using std::vector<mozilla::Foo> from \"x.h\";
using nsCString from \"x.h\";
using class x::int32_t from \"x.h\";
using Endpoint<POther> from \"x.h\";
using Endpoint<PGone> from \"x.h\";
using struct mozilla::ipc::ManagedEndpoint from \"x.h\";
using Endpoint from \"x.h\";
using ManagedEndpoint<a::b::PMain> from \"x.h\";
using mozilla::ipc::ByteBuf from \"x.h\";
using y::PThird from \"x.h\";
struct Own { int32_t a; };
namespace a {
namespace b {
struct Deep { int32_t x; };
union Twice { int32_t; };
protocol PMain { };
}
}
@ POther.ipdl
include HFour;
struct OtherOwn { };
protocol POther { };
@ HOne.ipdlh
include HTwo;
include protocol PThird;
using mozilla::MyData from \"y.h\";
namespace h { struct One { }; struct Twice { }; }
@ HTwo.ipdlh
include HThree;
struct Two { };
@ HThree.ipdlh
include HOne;
union Three { bool; };
@ HFour.ipdlh
struct Four { };
struct Four { };
@ PThird.ipdl
namespace t { protocol PThird { }; }
";

/// Rows: the file that looks the name up, the name, its argument, if it has one, and what it finds.
const LOOKUPS: &str = "# A file's own declarations, by full and by short names.
0 Own => struct 0 0
0 a::b::Deep => struct 0 1
0 Deep => struct 0 1
0 b::Deep => none
0 a::b::Twice => union 0 0
0 PMain => protocol 0
0 a::b::PMain => protocol 0
0 a => none
# What headers see, round the ring.
0 One => struct 2 0
0 h::One => struct 2 0
0 Two => struct 4 0
0 Three => union 6 0
4 One => struct 2 0
4 Two => struct 4 0
4 Own => none
6 h::Twice => struct 2 1
6 Three => union 6 0
2 Three => union 6 0
# Of a protocol file that is included, the protocol alone.
0 POther => protocol 1
0 OtherOwn => none
0 Four => none
1 OtherOwn => struct 1 0
1 POther => protocol 1
1 PMain => none
4 PThird => protocol 5
4 t::PThird => protocol 5
4 POther => none
6 PThird => protocol 5
5 Two => none
# Names that find two, of several files or of one.
0 Twice => many
6 Twice => struct 2 1
1 Four => many
3 Four => many
0 PThird => many
0 y::PThird => using 0 10
0 t::PThird => protocol 5
# Two `using` of one full name are one declaration, the first that is seen.
0 MyData => using 0 0
0 mozilla::MyData => using 0 0
6 MyData => using 2 0
1 MyData => none
# A `using` with an argument is found by its whole text.
0 std::vector mozilla::Foo => using 0 1
0 vector mozilla::Foo => none
0 std::vector => none
0 std::vector Foo => none
2 std::vector mozilla::Foo => none
# Builtins, and `using` of their names.
0 bool => bool
5 uintptr_t => uintptr_t
0 nsCString => nsCString
0 int32_t => many
0 x::int32_t => using 0 3
1 int32_t => int32_t
0 ByteBuf => ByteBuf
0 mozilla::ipc::ByteBuf => ByteBuf
3 mozilla::ipc::Shmem => Shmem
3 mozilla::ipc::FileDescriptor => FileDescriptor
3 FileDescriptor => FileDescriptor
3 mozilla::ipc::bool => none
3 ipc::Shmem => none
0 bool Own => none
# Endpoints, and `using` of their texts.
0 Endpoint => none
0 Endpoint POther => endpoint 1 false
0 ManagedEndpoint POther => endpoint 1 true
0 ManagedEndpoint PMain => endpoint 0 true
0 Endpoint a::b::PMain => endpoint 0 false
0 ManagedEndpoint a::b::PMain => endpoint 0 true
0 Endpoint PGone => using 0 5
0 Endpoint Own => none
0 Endpoint PThird => endpoint 5 false
0 ManagedEndpoint => using 0 6
0 mozilla::ipc::ManagedEndpoint => using 0 6
0 Own POther => none
1 Endpoint PMain => none
1 ManagedEndpoint POther => endpoint 1 true
3 ManagedEndpoint => none";

/// Rows: the file that looks the name up, the name after `manager` or `manages`, and the protocol
/// that it finds.
const PROTOCOLS: &str = "0 POther => protocol 1
0 PMain => protocol 0
0 a::b::PMain => protocol 0
0 PThird => protocol 5
0 Own => none
0 Twice => none
0 bool => none
1 PMain => none
6 PThird => protocol 5";

#[test]
fn finds(rt: HostRuntime) -> Result<(), Fail> {
    let alloc = rt.alloc();
    let program = program(alloc, files(alloc, PROGRAM, 0)?, "PMain.ipdl")?;
    assert_eq!(rt; program.len(), 7);
    let names = Names::build(alloc, &program)?;
    assert_eq!(rt; wrong_lookups(alloc, &names, LOOKUPS)?.as_str(), "");
    assert_eq!(rt; wrong_protocols(alloc, &names, PROTOCOLS)?.as_str(), "");
    Ok(())
}
