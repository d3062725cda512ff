//! Rows of calls that compile.

/// A program of two messages.
pub const HELLO: &str = "@ PHello.ipdl
protocol PHello {
parent:
    async Hello(int32_t n, nsString s);
child:
    async World();
};
";

/// A program with messages that a list may name.
pub const LISTED: &str = "@ PL.ipdl
sync protocol PL {
parent:
  sync A();
  sync B();
  async C();
};
";

/// Calls. Each row has its subject; the words; the code of the status; after `@ ` what is written to
/// `out`, and after the next `@ ` what is written to `err`; and then each file after `@ `, its name and
/// its bytes. Bytes that are not text are digits after `hex `; `usage` is the text of the usage. `====`
/// separates two rows.
///
/// Calls on words. Each call has the files of `HELLO`.
pub const WORDS: &str = "
PHello.ipdl
0
@ protocol 0 PHello async not
message 0 parent async not plain normal Hello(int32_t n, nsString s)
message 2 child async not plain normal World()
@ ====

PHello.ipdl PHello.ipdl
0
@ protocol 0 PHello async not
message 0 parent async not plain normal Hello(int32_t n, nsString s)
message 2 child async not plain normal World()
@ ====


2
@ @ usage
====

x.txt
2
@ @ usage
====

a/PHello.ipdl PHello.ipdl
2
@ @ usage
====

-s
2
@ @ usage
====

run PHello.ipdl
2
@ @ usage
====
gen-zero
gen 0
2
@ @ usage
====
gen-too-many
gen 1001
2
@ @ usage
";

/// Sync lists. Each call also has the files of `LISTED`.
pub const LISTS: &str = "sync-list
-s sync.ini PL.ipdl
1
@ @ PL.ipdl:3:8: S1 sync message is not listed
sync.ini:1:1: S4 section has no description
sync.ini:3:1: S2 listed message is async
sync.ini:5:1: S3 listed message does not exist
@ sync.ini
[PL::B]
description =
[PL::C]
description = why
[PL::D]
description = gone
====
sync-list-absent
-s sync.ini PL.ipdl
1
@ @ sync.ini:0:0: A3 file not found
====
sync-list-bad-line
-s sync.ini PL.ipdl
1
@ @ sync.ini:1:1: A2 syntax fault
@ sync.ini
x
";

/// Files that are reached, or absent.
pub const REACHES: &str = "manager-and-managed
PMyManager.ipdl
0
@ protocol 0 mozilla::PMyManaged async not
manager mozilla::PMyManager
message 0 both async not plain normal Hello(int32_t? aCount) returns (bool aOk)
message 2 parent async not plain delete __delete__()
protocol 1 mozilla::PMyManager sync not
manages mozilla::PMyManaged
message 65536 parent async not plain constructor PMyManaged()
message 65538 parent sync not plain normal Lookup(nsString aKey) returns (mozilla::MyUnion aFound)
message 65540 child async not plain normal Note(mozilla::MyPair aPair, nullable mozilla::PMyManaged aActor, mozilla::MyData aData)
struct 0 mozilla::MyPair (int32_t first, mozilla::PMyManaged owner)
union 1 mozilla::MyUnion (float, nsString[], mozilla::MyPair)
@ @ MyTypes.ipdlh
include protocol PMyManaged;
using mozilla::MyData from \"MyData.h\";
namespace mozilla {
struct MyPair { int32_t first; PMyManaged owner; };
union MyUnion { float; nsString[]; MyPair; };
}
@ PMyManaged.ipdl
include protocol PMyManager;
namespace mozilla {
[ManualDealloc] async protocol PMyManaged {
  manager PMyManager;
both:
  async Hello(int32_t? aCount) returns (bool aOk);
parent:
  async __delete__();
};
}
@ PMyManager.ipdl
include protocol PMyManaged;
include MyTypes;
using mozilla::MyData from \"MyData.h\";
namespace mozilla {
sync protocol PMyManager {
  manages PMyManaged;
parent:
  async PMyManaged();
  sync Lookup(nsString aKey) returns (MyUnion aFound);
child:
  async Note(MyPair aPair, nullable PMyManaged aActor, MyData aData);
};
} // namespace mozilla
====
missing-file
PNo.ipdl
1
@ @ PNo.ipdl:0:0: A3 file not found
====
missing-include
PH.ipdl
1
@ @ PH.ipdl:1:18: A3 file not found
@ PH.ipdl
include protocol PNone;
protocol PH {
};
====
include-cycle-and-path
--path one:two one/PX.ipdl
0
@ protocol 0 PX async not
message 0 parent async not plain normal M()
protocol 1 PY async not
message 65536 child async not plain normal N(PX p)
@ @ one/PX.ipdl
include protocol PY;
protocol PX {
parent:
  async M();
};
@ two/PY.ipdl
include protocol PX;
protocol PY {
child:
  async N(PX p);
};
";

/// Reports on one file.
pub const REPORTS: &str = "empty-file
PE.ipdl
1
@ @ PE.ipdl:1:1: A2 syntax fault
@ PE.ipdl
====
only-a-comment
PE.ipdl
1
@ @ PE.ipdl:2:1: A2 syntax fault
@ PE.ipdl
// only
====
open-comment
PG.ipdl
1
@ @ PG.ipdl:1:1: A1 bad token
@ PG.ipdl
/* open
====
preprocessor-line
PG.ipdl
1
@ @ PG.ipdl:2:1: A1 bad token
@ PG.ipdl
protocol PG {
#if X
};
====
fifth-suffix
PS.ipdl
1
@ @ PS.ipdl:3:23: A2 syntax fault
@ PS.ipdl
protocol PS {
parent:
  async M(bool[][][][][] a);
};
====
repeated-and-unknown
PHello.ipdl
1
@ @ PHello.ipdl:4:9: B21 repeated name
PHello.ipdl:4:15: B1 unknown type
@ PHello.ipdl
protocol PHello {
parent:
  async Hello(int32_t n);
  async Hello(foo x);
};
====
two-rules-on-one-message
PT.ipdl
1
@ @ PT.ipdl:3:8: B11 sync message of level not sent by the parent
PT.ipdl:3:8: B14 message is stronger than its protocol
@ PT.ipdl
async protocol PT {
child:
  sync M();
};
====
name-of-its-file
PH.ipdl
1
@ @ PH.ipdl:1:10: A4 protocol does not bear the name of its file
@ PH.ipdl
protocol PI {
};
";

/// Names of 1, 21 to 24 and 256 bytes: in tables, each twice, with neighbours that differ only in the
/// last byte, and as names of files in a report.
pub const NAMES: &str = "names-in-tables
PN.ipdl
0
@ protocol 0 PN async not
message 0 parent async not plain normal a()
message 2 parent async not plain normal bbcdefghijklmnopqrstu()
message 4 parent async not plain normal cbcdefghijklmnopqrstuv()
message 6 parent async not plain normal dbcdefghijklmnopqrstuvw()
message 8 parent async not plain normal ebcdefghijklmnopqrstuvwx()
message 10 parent async not plain normal fbcdefghijklmnopqrstuvwxyz0123456789_bcdefghijklmnopqrstuvwxyz0123456789_bcdefghijklmnopqrstuvwxyz0123456789_bcdefghijklmnopqrstuvwxyz0123456789_bcdefghijklmnopqrstuvwxyz0123456789_bcdefghijklmnopqrstuvwxyz0123456789_bcdefghijklmnopqrstuvwxyz0123456789_bcd()
@ @ PN.ipdl
protocol PN {
parent:
  async a();
  async bbcdefghijklmnopqrstu();
  async cbcdefghijklmnopqrstuv();
  async dbcdefghijklmnopqrstuvw();
  async ebcdefghijklmnopqrstuvwx();
  async fbcdefghijklmnopqrstuvwxyz0123456789_bcdefghijklmnopqrstuvwxyz0123456789_bcdefghijklmnopqrstuvwxyz0123456789_bcdefghijklmnopqrstuvwxyz0123456789_bcdefghijklmnopqrstuvwxyz0123456789_bcdefghijklmnopqrstuvwxyz0123456789_bcdefghijklmnopqrstuvwxyz0123456789_bcd();
};
====
names-that-stand-twice
PN.ipdl
1
@ @ PN.ipdl:4:9: B21 repeated name
PN.ipdl:6:9: B21 repeated name
PN.ipdl:8:9: B21 repeated name
PN.ipdl:10:9: B21 repeated name
PN.ipdl:12:9: B21 repeated name
PN.ipdl:14:9: B21 repeated name
@ PN.ipdl
protocol PN {
parent:
  async a();
  async a();
  async bbcdefghijklmnopqrstu();
  async bbcdefghijklmnopqrstu();
  async cbcdefghijklmnopqrstuv();
  async cbcdefghijklmnopqrstuv();
  async dbcdefghijklmnopqrstuvw();
  async dbcdefghijklmnopqrstuvw();
  async ebcdefghijklmnopqrstuvwx();
  async ebcdefghijklmnopqrstuvwx();
  async fbcdefghijklmnopqrstuvwxyz0123456789_bcdefghijklmnopqrstuvwxyz0123456789_bcdefghijklmnopqrstuvwxyz0123456789_bcdefghijklmnopqrstuvwxyz0123456789_bcdefghijklmnopqrstuvwxyz0123456789_bcdefghijklmnopqrstuvwxyz0123456789_bcdefghijklmnopqrstuvwxyz0123456789_bcd();
  async fbcdefghijklmnopqrstuvwxyz0123456789_bcdefghijklmnopqrstuvwxyz0123456789_bcdefghijklmnopqrstuvwxyz0123456789_bcdefghijklmnopqrstuvwxyz0123456789_bcdefghijklmnopqrstuvwxyz0123456789_bcdefghijklmnopqrstuvwxyz0123456789_bcdefghijklmnopqrstuvwxyz0123456789_bcd();
};
====
names-that-differ-in-their-last-byte
PN.ipdl
0
@ protocol 0 PN async not
message 0 parent async not plain normal a()
message 2 parent async not plain normal Z()
message 4 parent async not plain normal bbcdefghijklmnopqrstu()
message 6 parent async not plain normal bbcdefghijklmnopqrstZ()
message 8 parent async not plain normal cbcdefghijklmnopqrstuv()
message 10 parent async not plain normal cbcdefghijklmnopqrstuZ()
message 12 parent async not plain normal dbcdefghijklmnopqrstuvw()
message 14 parent async not plain normal dbcdefghijklmnopqrstuvZ()
message 16 parent async not plain normal ebcdefghijklmnopqrstuvwx()
message 18 parent async not plain normal ebcdefghijklmnopqrstuvwZ()
message 20 parent async not plain normal fbcdefghijklmnopqrstuvwxyz0123456789_bcdefghijklmnopqrstuvwxyz0123456789_bcdefghijklmnopqrstuvwxyz0123456789_bcdefghijklmnopqrstuvwxyz0123456789_bcdefghijklmnopqrstuvwxyz0123456789_bcdefghijklmnopqrstuvwxyz0123456789_bcdefghijklmnopqrstuvwxyz0123456789_bcd()
message 22 parent async not plain normal fbcdefghijklmnopqrstuvwxyz0123456789_bcdefghijklmnopqrstuvwxyz0123456789_bcdefghijklmnopqrstuvwxyz0123456789_bcdefghijklmnopqrstuvwxyz0123456789_bcdefghijklmnopqrstuvwxyz0123456789_bcdefghijklmnopqrstuvwxyz0123456789_bcdefghijklmnopqrstuvwxyz0123456789_bcZ()
@ @ PN.ipdl
protocol PN {
parent:
  async a();
  async Z();
  async bbcdefghijklmnopqrstu();
  async bbcdefghijklmnopqrstZ();
  async cbcdefghijklmnopqrstuv();
  async cbcdefghijklmnopqrstuZ();
  async dbcdefghijklmnopqrstuvw();
  async dbcdefghijklmnopqrstuvZ();
  async ebcdefghijklmnopqrstuvwx();
  async ebcdefghijklmnopqrstuvwZ();
  async fbcdefghijklmnopqrstuvwxyz0123456789_bcdefghijklmnopqrstuvwxyz0123456789_bcdefghijklmnopqrstuvwxyz0123456789_bcdefghijklmnopqrstuvwxyz0123456789_bcdefghijklmnopqrstuvwxyz0123456789_bcdefghijklmnopqrstuvwxyz0123456789_bcdefghijklmnopqrstuvwxyz0123456789_bcd();
  async fbcdefghijklmnopqrstuvwxyz0123456789_bcdefghijklmnopqrstuvwxyz0123456789_bcdefghijklmnopqrstuvwxyz0123456789_bcdefghijklmnopqrstuvwxyz0123456789_bcdefghijklmnopqrstuvwxyz0123456789_bcdefghijklmnopqrstuvwxyz0123456789_bcdefghijklmnopqrstuvwxyz0123456789_bcZ();
};
====
names-of-files
Pxbcdefghijklmno.ipdl Pxbcdefghijklmnop.ipdl Pxbcdefghijklmnopq.ipdl Pxbcdefghijklmnopqr.ipdl
1
@ @ Pxbcdefghijklmno.ipdl:3:11: B1 unknown type
Pxbcdefghijklmnop.ipdl:3:11: B1 unknown type
Pxbcdefghijklmnopq.ipdl:3:11: B1 unknown type
Pxbcdefghijklmnopqr.ipdl:3:11: B1 unknown type
@ Pxbcdefghijklmno.ipdl
protocol Pxbcdefghijklmno {
parent:
  async M(Nothing n);
};
@ Pxbcdefghijklmnop.ipdl
protocol Pxbcdefghijklmnop {
parent:
  async M(Nothing n);
};
@ Pxbcdefghijklmnopq.ipdl
protocol Pxbcdefghijklmnopq {
parent:
  async M(Nothing n);
};
@ Pxbcdefghijklmnopqr.ipdl
protocol Pxbcdefghijklmnopqr {
parent:
  async M(Nothing n);
};
";
