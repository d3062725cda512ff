//! Files of worked protocols.

use memory_files::MemoryFiles;
use std::alloc::{AllocError, Global};

/// Files of protocols. Each begins with `@ ` and its name, followed by its text.
const PROTOCOLS: &str = "@ PC.ipdl
protocol PC { parent: [Compress] async Up(int32_t n); [Compress=all] async Alls(int32_t n); async Mark(); [Compress] async Ask(int32_t n) returns (bool b); };
@ PDesk.ipdl
include protocol PPage;

struct Spread {
  nullable PPage left;
  PPage[] pages;
};

[NestedUpTo=inside_cpow]
sync protocol PDesk {
  manages PPage;
parent:
  [Nested=inside_sync] sync Open(nullable PPage p) returns (PPage r);
  [Nested=inside_cpow] sync Peek() returns (nullable PPage r);
child:
  [Nested=inside_sync] sync Turn(PPage p) returns (nullable PPage r);
both:
  async PPage();
  async Show(Spread s);
  async Find(nullable PPage[] among) returns (PPage r);
  async List() returns (Spread s);
};
@ PPage.ipdl
include protocol PDesk;

[NestedUpTo=inside_cpow]
sync protocol PPage {
  manager PDesk or PPage;
  manages PPage;
parent:
  [Nested=inside_sync] sync Read() returns (int32_t n);
both:
  async PPage();
  async Get() returns (int32_t n);
  async __delete__();
};
@ PF.ipdl
protocol PF { parent: async Flag(bool b); };
@ PHub.ipdl
include protocol PTab;

union Target {
  nullable PTab;
  int32_t;
};

[NestedUpTo=inside_cpow]
sync protocol PHub {
  manages PTab;
parent:
  [Nested=inside_cpow] sync PTab(nullable PTab like) returns (bool b);
  [Nested=inside_sync] sync Wait(Target t) returns (Target r);
  [Nested=inside_cpow] async Push(PTab? t);
child:
  [Nested=inside_sync] sync Call(int32_t n) returns (PTab t);
both:
  [LazySend] async Note(nullable PTab t);
  [Compress] async Move(PTab t) returns (nullable PTab r);
  [Compress=all] async Set(nullable PTab t, nsString s);
};
@ PTab.ipdl
include protocol PHub;

[NestedUpTo=inside_cpow]
sync protocol PTab {
  manager PHub;
parent:
  [Nested=inside_cpow] async __delete__();
child:
  [Nested=inside_sync] sync Ping() returns (nullable PTab t);
both:
  async Get() returns (nsString s);
};
@ PLz.ipdl
protocol PLz { parent: [LazySend] async Lz(int32_t n); async Now(); };
@ PM.ipdl
include protocol PN; [NestedUpTo=inside_sync] sync protocol PM { manages PN; parent: sync Ask(); child: async PN(); };
@ PN.ipdl
include protocol PM; [NestedUpTo=inside_sync] sync protocol PN { manager PM; child: [Nested=inside_sync] sync Ping(); async __delete__(); };
@ POwn.ipdl
include protocol PTmp; protocol POwn { manages PTmp; parent: async PTmp(); child: async Mark(nullable PTmp p); };
@ PTmp.ipdl
include protocol POwn; protocol PTmp { manager POwn; both: async Hi(); async __delete__(); };
@ PQ.ipdl
protocol PQ { both: async Get() returns (int32_t r); parent: async Tell(int32_t n); };
@ PR.ipdl
include protocol PK; protocol PR { manages PK; parent: async PK(); };
@ PK.ipdl
include protocol PR; protocol PK { manager PR or PK; manages PK; parent: async PK(); async Get() returns (int32_t r); async __delete__(); };
@ PTwo.ipdl
[NestedUpTo=inside_cpow]
sync protocol PTwo {
parent:
  [Nested=inside_cpow] async Ask(int32_t n) returns (int32_t r);
  async Start() returns (int32_t r);
child:
  [Nested=inside_sync] sync Call() returns (int32_t r);
};
@ PW.ipdl
[NestedUpTo=inside_cpow]
sync protocol PW {
parent:
  [Nested=inside_sync] sync CallP() returns (int32_t r);
  [Nested=inside_cpow] async Poke();
  sync Base();
child:
  [Nested=inside_sync] sync CallC() returns (int32_t r);
  async Tell(int32_t n);
  async Give(PW w);
};
";

/// Returns a file with this name and text.
fn file(alloc: Global, name: &str, text: &str) -> Result<(String, Vec<u8>), AllocError> {
    let name = String::from_str(alloc, name)?;
    Ok((name, Vec::from_slice(alloc, text.as_bytes())?))
}

/// Returns the files of all worked protocols, in memory.
pub fn protocol_files(alloc: Global) -> Result<MemoryFiles, AllocError> {
    let mut files = Vec::new(alloc);
    for piece in PROTOCOLS.split("@ ") {
        if let Some((name, text)) = piece.split_once("\n") {
            files.push(file(alloc, name, text)?)?;
        }
    }
    Ok(MemoryFiles::new(files, Vec::new(alloc)))
}
