//! Rows of calls of `waits`.

/// Calls of the command that lists what may interrupt a wait, in the form of `call_rows`: the worked
/// ones by name, and others.
pub const WAITS: &str = "waits-managed
waits PM.ipdl
0
@ child waits PM.Ask takes PN.Ping
@ @ PM.ipdl
include protocol PN; [NestedUpTo=inside_sync] sync protocol PM { manages PN; parent: sync Ask(); child: async PN(); };
@ PN.ipdl
include protocol PM; [NestedUpTo=inside_sync] sync protocol PN { manager PM; child: [Nested=inside_sync] sync Ping(); async __delete__(); };
====
waits-not-carried
waits PW.ipdl
0
@ @ @ PW.ipdl
[NestedUpTo=inside_cpow]
sync protocol PW {
parent:
  [Nested=inside_sync] sync CallP() returns (int32_t r);
  [Nested=inside_cpow] async Poke();
  sync Base();
child:
  [Nested=inside_sync] sync CallC(Shmem s) returns (int32_t r);
  async Tell(int32_t n);
  async Give(PW w);
};
====
waits-nothing
waits PHello.ipdl
0
@ @ @ PHello.ipdl
protocol PHello {
parent:
  async Hello(int32_t n, nsString s);
child:
  async World();
};
====
waits-pw
waits PW.ipdl
0
@ parent waits PW.CallC takes PW.CallP
parent waits PW.CallC takes PW.Poke
child waits PW.CallP takes PW.CallC
child waits PW.Base takes PW.CallC
@ @ PW.ipdl
[NestedUpTo=inside_cpow]
sync protocol PW {
parent:
  [Nested=inside_sync] sync CallP() returns (int32_t r);
  [Nested=inside_cpow] async Poke();
  sync Base();
child:
  [Nested=inside_sync] sync CallC() returns (int32_t r);
  async Tell(int32_t n);
  async Give(PW w);
};
====
the top of a file that has a manager
waits PN.ipdl
0
@ @ @ PM.ipdl
include protocol PN; [NestedUpTo=inside_sync] sync protocol PM { manages PN; parent: sync Ask(); child: async PN(); };
@ PN.ipdl
include protocol PM; [NestedUpTo=inside_sync] sync protocol PN { manager PM; child: [Nested=inside_sync] sync Ping(); async __delete__(); };
====
a file in a folder
waits a/PM.ipdl --path a
0
@ child waits PM.Ask takes PN.Ping
@ @ a/PM.ipdl
include protocol PN; [NestedUpTo=inside_sync] sync protocol PM { manages PN; parent: sync Ask(); child: async PN(); };
@ a/PN.ipdl
include protocol PM; [NestedUpTo=inside_sync] sync protocol PN { manager PM; child: [Nested=inside_sync] sync Ping(); async __delete__(); };
====
a file that is not there
waits PW.ipdl
1
@ @ PW.ipdl:0:0: A3 file not found
====
a protocol that bears another name
waits PA.ipdl
1
@ @ PA.ipdl:2:10: A4 protocol does not bear the name of its file
@ PA.ipdl
sync
protocol PB { parent: sync M(); };
====
namespaces
waits PA.ipdl
0
@ parent waits PA.Call takes PA.Ask
child waits PA.Ask takes PA.Call
@ @ PA.ipdl
namespace z {
[NestedUpTo=inside_sync] sync protocol PA { parent: [Nested=inside_sync] sync Ask(); child: [Nested=inside_sync] sync Call(); };
}
====
no file
waits
2
@ @ usage
";
