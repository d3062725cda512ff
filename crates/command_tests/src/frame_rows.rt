//! Rows of calls of `frames`.

/// A program of one message.
pub const FLAG: &str = "@ PF.ipdl
protocol PF {
parent:
  async Flag(bool b);
};
";

/// Calls on files of frames, in the form of `call_rows`: the worked ones by name, and others. Each also
/// has `FLAG`, after its own files.
pub const FRAMES: &str = "frames-absent
frames PF.ipdl f.bin
8
@ @ f.bin:0: absent
====
frames-bad-padding
frames PF.ipdl f.bin
8
@ @ f.bin:31: F14 bad padding
@ f.bin
hex 4950443204000000ffffff7f0000000000000000ffffffff0000000001000001
====
frames-bad-tag
frames PF.ipdl f.bin
8
@ @ f.bin:24: F5 bad tag
@ f.bin
hex 01000000ffffff7f0000000000000000ffffffff0000000002
====
frames-convert
frames --to 2 PF.ipdl f.bin
0
@ hex 4950443204000000ffffff7f0000000000000000ffffffff0000000001000000
@ @ f.bin
hex 01000000ffffff7f0000000000000000ffffffff0000000001
====
frames-empty
frames PF.ipdl f.bin
0
@ @ @ f.bin
====
frames-new
frames PF.ipdl f.bin
0
@ 0 request -1/0 to 2147483647 PF.Flag(true)
@ @ f.bin
hex 4950443204000000ffffff7f0000000000000000ffffffff0000000001000000
====
frames-short
frames PF.ipdl f.bin
8
@ 0 request -1/0 to 2147483647 PF.Flag(true)
25 request -1/0 to 2147483647 PF.Flag(true)
@ f.bin:50: short 14
@ f.bin
hex 01000000ffffff7f0000000000000000ffffffff000000000101000000ffffff7f0000000000000000ffffffff000000000101000000ffffff7f0000
====
frames-struct
frames PV.ipdl v.bin
0
@ 0 request -1/0 to 2147483647 PV.M({-2, some true})
@ @ PV.ipdl
struct S { int16_t a; bool? b; }; protocol PV { parent: async M(S s); };
@ v.bin
hex 05000000ffffff7f0000000000000000ffffffff0000000053feff0101
====
frames-struct-bad
frames PV.ipdl v.bin
8
@ @ v.bin:24: F5 bad tag
@ PV.ipdl
struct S { int16_t a; bool? b; }; protocol PV { parent: async M(S s); };
@ v.bin
hex 05000000ffffff7f0000000000000000ffffffff0000000054feff0101
====
an old frame behind a new one, and the other way round
frames PF.ipdl f.bin
0
@ 0 request -1/0 to 2147483647 PF.Flag(true)
32 request -1/0 to 2147483647 PF.Flag(true)
57 request -1/0 to 2147483647 PF.Flag(true)
@ @ f.bin
hex 4950443204000000ffffff7f0000000000000000ffffffff000000000100000001000000ffffff7f0000000000000000ffffffff00000000014950443204000000ffffff7f0000000000000000ffffffff0000000001000000
====
what stands before a fault is converted
frames PF.ipdl --to=02 f.bin
8
@ hex 4950443204000000ffffff7f0000000000000000ffffffff00000000010000004950443204000000ffffff7f0000000000000000ffffffff0000000001000000
@ f.bin:81: F5 bad tag
@ f.bin
hex 01000000ffffff7f0000000000000000ffffffff00000000014950443204000000ffffff7f0000000000000000ffffffff000000000100000001000000ffffff7f0000000000000000ffffffff0000000002
====
fewer bytes than a mark are those of an old frame
frames PF.ipdl f.bin
8
@ @ f.bin:0: short 21
@ f.bin
hex 495044
====
a mark alone
frames PF.ipdl f.bin
8
@ 0 request -1/0 to 2147483647 PF.Flag(true)
@ f.bin:32: short 24
@ f.bin
hex 4950443204000000ffffff7f0000000000000000ffffffff000000000100000049504432
====
a goodbye, and one with a payload
frames PF.ipdl f.bin
8
@ 0 goodbye
@ f.bin:48: F8 payload too long
@ f.bin
hex 00000000000000000000ffff00000000000000000000000001000000000000000000ffff00000000000000000000000000
====
the report comes first, whatever the frames are
frames PF.ipdl f.bin
1
@ @ PF.ipdl:3:14: B1 unknown type
@ PF.ipdl
protocol PF {
parent:
  async Flag(Bool b);
};
@ f.bin
hex 01000000ffffff7f0000000000000000ffffffff0000000002
====
a constructor, replies, a fault and a destructor
frames PM.ipdl m.bin
0
@ 0 request 1/0 to 2147483647 PM.PN(-2) made 6
29 request -1/-1 to 2147483647 PM.Ask(null)
57 reply -1/-1 to 2147483647 PM.Ask ok (h\"0aff\")
87 reply -1/-1 to 2147483647 PM.Ask fault HandlerRejected
112 request -2/0 to 6 PN.__delete__()
@ @ PM.ipdl
include protocol PN;
sync protocol PM {
  manages PN;
parent:
  sync Ask(nullable PN p) returns (nsCString s);
child:
  async PN(int8_t n);
};
@ PN.ipdl
include protocol PM;
protocol PN {
  manager PM;
parent:
  async __delete__();
};
@ m.bin
hex 05000000ffffff7f0200000000000000010000000000000006000000fe04000000ffffff7f0000000001000000ffffffffffffffff0000000006000000ffffff7f0100000009000000ffffffffffffffff020000000aff01000000ffffff7f0100000019000000ffffffffffffffff0300000000060000000000010000000000feffffff00000000
";
