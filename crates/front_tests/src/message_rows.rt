//! The rows of the tests of the rules on messages.

/// Programs with their findings of the rules on messages, in the form of the rows on types.
pub const MESSAGES: &str = "B11 and B14 on one message
0:3:8 B11 0:3:8 B14 
@ PT.ipdl
async protocol PT {
child:
  sync M();
};
====
B11 under both
0:3:8 B11 
@ PA.ipdl
sync protocol PA {
both:
  sync M();
parent:
  sync N();
};
====
A sync message of level inside_sync may be sent by the parent

@ PW.ipdl
[NestedUpTo=inside_sync] sync protocol PW {
child:
  [Nested=inside_sync] sync A();
both:
  [Nested=inside_sync] sync B();
};
====
B11 where the first Nested lists no value
0:3:39 B11 
@ PA.ipdl
[NestedUpTo=inside_sync] sync protocol PA {
child:
  [Nested=x, Nested=inside_sync] sync M();
};
====
B12: an async message of level inside_sync
0:3:30 B12 
@ PA.ipdl
[NestedUpTo=inside_sync] sync protocol PA {
parent:
  [Nested=inside_sync] async M();
  [Nested=inside_sync] sync N();
  [Nested=not] async O();
};
====
B13: a message of level inside_cpow that the parent may send
0:3:30 B13 0:5:29 B13 
@ PA.ipdl
[NestedUpTo=inside_cpow] sync protocol PA {
child:
  [Nested=inside_cpow] async M();
both:
  [Nested=inside_cpow] sync N();
parent:
  [Nested=inside_cpow] async O();
  [Nested=inside_cpow] sync Q();
};
====
B14: a level that the protocol has not
0:3:30 B14 
@ PA.ipdl
[NestedUpTo=inside_sync] sync protocol PA {
parent:
  [Nested=inside_cpow] async M();
  [Nested=inside_sync] sync N();
  async O();
};
====
B14: sync in an async protocol
0:3:8 B14 
@ PA.ipdl
protocol PA {
parent:
  sync M();
  async N();
};
====
Levels come from Nested and not from NestedUpTo
0:4:29 B14 
@ PA.ipdl
[Nested=inside_sync] sync protocol PA {
parent:
  [NestedUpTo=inside_sync] async M();
  [Nested=inside_sync] sync N();
};
====
B16: compressed and sync
0:3:19 B16 0:4:23 B16 
@ PA.ipdl
sync protocol PA {
parent:
  [Compress] sync M();
  [Compress=all] sync N();
  [Compress] async O();
  [Compress=x] sync Q();
};
====
B16: a compressed constructor and destructor
0:5:24 B16 1:5:20 B16 
@ PA.ipdl
include protocol PB;
protocol PA {
  manages PB;
parent:
  [Compress=all] async PB();
};
@ PB.ipdl
include protocol PA;
protocol PB {
  manager PA;
parent:
  [Compress] async __delete__();
};
====
B24: lazy and sync; with a value LazySend says nothing
0:3:19 B24 
@ PLz.ipdl
sync protocol PLz {
parent:
  [LazySend] sync M();
  [LazySend=x] sync N();
  [LazySend] async O();
};
====
B24: a lazy constructor and destructor
0:5:20 B24 1:5:20 B24 
@ PA.ipdl
include protocol PB;
protocol PA {
  manages PB;
parent:
  [LazySend] async PB();
};
@ PB.ipdl
include protocol PA;
protocol PB {
  manager PA;
parent:
  [LazySend] async __delete__();
};
====
B22: parameters and returns of one message
0:3:27 B22 0:3:64 B22 0:3:72 B22 
@ PA.ipdl
protocol PA {
parent:
  async M(int32_t a, bool a, bool b) returns (bool c, nsString b, bool a);
  async N(bool a, bool b, bool A);
};
====
B22 among returns alone; two messages may share names
0:3:48 B22 
@ PA.ipdl
protocol PA {
parent:
  async M(int32_t x) returns (bool c, nsString c);
  async N(bool x) returns (bool c);
};
====
B23: a destructor with returns, and one that is sync
0:3:9 B23 
@ PA.ipdl
sync protocol PA {
parent:
  async __delete__() returns (bool b);
};
====
B23: a sync destructor
0:3:8 B23 
@ PA.ipdl
sync protocol PA {
parent:
  sync __delete__();
};
====
B23: an async constructor with returns; a sync one may have them
0:5:9 B23 
@ PA.ipdl
include protocol PB;
protocol PA {
  manages PB;
parent:
  async PB() returns (bool b);
};
@ PB.ipdl
include protocol PA;
protocol PB {
  manager PA;
parent:
  async __delete__();
};
====
A sync constructor with returns

@ PA.ipdl
include protocol PB;
sync protocol PA {
  manages PB;
parent:
  sync PB() returns (bool b);
};
@ PB.ipdl
include protocol PA;
protocol PB {
  manager PA;
parent:
  async __delete__();
};
====
A message whose manages name finds no protocol is a constructor all the same
0:2:11 B8 0:4:20 B16 0:4:20 B23 
@ PA.ipdl
protocol PA {
  manages PX;
parent:
  [Compress] async PX() returns (bool b);
};
====
A plain message with returns is fine, a destructor with parameters too

@ PA.ipdl
protocol PA {
parent:
  async M() returns (bool b);
  async __delete__(int32_t a);
};
====
Findings of two files
0:4:8 B14 1:3:8 B11 1:3:8 B14 
@ PA.ipdl
include protocol PB;
protocol PA {
parent:
  sync M();
};
@ PB.ipdl
protocol PB {
child:
  sync N();
};
";

/// The number of these programs.
pub const MESSAGES_COUNT: &str = "22";
