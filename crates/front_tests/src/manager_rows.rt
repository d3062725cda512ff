//! The rows of the tests of the rules on managers.

/// Programs with their findings of the rules on managers, in the form of the rows on types.
pub const MANAGERS: &str = "A manager and what it manages: nothing is broken

@ PA.ipdl
include protocol PB;
protocol PA {
  manages PB;
parent:
  async PB();
};
@ PB.ipdl
include protocol PA;
protocol PB {
  manager PA;
parent:
  async __delete__();
};
====
B8: a manager that is unknown
0:2:11 B8 
@ PA.ipdl
protocol PA {
  manager PX;
parent:
  async __delete__();
};
====
B8: a managed protocol that is unknown
0:2:11 B8 
@ PA.ipdl
protocol PA {
  manages PX;
};
====
B8 of a struct's name: protocols alone are found
0:3:11 B8 0:4:11 B8 
@ PA.ipdl
struct S { };
protocol PA {
  manages S;
  manager int32_t;
parent:
  async __delete__();
};
====
B8 of the second of two managers
0:3:17 B8 
@ PA.ipdl
include protocol PB;
protocol PA {
  manager PB or PX;
parent:
  async __delete__();
};
@ PB.ipdl
include protocol PA;
protocol PB {
  manages PA;
parent:
  async PA();
};
====
A protocol that is not included is unknown, though it is read
0:3:11 B8 
@ PA.ipdl
include h;
protocol PA {
  manages PC;
};
@ h.ipdlh
include protocol PB;
@ PB.ipdl
include protocol PC;
protocol PB { };
@ PC.ipdl
protocol PC { };
====
A protocol is seen through a header, and found by the word of its short name in namespaces

@ PA.ipdl
include h;
namespace n {
protocol PA {
  manages PB;
parent:
  async PB();
};
}
@ h.ipdlh
include protocol PB;
@ PB.ipdl
include protocol PA;
namespace m {
protocol PB {
  manager PA;
parent:
  async __delete__();
};
}
====
B9: managed, and does not name the manager
0:3:11 B9 
@ PA.ipdl
include protocol PB;
protocol PA {
  manages PB;
parent:
  async PB();
};
@ PB.ipdl
include protocol PA;
protocol PB {
parent:
  async M();
};
====
B9: a manager that does not manage
1:3:11 B9 
@ PA.ipdl
include protocol PB;
protocol PA {
parent:
  async M();
};
@ PB.ipdl
include protocol PA;
protocol PB {
  manager PA;
parent:
  async __delete__();
};
====
B9 at one of two managers
1:4:17 B9 
@ PA.ipdl
include protocol PB;
include protocol PC;
protocol PA {
  manages PB;
parent:
  async PB();
};
@ PB.ipdl
include protocol PA;
include protocol PC;
protocol PB {
  manager PA or PC;
parent:
  async __delete__();
};
@ PC.ipdl
protocol PC { };
====
A manager statement that finds nothing in its file is B8 there and B9 at the manager
0:3:11 B9 1:2:11 B8 
@ PA.ipdl
include protocol PB;
protocol PA {
  manages PB;
parent:
  async PB();
};
@ PB.ipdl
protocol PB {
  manager PA;
parent:
  async __delete__();
};
====
B9 of itself: a protocol manages itself and does not name itself
0:2:11 B9 
@ PA.ipdl
protocol PA {
  manages PA;
parent:
  async PA();
};
====
A protocol that manages itself: nothing is broken, no cycle

@ PD.ipdl
protocol PD {
  manager PD;
  manages PD;
parent:
  async PD();
  async __delete__();
};
====
B15: a sync protocol under an async manager
1:3:11 B15 
@ PA.ipdl
include protocol PB;
protocol PA {
  manages PB;
parent:
  async PB();
};
@ PB.ipdl
include protocol PA;
sync protocol PB {
  manager PA;
parent:
  async __delete__();
};
====
An async protocol under a sync manager, and both sync

@ PA.ipdl
include protocol PB;
sync protocol PA {
  manages PB;
parent:
  async PB();
};
@ PB.ipdl
include protocol PA;
protocol PB {
  manager PA;
parent:
  async __delete__();
};
====
Both sync

@ PA.ipdl
include protocol PB;
sync protocol PA {
  manages PB;
parent:
  async PB();
};
@ PB.ipdl
include protocol PA;
sync protocol PB {
  manager PA;
parent:
  async __delete__();
};
====
B15: more levels than the manager has
1:3:11 B15 
@ PA.ipdl
include protocol PB;
protocol PA {
  manages PB;
parent:
  async PB();
};
@ PB.ipdl
include protocol PA;
[NestedUpTo=inside_sync] protocol PB {
  manager PA;
parent:
  async __delete__();
};
====
As many levels as the manager

@ PA.ipdl
include protocol PB;
[NestedUpTo=inside_sync] protocol PA {
  manages PB;
parent:
  async PB();
};
@ PB.ipdl
include protocol PA;
[NestedUpTo=inside_sync] protocol PB {
  manager PA;
parent:
  async __delete__();
};
====
Fewer levels than the manager

@ PA.ipdl
include protocol PB;
[NestedUpTo=inside_cpow] protocol PA {
  manages PB;
parent:
  async PB();
};
@ PB.ipdl
include protocol PA;
[NestedUpTo=inside_sync] protocol PB {
  manager PA;
parent:
  async __delete__();
};
====
B15 at one of two managers
1:4:17 B15 
@ PA.ipdl
include protocol PB;
sync protocol PA {
  manages PB;
parent:
  async PB();
};
@ PB.ipdl
include protocol PA;
include protocol PC;
sync protocol PB {
  manager PA or PC;
parent:
  async __delete__();
};
@ PC.ipdl
include protocol PB;
protocol PC {
  manages PB;
parent:
  async PB();
};
====
B17: a cycle of two
0:2:10 B17 1:2:10 B17 
@ PA.ipdl
include protocol PB;
protocol PA {
  manager PB;
  manages PB;
parent:
  async PB();
  async __delete__();
};
@ PB.ipdl
include protocol PA;
protocol PB {
  manager PA;
  manages PA;
parent:
  async PA();
  async __delete__();
};
====
B17: a cycle of three
0:3:10 B17 1:3:10 B17 2:3:10 B17 
@ PA.ipdl
include protocol PB;
include protocol PC;
protocol PA {
  manager PC;
  manages PB;
parent:
  async PB();
  async __delete__();
};
@ PB.ipdl
include protocol PC;
include protocol PA;
protocol PB {
  manager PA;
  manages PC;
parent:
  async PC();
  async __delete__();
};
@ PC.ipdl
include protocol PA;
include protocol PB;
protocol PC {
  manager PB;
  manages PA;
parent:
  async PA();
  async __delete__();
};
====
B17 with a manager outside of the cycle, and a managed one: these are in none
1:3:10 B17 2:3:10 B17 
@ PA.ipdl
include protocol PB;
protocol PA {
  manages PB;
parent:
  async PB();
};
@ PB.ipdl
include protocol PA;
include protocol PC;
protocol PB {
  manager PA or PC;
  manages PC;
parent:
  async PC();
  async __delete__();
};
@ PC.ipdl
include protocol PB;
include protocol PD;
protocol PC {
  manager PB;
  manages PB;
  manages PD;
parent:
  async PB();
  async PD();
  async __delete__();
};
@ PD.ipdl
include protocol PC;
protocol PD {
  manager PC;
parent:
  async __delete__();
};
====
A protocol that manages itself and has another manager is in no cycle

@ PA.ipdl
include protocol PB;
protocol PA {
  manages PB;
parent:
  async PB();
};
@ PB.ipdl
include protocol PA;
protocol PB {
  manager PA or PB;
  manages PB;
parent:
  async PB();
  async __delete__();
};
====
A diamond of managers is no cycle

@ PA.ipdl
include protocol PB;
include protocol PC;
protocol PA {
  manages PB;
  manages PC;
parent:
  async PB();
  async PC();
};
@ PB.ipdl
include protocol PA;
include protocol PD;
protocol PB {
  manager PA;
  manages PD;
parent:
  async PD();
  async __delete__();
};
@ PC.ipdl
include protocol PA;
include protocol PD;
protocol PC {
  manager PA;
  manages PD;
parent:
  async PD();
  async __delete__();
};
@ PD.ipdl
include protocol PB;
include protocol PC;
protocol PD {
  manager PB or PC;
parent:
  async __delete__();
};
====
B18: no constructor
0:3:11 B18 
@ PA.ipdl
include protocol PB;
protocol PA {
  manages PB;
parent:
  async M();
};
@ PB.ipdl
include protocol PA;
protocol PB {
  manager PA;
parent:
  async __delete__();
};
====
A constructor among other messages, first or last

@ PA.ipdl
include protocol PB;
protocol PA {
  manages PB;
parent:
  async PB();
  async M();
child:
  async N();
};
@ PB.ipdl
include protocol PA;
protocol PB {
  manager PA;
parent:
  async __delete__();
};
====
A constructor that is the second of three

@ PA.ipdl
include protocol PB;
protocol PA {
  manages PB;
parent:
  async M();
  async PB();
  async N();
};
@ PB.ipdl
include protocol PA;
protocol PB {
  manager PA;
parent:
  async __delete__();
};
====
B18 at the second of two managed protocols
0:5:11 B18 
@ PA.ipdl
include protocol PB;
include protocol PC;
protocol PA {
  manages PB;
  manages PC;
parent:
  async PB();
};
@ PB.ipdl
include protocol PA;
protocol PB {
  manager PA;
parent:
  async __delete__();
};
@ PC.ipdl
include protocol PA;
protocol PC {
  manager PA;
parent:
  async __delete__();
};
====
A name in other case is no constructor
0:3:11 B18 
@ PA.ipdl
include protocol PB;
protocol PA {
  manages PB;
parent:
  async Pb();
};
@ PB.ipdl
include protocol PA;
protocol PB {
  manager PA;
parent:
  async __delete__();
};
====
B19: a manager, and no destructor
1:2:10 B19 
@ PA.ipdl
include protocol PB;
protocol PA {
  manages PB;
parent:
  async PB();
};
@ PB.ipdl
include protocol PA;
protocol PB {
  manager PA;
parent:
  async M();
};
====
A protocol without a manager needs none

@ PA.ipdl
protocol PA {
parent:
  async M();
};
====
A destructor in any section

@ PA.ipdl
include protocol PB;
protocol PA {
  manages PB;
parent:
  async PB();
};
@ PB.ipdl
include protocol PA;
protocol PB {
  manager PA;
child:
  async __delete__();
};
====
B19 where the manager is unknown too: it has a statement
0:1:10 B19 0:2:11 B8 
@ PA.ipdl
protocol PA {
  manager PX;
};
====
B20: the name of a protocol that is seen and not managed
0:4:9 B20 
@ PA.ipdl
include protocol PB;
protocol PA {
parent:
  async PB();
};
@ PB.ipdl
protocol PB { };
====
B20 of a protocol seen through headers
0:4:9 B20 
@ PA.ipdl
include h;
protocol PA {
parent:
  async PB(int32_t a);
};
@ h.ipdlh
include g;
@ g.ipdlh
include protocol PB;
@ PB.ipdl
namespace n {
protocol PB { };
}
====
B20 of the protocol itself
0:3:9 B20 
@ PA.ipdl
protocol PA {
parent:
  async PA();
};
====
A name of a protocol that is read and not seen is none

@ PA.ipdl
include protocol PB;
protocol PA {
parent:
  async PC();
};
@ PB.ipdl
include protocol PC;
protocol PB { };
@ PC.ipdl
protocol PC { };
====
The name of a struct is none

@ PA.ipdl
struct S { };
protocol PA {
parent:
  async S();
  async int32_t();
};
====
B21: messages, also in another section and of other semantics
0:6:9 B21 0:8:9 B21 0:9:9 B21 
@ PA.ipdl
protocol PA {
parent:
  async M();
  async N();
child:
  async M(int32_t a);
both:
  async N();
  async M();
};
====
B21: managers and managed protocols
0:4:11 B21 1:3:17 B21 
@ PA.ipdl
include protocol PB;
protocol PA {
  manages PB;
  manages PB;
parent:
  async PB();
};
@ PB.ipdl
include protocol PA;
protocol PB {
  manager PA or PA;
parent:
  async __delete__();
};
====
B21: managers of two statements
0:4:11 B21 
@ PA.ipdl
protocol PA {
  manager PA;
  manages PA;
  manager PA;
parent:
  async PA();
  async __delete__();
};
====
A manager may be managed too, and a message bear its name

@ PD.ipdl
protocol PD {
  manages PD;
  manager PD;
parent:
  async PD();
  async __delete__();
};
";

/// The number of these programs.
pub const MANAGERS_COUNT: &str = "43";
