//! Rows of programs with the lines of their reports.

/// A program with its top protocol and the lines of its report.
pub struct Row {
    /// What the row tests.
    pub says: &'static str,
    /// The top protocol.
    pub top: &'static str,
    /// The files of the program, each after a line with `@` and its name.
    pub text: &'static str,
    /// The lines of the report.
    pub lines: &'static str,
}

/// Which messages interrupt which: sides, levels, directions and order.
pub const ROWS: &[Row] = &[
    Row {
        says: "calls inside calls",
        top: "PW",
        text: "@ PW.ipdl
[NestedUpTo=inside_cpow]
sync protocol PW {
parent:
  [Nested=inside_sync] sync CallP() returns (int32_t r);
  [Nested=inside_cpow] async Poke();
  sync Base();
child:
  [Nested=inside_sync] sync CallC() returns (int32_t r);
  async Tell(int32_t n);
  async Give(PW w);
};
",
        lines: "parent waits PW.CallC takes PW.CallP
parent waits PW.CallC takes PW.Poke
child waits PW.CallP takes PW.CallC
child waits PW.Base takes PW.CallC
",
    },
    Row {
        says: "a managed protocol",
        top: "PM",
        text: "@ PM.ipdl
include protocol PN; [NestedUpTo=inside_sync] sync protocol PM { manages PN; parent: sync Ask(); child: async PN(); };
@ PN.ipdl
include protocol PM; [NestedUpTo=inside_sync] sync protocol PN { manager PM; child: [Nested=inside_sync] sync Ping(); async __delete__(); };
",
        lines: "child waits PM.Ask takes PN.Ping
",
    },
    Row {
        says: "the managed protocol as the top: its manager cannot be built",
        top: "PN",
        text: "@ PM.ipdl
include protocol PN; [NestedUpTo=inside_sync] sync protocol PM { manages PN; parent: sync Ask(); child: async PN(); };
@ PN.ipdl
include protocol PM; [NestedUpTo=inside_sync] sync protocol PN { manager PM; parent: sync Own(); child: [Nested=inside_sync] sync Ping(); async __delete__(); };
",
        lines: "child waits PN.Own takes PN.Ping
",
    },
    Row {
        says: "a parameter that is not carried",
        top: "PW",
        text: "@ PW.ipdl
[NestedUpTo=inside_cpow]
sync protocol PW {
parent:
  [Nested=inside_sync] sync CallP() returns (int32_t r);
  [Nested=inside_cpow] async Poke();
  sync Base();
child:
  [Nested=inside_sync] sync CallC(Shmem s) returns (int32_t r);
  async Tell(int32_t n);
  async Give(PW w);
};
",
        lines: "",
    },
    Row {
        says: "a return that is not carried",
        top: "PW",
        text: "@ PW.ipdl
[NestedUpTo=inside_sync] sync protocol PW {
parent:
  sync Base();
child:
  [Nested=inside_sync] sync CallC() returns (FileDescriptor f);
};
",
        lines: "",
    },
    Row {
        says: "no sync message",
        top: "PHello",
        text: "@ PHello.ipdl
protocol PHello {
parent:
  async Hello(int32_t n, nsString s);
child:
  async World();
};
",
        lines: "",
    },
    Row {
        says: "messages of both directions",
        top: "PB",
        text: "@ PB.ipdl
[NestedUpTo=inside_sync] sync protocol PB {
both:
  [Nested=inside_sync] sync Talk();
  async Note();
};
",
        lines: "parent waits PB.Talk takes PB.Talk
child waits PB.Talk takes PB.Talk
",
    },
    Row {
        says: "a child that waits at the highest level takes nothing, and a parent takes all of that level",
        top: "PL",
        text: "@ PL.ipdl
[NestedUpTo=inside_cpow] sync protocol PL {
child:
  [Nested=inside_sync] sync Down();
  async Soft();
parent:
  [Nested=inside_cpow] sync High();
  [Nested=inside_cpow] async Jab();
  [Nested=inside_sync] sync Middle();
  sync Low();
  async Note();
};
",
        lines: "parent waits PL.Down takes PL.High
parent waits PL.Down takes PL.Jab
parent waits PL.Down takes PL.Middle
child waits PL.Middle takes PL.Down
child waits PL.Low takes PL.Down
",
    },
    Row {
        says: "a protocol that two constructors build, of which one cannot be sent",
        top: "PA",
        text: "@ PA.ipdl
include protocol PC; include protocol PD; [NestedUpTo=inside_sync] sync protocol PA { manages PC; manages PD; parent: sync Ask(); child: async PD(); async PC(Shmem s); };
@ PC.ipdl
include protocol PA; include protocol PD; [NestedUpTo=inside_sync] sync protocol PC { manager PA; manager PD; child: [Nested=inside_sync] sync Ping(); async __delete__(); };
@ PD.ipdl
include protocol PA; include protocol PC; [NestedUpTo=inside_sync] sync protocol PD { manager PA; manages PC; child: async PC(nullable PC other); async __delete__(); };
",
        lines: "child waits PA.Ask takes PC.Ping
",
    },
    Row {
        says: "a constructor whose parameter only another actor of it could fill",
        top: "PM",
        text: "@ PM.ipdl
include protocol PN; [NestedUpTo=inside_sync] sync protocol PM { manages PN; parent: sync Ask(); child: async PN(PN other); };
@ PN.ipdl
include protocol PM; [NestedUpTo=inside_sync] sync protocol PN { manager PM; child: [Nested=inside_sync] sync Ping(); async __delete__(); };
",
        lines: "",
    },
    Row {
        says: "the same parameter where it may be null, in a struct",
        top: "PM",
        text: "@ PM.ipdl
include protocol PN; struct Held { nullable PN other; PN[] more; PN? one; };
[NestedUpTo=inside_sync] sync protocol PM { manages PN; parent: sync Ask(); child: async PN(Held held); };
@ PN.ipdl
include protocol PM; [NestedUpTo=inside_sync] sync protocol PN { manager PM; child: [Nested=inside_sync] sync Ping(); async __delete__(); };
",
        lines: "child waits PM.Ask takes PN.Ping
",
    },
    Row {
        says: "a message that takes an actor which nothing builds, and one of a union that has another component",
        top: "PM",
        text: "@ PM.ipdl
include protocol PN; union Choice { PN; bool; }; struct Pair { PN one; bool two; };
[NestedUpTo=inside_sync] sync protocol PM { manages PN; parent: sync Ask(); sync Give(Pair pair); child: async PN(Shmem s); [Nested=inside_sync] sync First(PN n); [Nested=inside_sync] sync Second(Choice c); };
@ PN.ipdl
include protocol PM; protocol PN { manager PM; parent: async __delete__(); };
",
        lines: "child waits PM.Ask takes PM.Second
",
    },
    Row {
        says: "a chain of protocols, told of before they are reached",
        top: "PZ",
        text: "@ PA.ipdl
include protocol PB; [NestedUpTo=inside_sync] sync protocol PA { manager PB; child: [Nested=inside_sync] sync Ping(); async __delete__(); };
@ PB.ipdl
include protocol PA; include protocol PZ; [NestedUpTo=inside_sync] sync protocol PB { manager PZ; manages PA; child: async PA(PB other); async __delete__(); };
@ PZ.ipdl
include protocol PB; [NestedUpTo=inside_sync] sync protocol PZ { manages PB; parent: sync Ask(); child: async PB(); };
",
        lines: "child waits PZ.Ask takes PA.Ping
",
    },
];
