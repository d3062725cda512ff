//! Rows of calls of `run`.

/// Calls of the command that runs a script, in the form of `call_rows`.
pub const RUNS: &str = "both-call-at-once
run --schedule PCPC race.ids PW.ipdl
0
@ parent call 1/1 to 2147483647 PW.CallC()
child call -1/-1 to 2147483647 PW.CallP()
parent deliver request -1
child deliver request 1
child take 1 at 2147483647 PW.CallC()
child return 1
  answer 1 ok (20)
parent deliver reply 1
parent resume 1 ok (20)
parent take -1 at 2147483647 PW.CallP()
parent return -1
  answer -1 ok (10)
child deliver reply -1
child resume -1 ok (10)
finished
@ ====
the-same-by-the-driver
run race.ids PW.ipdl
0
@ parent call 1/1 to 2147483647 PW.CallC()
child call -1/-1 to 2147483647 PW.CallP()
parent deliver request -1
child deliver request 1
child take 1 at 2147483647 PW.CallC()
child return 1
  answer 1 ok (20)
parent deliver reply 1
parent resume 1 ok (20)
parent take -1 at 2147483647 PW.CallP()
parent return -1
  answer -1 ok (10)
child deliver reply -1
child resume -1 ok (10)
finished
@ ====
spent-at-once
run --limit 1 --schedule PC race.ids PW.ipdl
5
@ parent call 1/1 to 2147483647 PW.CallC()
child call -1/-1 to 2147483647 PW.CallP()
spent parent
@ ====
spent-child
run --limit 1 --schedule CPC race.ids PW.ipdl
5
@ child call -1/-1 to 2147483647 PW.CallP()
parent call 1/1 to 2147483647 PW.CallC()
spent child
@ ====
dead-before-its-first-event
run --schedule P --die parent:0 race.ids PW.ipdl
0
@ parent die
child call -1/-1 to 2147483647 PW.CallP()
child deliver broken
  fails -1
child resume -1 fault ChannelClosed
child shut AbnormalShutdown
  fall 2147483647 AbnormalShutdown
finished
@ ====
bad-script
run --schedule P bad.ids PW.ipdl
7
@ @ bad.ids:2:1: K4 wrong direction
bad.ids:4:1: K2 block structure
bad.ids:6:1: K1 not a statement
@ bad.ids
parent main
send top PW.CallP()
end
parent main
end
nonsense
====
absent-script
run none.ids PW.ipdl
7
@ @ none.ids:0:0: K9 script too large or absent
====
broken-files-before-a-bad-script
run bad.ids PF.ipdl
1
@ @ PF.ipdl:3:14: B1 unknown type
@ bad.ids
nonsense
@ PF.ipdl
protocol PF {
parent:
  async Flag(Bool b);
};
====
a-managed-protocol
run empty.ids PChild.ipdl
7
@ @ empty.ids:0:0: K8 not a top protocol
@ empty.ids
@ PChild.ipdl
include protocol PTop;
protocol PChild {
  manager PTop;
parent:
  async __delete__();
};
@ PTop.ipdl
include protocol PChild;
protocol PTop {
  manages PChild;
parent:
  async PChild();
};
";

/// The files that each of these calls also has.
pub const RACE: &str = "@ race.ids
parent main
send top PW.CallC()
end
child main
send top PW.CallP()
end
parent on PW.CallP
return (10)
end
child on PW.CallC
return (20)
end
@ PW.ipdl
[NestedUpTo=inside_cpow]
sync protocol PW {
parent:
  [Nested=inside_sync] sync CallP() returns (int32_t r);
child:
  [Nested=inside_sync] sync CallC() returns (int32_t r);
};
";
