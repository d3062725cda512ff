//! Rows of calls of `relay`.

/// Calls of the command that runs a script over two queues, in the form of `call_rows`, by turns on one
/// thread: the worked one by name, and others. Each also has `RACE`, after its own files.
pub const RELAYS: &str = "relay-two-tells
relay hello.ids PW.ipdl
0
@ parent send 1 to 2147483647 PW.Tell(5)
parent send 2 to 2147483647 PW.Tell(6)
child deliver request 1
child take 1 at 2147483647 PW.Tell(5)
child return 1
child deliver request 2
child take 2 at 2147483647 PW.Tell(6)
child return 2
finished
@ @ PW.ipdl
protocol PW { child: async Tell(int32_t n); };
@ hello.ids
parent main
send top PW.Tell(5)
send top PW.Tell(6)
end
====
two calls at once
relay race.ids PW.ipdl
0
@ parent call 1/1 to 2147483647 PW.CallC()
parent deliver request -1
parent deliver reply 1
parent resume 1 ok (20)
parent take -1 at 2147483647 PW.CallP()
parent return -1
  answer -1 ok (10)
child call -1/-1 to 2147483647 PW.CallP()
child deliver request 1
child take 1 at 2147483647 PW.CallC()
child return 1
  answer 1 ok (20)
child deliver reply -1
child resume -1 ok (10)
finished
@ ====
one event a side
relay --limit 1 race.ids PW.ipdl
5
@ parent call 1/1 to 2147483647 PW.CallC()
child call -1/-1 to 2147483647 PW.CallP()
spent parent
@ ====
a side that dies
relay --die child:1 hello.ids PW.ipdl
0
@ parent send 1 to 2147483647 PW.Tell(5)
parent send 2 to 2147483647 PW.Tell(6)
parent deliver broken
parent shut AbnormalShutdown
  fall 2147483647 AbnormalShutdown
child deliver request 1
child die
finished
@ @ PW.ipdl
protocol PW { child: async Tell(int32_t n); };
@ hello.ids
parent main
send top PW.Tell(5)
send top PW.Tell(6)
end
====
a bad script
relay bad.ids PW.ipdl
7
@ @ bad.ids:1:1: K1 not a statement
@ bad.ids
nonsense
====
the report comes before the script
relay none.ids PF.ipdl
1
@ @ PF.ipdl:3:14: B1 unknown type
@ PF.ipdl
protocol PF {
parent:
  async Flag(Bool b);
};
====
no word of turns
relay --schedule PC race.ids PW.ipdl
2
@ @ usage
";
