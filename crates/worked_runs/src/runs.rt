//! Worked runs.

/// Worked runs. Each row has its name, the file of its protocol, its word of turns, its limit and the
/// death of an end, or `-`; then its script; and after `----` what it prints. `====` separates two
/// rows.
pub const RUNS: &str = "both-call-at-once PW.ipdl PCPC 10000 -
parent main
send top PW.CallC()
end
child main
send top PW.CallP()
end
parent on PW.CallP
return (10)
end
child on PW.CallC
return (20)
end
----
parent call 1/1 to 2147483647 PW.CallC()
child call -1/-1 to 2147483647 PW.CallP()
parent deliver request -1
child deliver request 1
child take 1 at 2147483647 PW.CallC()
child return 1
  answer 1 ok (20)
parent deliver reply 1
parent resume 1 ok (20)
parent take -1 at 2147483647 PW.CallP()
parent return -1
  answer -1 ok (10)
child deliver reply -1
child resume -1 ok (10)
finished
====
close-with-promises PQ.ipdl PPPCCCppp 10000 -
parent main
send top PQ.Get()
send top PQ.Get()
send top PQ.Get()
end
child main
send top PQ.Tell(1)
send top PQ.Tell(2)
close
end
----
parent send 1 to 2147483647 PQ.Get()
parent send 2 to 2147483647 PQ.Get()
parent send 3 to 2147483647 PQ.Get()
child send -1 to 2147483647 PQ.Tell(1)
child send -2 to 2147483647 PQ.Tell(2)
child close
  fall 2147483647 NormalShutdown
parent deliver request -1
parent deliver request -2
parent deliver goodbye
parent take -1 at 2147483647 PQ.Tell(1)
parent return -1
parent take -2 at 2147483647 PQ.Tell(2)
parent return -2
parent shut NormalShutdown
  settle 1 rejected ChannelClosed
  settle 2 rejected ChannelClosed
  settle 3 rejected ChannelClosed
  fall 2147483647 NormalShutdown
finished
====
compression PC.ipdl CCCCCCCCCppppppppp 10000 -
child main
send top PC.Up(1)
send top PC.Up(2)
send top PC.Mark()
send top PC.Up(3)
send top PC.Alls(1)
send top PC.Mark()
send top PC.Alls(2)
send top PC.Ask(1)
send top PC.Ask(2)
end
----
child send -1 to 2147483647 PC.Up(1)
child send -2 to 2147483647 PC.Up(2)
child send -3 to 2147483647 PC.Mark()
child send -4 to 2147483647 PC.Up(3)
child send -5 to 2147483647 PC.Alls(1)
child send -6 to 2147483647 PC.Mark()
child send -7 to 2147483647 PC.Alls(2)
child send -8 to 2147483647 PC.Ask(1)
child send -9 to 2147483647 PC.Ask(2)
parent deliver request -1
parent deliver request -2
  replaced -1
parent deliver request -3
parent deliver request -4
parent deliver request -5
parent deliver request -6
parent deliver request -7
  replaced -5
parent deliver request -8
parent deliver request -9
  replaced -8
  answer -8 fault ResolverDestroyed
parent take -2 at 2147483647 PC.Up(2)
child deliver reply -8
parent return -2
child take reply -8
  settle -8 rejected ResolverDestroyed
parent take -3 at 2147483647 PC.Mark()
parent return -3
parent take -4 at 2147483647 PC.Up(3)
parent return -4
parent take -6 at 2147483647 PC.Mark()
parent return -6
parent take -7 at 2147483647 PC.Alls(2)
parent return -7
parent take -9 at 2147483647 PC.Ask(2)
parent return -9
  answer -9 fault ResolverDestroyed
child deliver reply -9
child take reply -9
  settle -9 rejected ResolverDestroyed
finished
====
death-under-nested-waits PW.ipdl P 10000 -
parent main
send top PW.CallC()
end
child on PW.CallC
send top PW.CallP()
end
parent on PW.CallP
send top PW.CallC()
end
child on PW.CallC
die
end
----
parent call 1/1 to 2147483647 PW.CallC()
child deliver request 1
child take 1 at 2147483647 PW.CallC()
child call -1/1 to 2147483647 PW.CallP()
parent deliver request -1
parent take -1 at 2147483647 PW.CallP()
parent call 2/1 to 2147483647 PW.CallC()
child deliver request 2
child take 2 at 2147483647 PW.CallC()
child die
parent deliver broken
  fails 2
  fails 1
parent resume 2 fault ChannelClosed
parent return -1
parent resume 1 fault ChannelClosed
parent shut AbnormalShutdown
  fall 2147483647 AbnormalShutdown
finished
====
delete-of-a-tree PR.ipdl CCCCC 10000 -
child main
new a top PR.PK()
new b a PK.PK()
new c b PK.PK()
send b PK.Get()
send a PK.__delete__()
end
parent on PK.Get
resolve (9)
end
----
child send -1 to 2147483647 PR.PK()
  built 4 PK
child send -2 to 4 PK.PK()
  built 8 PK
child send -3 to 8 PK.PK()
  built 12 PK
child send -4 to 8 PK.Get()
child send -5 to 4 PK.__delete__()
  fall 12 AncestorDeletion
  settle -4 rejected ActorDestroyed
  fall 8 AncestorDeletion
  fall 4 Deletion
parent deliver request -1
parent take -1 at 2147483647 PR.PK()
  built 4 PK
parent return -1
parent deliver request -2
parent take -2 at 4 PK.PK()
  built 8 PK
parent return -2
parent deliver request -3
parent take -3 at 8 PK.PK()
  built 12 PK
parent return -3
parent deliver request -4
parent take -4 at 8 PK.Get()
parent resolve -4 (9)
child deliver reply -4
parent return -4
child take reply -4
parent deliver request -5
parent take -5 at 4 PK.__delete__()
parent return -5
  fall 12 AncestorDeletion
  fall 8 AncestorDeletion
  fall 4 Deletion
finished
====
die-after-nine PW.ipdl PC 10000 child:9
parent main
send top PW.CallC()
end
child main
send top PW.Base()
end
child on PW.CallC
send top PW.CallP()
return (1)
end
parent on PW.CallP
send top PW.CallC()
return (2)
end
child on PW.CallC
send top PW.CallP()
return (3)
end
parent on PW.CallP
return (4)
end
----
parent call 1/1 to 2147483647 PW.CallC()
child call -1/-1 to 2147483647 PW.Base()
parent deliver request -1
child deliver request 1
child take 1 at 2147483647 PW.CallC()
child call -2/1 to 2147483647 PW.CallP()
parent deliver request -2
parent take -2 at 2147483647 PW.CallP()
parent call 2/1 to 2147483647 PW.CallC()
child deliver request 2
child take 2 at 2147483647 PW.CallC()
child call -3/1 to 2147483647 PW.CallP()
parent deliver request -3
parent take -3 at 2147483647 PW.CallP()
parent return -3
  answer -3 ok (4)
child deliver reply -3
child resume -3 ok (4)
child die
parent deliver broken
  fails 2
  fails 1
parent resume 2 fault ChannelClosed
parent return -2
parent resume 1 fault ChannelClosed
parent take -1 at 2147483647 PW.Base()
parent return -1
parent shut AbnormalShutdown
  fall 2147483647 AbnormalShutdown
finished
====
die-after-sixteen PW.ipdl PC 10000 child:16
parent main
send top PW.CallC()
end
child main
send top PW.Base()
end
child on PW.CallC
send top PW.CallP()
return (1)
end
parent on PW.CallP
send top PW.CallC()
return (2)
end
child on PW.CallC
send top PW.CallP()
return (3)
end
parent on PW.CallP
return (4)
end
----
parent call 1/1 to 2147483647 PW.CallC()
child call -1/-1 to 2147483647 PW.Base()
parent deliver request -1
child deliver request 1
child take 1 at 2147483647 PW.CallC()
child call -2/1 to 2147483647 PW.CallP()
parent deliver request -2
parent take -2 at 2147483647 PW.CallP()
parent call 2/1 to 2147483647 PW.CallC()
child deliver request 2
child take 2 at 2147483647 PW.CallC()
child call -3/1 to 2147483647 PW.CallP()
parent deliver request -3
parent take -3 at 2147483647 PW.CallP()
parent return -3
  answer -3 ok (4)
child deliver reply -3
child resume -3 ok (4)
child return 2
  answer 2 ok (3)
parent deliver reply 2
parent resume 2 ok (3)
parent return -2
  answer -2 ok (2)
child deliver reply -2
child resume -2 ok (2)
child return 1
  answer 1 ok (1)
parent deliver reply 1
parent resume 1 ok (1)
parent take -1 at 2147483647 PW.Base()
parent return -1
  answer -1 ok ()
child deliver reply -1
child resume -1 ok ()
finished
====
drops POwn.ipdl CC 10000 -
child main
new t top POwn.PTmp()
send t PTmp.__delete__()
send t PTmp.Hi()
end
parent on POwn.PTmp
send made PTmp.Hi()
send top POwn.Mark(made)
end
----
child send -1 to 2147483647 POwn.PTmp()
  built 4 PTmp
child send -2 to 4 PTmp.__delete__()
  fall 4 Deletion
parent deliver request -1
child refused DeadActor PTmp.Hi
parent take -1 at 2147483647 POwn.PTmp()
  built 4 PTmp
parent send 1 to 4 PTmp.Hi()
child deliver request 1
parent send 2 to 2147483647 POwn.Mark(#4)
child drop 1 at 4 PTmp.Hi for 4
parent return -1
child deliver request 2
parent deliver request -2
child take 2 at 2147483647 POwn.Mark(null)
parent take -2 at 4 PTmp.__delete__()
child return 2
parent return -2
  fall 4 Deletion
finished
====
four-nested-calls PW.ipdl PC 10000 -
parent main
send top PW.CallC()
end
child main
send top PW.Base()
end
child on PW.CallC
send top PW.CallP()
return (1)
end
parent on PW.CallP
send top PW.CallC()
return (2)
end
child on PW.CallC
send top PW.CallP()
return (3)
end
parent on PW.CallP
return (4)
end
----
parent call 1/1 to 2147483647 PW.CallC()
child call -1/-1 to 2147483647 PW.Base()
parent deliver request -1
child deliver request 1
child take 1 at 2147483647 PW.CallC()
child call -2/1 to 2147483647 PW.CallP()
parent deliver request -2
parent take -2 at 2147483647 PW.CallP()
parent call 2/1 to 2147483647 PW.CallC()
child deliver request 2
child take 2 at 2147483647 PW.CallC()
child call -3/1 to 2147483647 PW.CallP()
parent deliver request -3
parent take -3 at 2147483647 PW.CallP()
parent return -3
  answer -3 ok (4)
child deliver reply -3
child resume -3 ok (4)
child return 2
  answer 2 ok (3)
parent deliver reply 2
parent resume 2 ok (3)
parent return -2
  answer -2 ok (2)
child deliver reply -2
child resume -2 ok (2)
child return 1
  answer 1 ok (1)
parent deliver reply 1
parent resume 1 ok (1)
parent take -1 at 2147483647 PW.Base()
parent return -1
  answer -1 ok ()
child deliver reply -1
child resume -1 ok ()
finished
====
kept-resolver PQ.ipdl CC 10000 -
child main
send top PQ.Get()
send top PQ.Tell(1)
end
parent on PQ.Get
keep k
end
parent on PQ.Tell
resolve k PQ.Get (5)
end
----
child send -1 to 2147483647 PQ.Get()
child send -2 to 2147483647 PQ.Tell(1)
parent deliver request -1
parent take -1 at 2147483647 PQ.Get()
parent keep -1 k
parent return -1
parent deliver request -2
parent take -2 at 2147483647 PQ.Tell(1)
parent resolve -1 (5)
child deliver reply -1
parent return -2
child take reply -1
  settle -1 resolved (5)
finished
====
lazy-outbox PLz.ipdl C 10000 -
child main
send top PLz.Lz(1)
send top PLz.Lz(2)
send top PLz.Now()
send top PLz.Lz(3)
end
----
child send -1 to 2147483647 PLz.Lz(1)
child send -2 to 2147483647 PLz.Lz(2)
child send -3 to 2147483647 PLz.Now()
parent deliver request -1
child send -4 to 2147483647 PLz.Lz(3)
parent take -1 at 2147483647 PLz.Lz(1)
child flush 1
parent return -1
parent deliver request -2
parent take -2 at 2147483647 PLz.Lz(2)
parent return -2
parent deliver request -3
parent take -3 at 2147483647 PLz.Now()
parent return -3
parent deliver request -4
parent take -4 at 2147483647 PLz.Lz(3)
parent return -4
finished
====
limit-spent PW.ipdl PC 1 -
parent main
send top PW.CallC()
end
child main
send top PW.CallP()
end
parent on PW.CallP
return (10)
end
child on PW.CallC
return (20)
end
----
parent call 1/1 to 2147483647 PW.CallC()
child call -1/-1 to 2147483647 PW.CallP()
spent parent
====
overtaken-constructor PM.ipdl PC 10000 -
parent main
new n top PM.PN()
send n PN.Ping()
end
child main
send top PM.Ask()
end
----
parent send 1 to 2147483647 PM.PN()
  built 6 PN
child call -1/-1 to 2147483647 PM.Ask()
parent call 2/2 to 6 PN.Ping()
child deliver request 1
parent deliver request -1
child deliver request 2
child drop 2 at 6 PN.Ping for 6
  answer 2 fault ActorDestroyed
parent deliver reply 2
parent resume 2 fault ActorDestroyed
parent take -1 at 2147483647 PM.Ask()
parent return -1
  answer -1 ok ()
child deliver reply -1
child resume -1 ok ()
child take 1 at 2147483647 PM.PN()
  built 6 PN
child return 1
finished
====
refused-closed PW.ipdl P 10000 -
child main
send top PW.Poke()
end
parent on PW.Poke
close
send top PW.Tell(1)
end
----
child send -1 to 2147483647 PW.Poke()
parent deliver request -1
parent take -1 at 2147483647 PW.Poke()
parent close
  fall 2147483647 NormalShutdown
child deliver goodbye
parent refused Closed PW.Tell
child shut NormalShutdown
  fall 2147483647 NormalShutdown
parent return -1
finished
====
refused-dead-actor PW.ipdl P 10000 -
child main
send x PW.Poke()
end
----
child refused DeadActor PW.Poke
finished
====
refused-dead-value PW.ipdl P 10000 -
parent main
send top PW.Give(x)
end
----
parent refused DeadValue PW.Give
finished
====
refused-in-call PW.ipdl P 10000 -
child main
send top PW.CallP()
end
parent on PW.CallP
send top PW.CallC()
return (1)
end
child on PW.CallC
close
return (2)
end
----
child call -1/-1 to 2147483647 PW.CallP()
parent deliver request -1
parent take -1 at 2147483647 PW.CallP()
parent call 1/-1 to 2147483647 PW.CallC()
child deliver request 1
child take 1 at 2147483647 PW.CallC()
child refused InCall close
child return 1
  answer 1 ok (2)
parent deliver reply 1
parent resume 1 ok (2)
parent return -1
  answer -1 ok (1)
child deliver reply -1
child resume -1 ok (1)
finished
====
refused-inside-cpow PW.ipdl P 10000 -
child main
send top PW.Poke()
end
parent on PW.Poke
send top PW.CallC()
end
----
child send -1 to 2147483647 PW.Poke()
parent deliver request -1
parent take -1 at 2147483647 PW.Poke()
parent refused InsideCpow PW.CallC
parent return -1
finished
====
refused-level-too-low PW.ipdl P 10000 -
parent main
send top PW.CallC()
end
child on PW.CallC
send top PW.Base()
return (1)
end
----
parent call 1/1 to 2147483647 PW.CallC()
child deliver request 1
child take 1 at 2147483647 PW.CallC()
child refused LevelTooLow PW.Base
child return 1
  answer 1 ok (1)
parent deliver reply 1
parent resume 1 ok (1)
finished
====
refused-nested-in-normal PW.ipdl P 10000 -
child main
send top PW.Base()
end
parent on PW.Base
send top PW.CallC()
end
----
child call -1/-1 to 2147483647 PW.Base()
parent deliver request -1
parent take -1 at 2147483647 PW.Base()
parent refused NestedInNormal PW.CallC
parent return -1
  answer -1 ok ()
child deliver reply -1
child resume -1 ok ()
finished
====
reply-under-a-handler PW.ipdl PCCCCPPp 10000 -
parent main
send top PW.CallC()
end
child on PW.CallC
send top PW.Poke()
return (7)
end
parent on PW.Poke
send top PW.Tell(1)
end
----
parent call 1/1 to 2147483647 PW.CallC()
child deliver request 1
child take 1 at 2147483647 PW.CallC()
child send -1 to 2147483647 PW.Poke()
child return 1
  answer 1 ok (7)
parent deliver request -1
parent take -1 at 2147483647 PW.Poke()
parent deliver reply 1
parent send 2 to 2147483647 PW.Tell(1)
child deliver request 2
parent return -1
child take 2 at 2147483647 PW.Tell(1)
parent resume 1 ok (7)
child return 2
finished
====
two-tells PW.ipdl P 10000 -
parent main
send top PW.Tell(5)
send top PW.Tell(6)
end
----
parent send 1 to 2147483647 PW.Tell(5)
parent send 2 to 2147483647 PW.Tell(6)
child deliver request 1
child take 1 at 2147483647 PW.Tell(5)
child return 1
child deliver request 2
child take 2 at 2147483647 PW.Tell(6)
child return 2
finished
";
