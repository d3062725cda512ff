//! Rows of runs for the order of own steps.

/// Runs for the order of own steps, in the form of `worked_runs::RUNS`, each worked out from the rules.
pub const ORDERS: &str = "the-last-block-serves-the-rest PW.ipdl PPP 10000 -
parent main
send top PW.Tell(1)
send top PW.Tell(2)
send top PW.Tell(3)
end
child on PW.Tell
send top PW.Poke()
end
child on PW.Tell
end
----
parent send 1 to 2147483647 PW.Tell(1)
parent send 2 to 2147483647 PW.Tell(2)
parent send 3 to 2147483647 PW.Tell(3)
child deliver request 1
child take 1 at 2147483647 PW.Tell(1)
child send -1 to 2147483647 PW.Poke()
parent deliver request -1
child return 1
parent take -1 at 2147483647 PW.Poke()
child deliver request 2
parent return -1
child take 2 at 2147483647 PW.Tell(2)
child return 2
child deliver request 3
child take 3 at 2147483647 PW.Tell(3)
child return 3
finished
====
one-block-serves-all PW.ipdl PP 10000 -
parent main
send top PW.Tell(1)
send top PW.Tell(2)
end
child on PW.Tell
send top PW.Poke()
end
----
parent send 1 to 2147483647 PW.Tell(1)
parent send 2 to 2147483647 PW.Tell(2)
child deliver request 1
child take 1 at 2147483647 PW.Tell(1)
child send -1 to 2147483647 PW.Poke()
parent deliver request -1
child return 1
parent take -1 at 2147483647 PW.Poke()
child deliver request 2
parent return -1
child take 2 at 2147483647 PW.Tell(2)
child send -2 to 2147483647 PW.Poke()
parent deliver request -2
child return 2
parent take -2 at 2147483647 PW.Poke()
parent return -2
finished
====
what-has-arrived-before-main PW.ipdl Pc 10000 -
parent main
send top PW.Tell(1)
end
child main
send top PW.Poke()
send top PW.Poke()
end
----
parent send 1 to 2147483647 PW.Tell(1)
child deliver request 1
child take 1 at 2147483647 PW.Tell(1)
child return 1
child send -1 to 2147483647 PW.Poke()
parent deliver request -1
child send -2 to 2147483647 PW.Poke()
parent take -1 at 2147483647 PW.Poke()
parent return -1
parent deliver request -2
parent take -2 at 2147483647 PW.Poke()
parent return -2
finished
====
deliveries-alone PW.ipdl CCpp 10000 -
parent main
send top PW.Tell(1)
end
child main
send top PW.Poke()
send top PW.Poke()
end
----
child send -1 to 2147483647 PW.Poke()
child send -2 to 2147483647 PW.Poke()
parent deliver request -1
parent deliver request -2
parent take -1 at 2147483647 PW.Poke()
parent return -1
parent take -2 at 2147483647 PW.Poke()
parent return -2
parent send 1 to 2147483647 PW.Tell(1)
child deliver request 1
child take 1 at 2147483647 PW.Tell(1)
child return 1
finished
====
nothing-to-deliver PW.ipdl cpcpP 10000 -
parent main
send top PW.Tell(1)
end
----
parent send 1 to 2147483647 PW.Tell(1)
child deliver request 1
child take 1 at 2147483647 PW.Tell(1)
child return 1
finished
====
a-script-of-nothing PW.ipdl PCPCpc 10000 -
parent main
end
----
finished
====
names PW.ipdl P 10000 -
parent main
let a top
let b nobody
send a PW.Tell(1)
send b PW.Tell(2)
end
----
parent let a 2147483647
parent let b 0
parent send 1 to 2147483647 PW.Tell(1)
child deliver request 1
parent refused DeadActor PW.Tell
child take 1 at 2147483647 PW.Tell(1)
child return 1
finished
====
dead-before-its-first-event PW.ipdl P 10000 parent:0
parent main
send top PW.Tell(1)
end
----
parent die
child deliver broken
child shut AbnormalShutdown
  fall 2147483647 AbnormalShutdown
finished
====
a-stop-behind-the-end PW.ipdl P 10000 child:4
parent main
send top PW.Tell(1)
end
----
parent send 1 to 2147483647 PW.Tell(1)
child deliver request 1
child take 1 at 2147483647 PW.Tell(1)
child return 1
finished
====
dead-in-a-handler PW.ipdl P 10000 child:2
parent main
send top PW.Tell(1)
end
child on PW.Tell
send top PW.Poke()
end
----
parent send 1 to 2147483647 PW.Tell(1)
child deliver request 1
child take 1 at 2147483647 PW.Tell(1)
child die
parent deliver broken
parent shut AbnormalShutdown
  fall 2147483647 AbnormalShutdown
finished
====
an-act-of-death PW.ipdl CC 10000 -
child main
send top PW.Poke()
die
send top PW.Poke()
end
----
child send -1 to 2147483647 PW.Poke()
child die
parent deliver request -1
parent take -1 at 2147483647 PW.Poke()
parent return -1
parent deliver broken
parent shut AbnormalShutdown
  fall 2147483647 AbnormalShutdown
finished
====
no-act-of-main-behind-a-close PW.ipdl CC 10000 -
child main
close
send top PW.Poke()
end
----
child close
  fall 2147483647 NormalShutdown
parent deliver goodbye
parent shut NormalShutdown
  fall 2147483647 NormalShutdown
finished
====
acts-of-a-handler-at-a-draining-end PW.ipdl CCpp 10000 -
child main
send top PW.Poke()
close
end
parent on PW.Poke
send top PW.Tell(1)
let a top
end
----
child send -1 to 2147483647 PW.Poke()
child close
  fall 2147483647 NormalShutdown
parent deliver request -1
parent deliver goodbye
parent take -1 at 2147483647 PW.Poke()
parent refused Closed PW.Tell
parent let a 2147483647
parent return -1
parent shut NormalShutdown
  fall 2147483647 NormalShutdown
finished
====
no-act-of-main-at-a-draining-end PW.ipdl Cp 10000 -
parent main
send top PW.Tell(1)
end
child main
close
end
----
child close
  fall 2147483647 NormalShutdown
parent deliver goodbye
parent shut NormalShutdown
  fall 2147483647 NormalShutdown
finished
====
spent-within-the-word PW.ipdl PPP 2 -
parent main
send top PW.Tell(1)
send top PW.Tell(2)
send top PW.Tell(3)
end
----
parent send 1 to 2147483647 PW.Tell(1)
parent send 2 to 2147483647 PW.Tell(2)
spent parent
====
spent-behind-the-word PW.ipdl PPP 2 -
parent main
send top PW.Tell(1)
send top PW.Tell(2)
end
----
parent send 1 to 2147483647 PW.Tell(1)
parent send 2 to 2147483647 PW.Tell(2)
child deliver request 1
child take 1 at 2147483647 PW.Tell(1)
spent child
====
a-stop-at-the-limit PW.ipdl P 1 parent:1
parent main
send top PW.Tell(1)
end
----
parent send 1 to 2147483647 PW.Tell(1)
spent parent
====
no-event-at-all PW.ipdl c 0 -
parent main
send top PW.Tell(1)
end
----
spent parent
====
the-outbox-last PLz.ipdl CC 10000 -
child main
send top PLz.Lz(1)
end
----
child send -1 to 2147483647 PLz.Lz(1)
child flush 1
parent deliver request -1
parent take -1 at 2147483647 PLz.Lz(1)
parent return -1
finished
====
nested-handlers-of-one-message PW.ipdl PC 10000 -
parent main
send top PW.CallC()
end
child on PW.CallC
send top PW.CallP()
return (1)
end
child on PW.CallC
return (2)
end
parent on PW.CallP
send top PW.CallC()
return (3)
end
----
parent call 1/1 to 2147483647 PW.CallC()
child deliver request 1
child take 1 at 2147483647 PW.CallC()
child call -1/1 to 2147483647 PW.CallP()
parent deliver request -1
parent take -1 at 2147483647 PW.CallP()
parent call 2/1 to 2147483647 PW.CallC()
child deliver request 2
child take 2 at 2147483647 PW.CallC()
child return 2
  answer 2 ok (2)
parent deliver reply 2
parent resume 2 ok (2)
parent return -1
  answer -1 ok (3)
child deliver reply -1
child resume -1 ok (3)
child return 1
  answer 1 ok (1)
parent deliver reply 1
parent resume 1 ok (1)
finished
====
turns-without-a-word PW.ipdl - 10000 -
parent main
send top PW.Tell(1)
send top PW.Tell(2)
end
----
parent send 1 to 2147483647 PW.Tell(1)
child deliver request 1
parent send 2 to 2147483647 PW.Tell(2)
child take 1 at 2147483647 PW.Tell(1)
child return 1
child deliver request 2
child take 2 at 2147483647 PW.Tell(2)
child return 2
finished
";
