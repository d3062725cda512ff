//! Rows of runs whose halves run separately.

/// Runs in the order in which separate halves make them, in the form of `worked_runs::RUNS`: each side
/// makes its own steps until it rests, the parent hands in, and then the child and the parent meet the
/// link. Each has a word of turns that makes the same run.
pub const APART: &str = "calls-cross PW.ipdl PCcp 10000 -
parent main
send top PW.CallC()
end
child main
send top PW.CallP()
end
parent on PW.CallP
return (10)
end
child on PW.CallC
return (20)
end
----
parent call 1/1 to 2147483647 PW.CallC()
child call -1/-1 to 2147483647 PW.CallP()
child deliver request 1
parent deliver request -1
child take 1 at 2147483647 PW.CallC()
child return 1
  answer 1 ok (20)
parent deliver reply 1
parent resume 1 ok (20)
parent take -1 at 2147483647 PW.CallP()
parent return -1
  answer -1 ok (10)
child deliver reply -1
child resume -1 ok (10)
finished
====
requests-cross PW.ipdl PPCCccppPPPPCCCC 10000 -
parent main
send top PW.Tell(1)
send top PW.Tell(2)
end
child main
send top PW.Poke()
send top PW.Poke()
end
----
parent send 1 to 2147483647 PW.Tell(1)
parent send 2 to 2147483647 PW.Tell(2)
child send -1 to 2147483647 PW.Poke()
child send -2 to 2147483647 PW.Poke()
child deliver request 1
child deliver request 2
parent deliver request -1
parent deliver request -2
parent take -1 at 2147483647 PW.Poke()
parent return -1
parent take -2 at 2147483647 PW.Poke()
parent return -2
child take 1 at 2147483647 PW.Tell(1)
child return 1
child take 2 at 2147483647 PW.Tell(2)
child return 2
finished
====
close-in-a-handler PW.ipdl CPPPPP 10000 -
child main
send top PW.Poke()
end
parent on PW.Poke
close
send top PW.Tell(1)
end
----
child send -1 to 2147483647 PW.Poke()
parent deliver request -1
parent take -1 at 2147483647 PW.Poke()
parent close
  fall 2147483647 NormalShutdown
parent refused Closed PW.Tell
parent return -1
child deliver goodbye
child shut NormalShutdown
  fall 2147483647 NormalShutdown
finished
====
death-behind-an-answer PW.ipdl PCcpCCCppPPPP 10000 child:4
parent main
send top PW.CallC()
end
child main
send top PW.CallP()
end
parent on PW.CallP
return (10)
end
child on PW.CallC
return (20)
end
----
parent call 1/1 to 2147483647 PW.CallC()
child call -1/-1 to 2147483647 PW.CallP()
child deliver request 1
parent deliver request -1
child take 1 at 2147483647 PW.CallC()
child return 1
  answer 1 ok (20)
child die
parent deliver reply 1
parent deliver broken
parent resume 1 ok (20)
parent take -1 at 2147483647 PW.CallP()
parent return -1
parent shut AbnormalShutdown
  fall 2147483647 AbnormalShutdown
finished
";

/// The rows whose runs halves make in exactly the same order. Each has the name of the row, whether the
/// parent's end is open or shut after it, how many packets wait for the parent, and the same for the
/// child.
pub const HALVES: &str = "calls-cross open 0 open 0
requests-cross open 0 open 0
close-in-a-handler shut 0 shut 0
death-behind-an-answer shut 0 shut 0
close-with-promises shut 0 shut 3
death-under-nested-waits shut 0 shut 0
limit-spent open 1 open 1
refused-dead-actor open 0 open 0
refused-dead-value open 0 open 0
refused-in-call open 0 open 0
refused-inside-cpow open 0 open 0
refused-level-too-low open 0 open 0
refused-nested-in-normal open 0 open 0
refused-too-deep open 0 open 0
";
