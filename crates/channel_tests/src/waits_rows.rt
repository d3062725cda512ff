//! Rows on the law Waits.

/// Lists of lines that the law Waits does not hold of, in the same form.
pub const WAITS: &str = "PM-01-d PM.ipdl yynyy
Waits: c1
child call -1/-1 to 2147483647 PM.Ask()
parent deliver request -1
parent send 1 to 2147483647 PM.PN()
  built 6 PN
child deliver request 1
parent call 2/2 to 2147483647 PM.PN()
  built 10 PN
====
PW-05-a PW.ipdl yynyy
Waits: c2 all fail
child call -1/-1 to 2147483647 PW.CallP()
parent call 1/1 to 2147483647 PW.CallC()
parent deliver request -1
child deliver request 1
child take 1 at 2147483647 PW.CallC()
child send -2 to 2147483647 PW.Poke()
parent deliver request -2
child call -3/1 to 2147483647 PW.CallP()
parent deliver request -3
parent take -2 at 2147483647 PW.Poke()
parent send 2 to 2147483647 PW.Tell(82)
child deliver request 2
parent die
child deliver broken
====
PM-01-b PM.ipdl yynyy
Waits: c2 fails elsewhere
child call -1/-1 to 2147483647 PM.Ask()
  fails -1
parent deliver request -1
parent send 1 to 2147483647 PM.PN()
  built 6 PN
child deliver request 1
parent send 2 to 2147483647 PM.PN()
  built 10 PN
====
PW-05-c PW.ipdl yynyy
Waits: c2 fails order
child send -1 to 2147483647 PW.CallP()
parent call 1/1 to 2147483647 PW.CallC()
parent deliver request -1
child deliver request 1
child take 1 at 2147483647 PW.CallC()
child send -2 to 2147483647 PW.Poke()
parent deliver request -2
child call -3/1 to 2147483647 PW.CallP()
parent deliver request -3
parent take -2 at 2147483647 PW.Poke()
parent send 2 to 2147483647 PW.Tell(82)
child deliver request 2
parent die
child deliver broken
  fails -3
  fails -1
====
PW-04-a PW.ipdl yynyy
Waits: c2 innermost
child call -1/-1 to 2147483647 PW.Base()
child die
parent send 1 to 2147483647 PW.Give(#2147483647)
child deliver request 1
parent deliver request -1
parent take -1 at 2147483647 PW.Base()
parent send 2 to 2147483647 PW.Tell(1)
parent send 3 to 2147483647 PW.Give(#2147483647)
child deliver request 2
parent refused NestedInNormal PW.CallC
parent return -1
  answer -1 ok ()
child deliver request 3
child deliver reply -1
====
PW-02-e PW.ipdl yynyy
Waits: c3
child call -1/-1 to 2147483647 PW.Base()
parent deliver request -1
parent call 1/77 to 2147483647 PW.CallC()
child deliver request 1
child take 1 at 2147483647 PW.CallC()
child refused LevelTooLow PW.Base
child refused LevelTooLow PW.Base
child call -2/1 to 2147483647 PW.CallP()
parent deliver request -2
parent take -2 at 2147483647 PW.CallP()
====
PW-03-c PW.ipdl yynyy
Waits: c4 ActorDestroyed
child call -1/-1 to 2147483647 PW.Base()
parent deliver request -1
parent take -1 at 2147483647 PW.Base()
parent send 1 to 2147483647 PW.Give(#2147483647)
parent refused NestedInNormal PW.CallC
child deliver request 1
parent return -1
  answer -1 ok ()
parent send 2 to 2147483647 PW.Give(#2147483647)
child deliver reply -1
child deliver request 2
child resume -1 fault ActorDestroyed
parent call 3/3 to 2147483647 PW.CallC()
====
PHub-01-c PHub.ipdl yynyy
Waits: c4 ChannelClosed
child call -1/-1 to 2147483647 PHub.Wait(@1 88)
parent call 1/1 to 2147483647 PHub.Call(84)
child deliver request 1
child take 1 at 2147483647 PHub.Call(84)
parent deliver request -1
child refused InCall close
child return 1
  answer 1 fault HandlerRejected
parent deliver reply 1
parent resume 1 fault ChannelClosed
parent take -1 at 2147483647 PHub.Wait(@1 88)
====
PHub-01-d PHub.ipdl yynyy
Waits: c4 HandlerRejected
child call -1/-1 to 2147483647 PHub.Wait(@1 88)
parent call 1/1 to 2147483647 PHub.Call(84)
child deliver request 1
child take 1 at 2147483647 PHub.Call(84)
parent deliver request -1
child refused InCall close
child return 1
  answer 1 fault ActorDestroyed
parent deliver reply 1
parent resume 1 fault HandlerRejected
parent take -1 at 2147483647 PHub.Wait(@1 88)
====
PDesk-01-d PDesk.ipdl yynyy
Waits: c4 ResolverDestroyed
child call -1/-1 to 2147483647 PDesk.Peek()
parent deliver request -1
parent refused DeadValue PDesk.Turn
parent take -1 at 2147483647 PDesk.Peek()
parent refused InsideCpow PDesk.Turn
parent die
child deliver broken
  fails -1
child resume -1 fault ResolverDestroyed
child shut AbnormalShutdown
  fall 2147483647 AbnormalShutdown
child die
====
PW-03-f PW.ipdl yynyy
Waits: c4 values
child call -1/-1 to 2147483647 PW.Base()
parent deliver request -1
parent take -1 at 2147483647 PW.Base()
parent send 1 to 2147483647 PW.Give(#2147483647)
parent refused NestedInNormal PW.CallC
child deliver request 1
parent return -1
  answer -1 fault ActorDestroyed
parent send 2 to 2147483647 PW.Give(#2147483647)
child deliver reply -1
child deliver request 2
child resume -1 ok ()
parent call 3/3 to 2147483647 PW.CallC()
";

/// The number of rows.
pub const WAITS_COUNT: &str = "11";
