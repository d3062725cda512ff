//! Rows of which all laws hold, or none.

/// Lists of lines of which all laws hold, and lists of which no law holds because they are not
/// readable, in the same form.
pub const WHOLE: &str = "POwn-02-c POwn.ipdl nnnnn
not readable: return of no dispatch on top
parent send 1 to 2147483647 POwn.Mark(null)
child deliver request 1
child take 2 at 2147483647 POwn.Mark(null)
child return 1
child send -1 to 2147483647 POwn.PTmp()
  built 4 PTmp
parent deliver request -1
====
PR-01-a PR.ipdl nnnnn
not readable: no event first
  built 4 PK
parent deliver request -1
parent take -1 at 2147483647 PR.PK()
  built 4 PK
child send -2 to 4 PK.PK()
  built 8 PK
====
PDesk-01-a PDesk.ipdl nnnnn
not readable: resume of no answered wait on top
child call -1/-1 to 2147483647 PDesk.Peek()
parent deliver request -1
parent refused DeadValue PDesk.Turn
parent take -1 at 2147483647 PDesk.Peek()
parent refused InsideCpow PDesk.Turn
parent die
child resume -1 fault ChannelClosed
child shut AbnormalShutdown
  fall 2147483647 AbnormalShutdown
child die
====
PW-05 PW.ipdl yyyyy
a legal history
child call -1/-1 to 2147483647 PW.CallP()
parent call 1/1 to 2147483647 PW.CallC()
parent deliver request -1
child deliver request 1
child take 1 at 2147483647 PW.CallC()
child send -2 to 2147483647 PW.Poke()
parent deliver request -2
child call -3/1 to 2147483647 PW.CallP()
parent deliver request -3
parent take -2 at 2147483647 PW.Poke()
parent send 2 to 2147483647 PW.Tell(82)
child deliver request 2
parent die
child deliver broken
  fails -3
  fails -1
====
PM-03 PM.ipdl yyyyy
a legal history
parent send 1 to 2147483647 PM.PN()
  built 6 PN
child deliver request 1
parent call 2/2 to 6 PN.Ping()
child take 1 at 2147483647 PM.PN()
  built 6 PN
child return 1
child deliver request 2
child take 2 at 6 PN.Ping()
child refused LevelTooLow PM.Ask
child let a 0
child return 2
  answer 2 ok ()
====
PR-03 PR.ipdl yyyyy
a legal history
child send -1 to 2147483647 PR.PK()
  built 4 PK
child send -2 to 4 PK.PK()
  built 8 PK
child send -3 to 4 PK.Get()
child send -4 to 4 PK.PK()
  built 12 PK
child send -5 to 12 PK.Get()
parent deliver request -1
parent deliver request -2
parent take -1 at 2147483647 PR.PK()
  built 4 PK
child send -6 to 4 PK.__delete__()
  fall 8 AncestorDeletion
  settle -5 rejected ActorDestroyed
  fall 12 AncestorDeletion
  settle -3 rejected ActorDestroyed
  fall 4 Deletion
child send -7 to 2147483647 PR.PK()
  built 16 PK
parent deliver request -3
child send -8 to 16 PK.__delete__()
  fall 16 Deletion
parent deliver request -4
====
PQ-03 PQ.ipdl yyyyy
a legal history
parent send 1 to 2147483647 PQ.Get()
child deliver request 1
child take 1 at 2147483647 PQ.Get()
child reject 1
child die
parent deliver reply 1
parent send 2 to 2147483647 PQ.Get()
parent take reply 1
  settle 1 rejected HandlerRejected
parent send 3 to 2147483647 PQ.Get()
parent deliver broken
parent shut AbnormalShutdown
  settle 2 rejected ChannelClosed
  settle 3 rejected ChannelClosed
  fall 2147483647 AbnormalShutdown
====
PC-03 PC.ipdl yyyyy
a legal history
child let a 4
child send -1 to 2147483647 PC.Ask(88)
child send -2 to 2147483647 PC.Ask(96)
parent deliver request -1
parent take -1 at 2147483647 PC.Ask(88)
parent keep -1 a
parent deliver request -2
parent resolve -1 (true)
child deliver reply -1
child take reply -1
  settle -1 resolved (true)
child send -3 to 2147483647 PC.Ask(47)
parent return -1
parent deliver request -3
  replaced -2
  answer -2 fault ResolverDestroyed
child deliver reply -2
parent take -3 at 2147483647 PC.Ask(47)
parent keep -3 b
parent resolve -3 (true)
child deliver reply -3
====
POwn-03 POwn.ipdl yyyyy
a legal history
child close
  fall 2147483647 NormalShutdown
parent deliver goodbye
parent shut NormalShutdown
  fall 2147483647 NormalShutdown
child let a 4
child refused Closed PTmp.__delete__
child let a 2147483647
====
PLz-02 PLz.ipdl yyyyy
a legal history
child let b 2147483647
child let a 4
parent let a 2147483647
child send -1 to 2147483647 PLz.Lz(97)
parent let b 0
child flush 1
parent deliver request -1
====
PDesk-08 PDesk.ipdl yyyyy
a legal history
parent send 1 to 2147483647 PDesk.List()
child send -1 to 2147483647 PDesk.Find([null, null, null])
parent deliver request -1
parent take -1 at 2147483647 PDesk.Find([null, null, null])
parent keep -1 a
child send -2 to 2147483647 PDesk.PPage()
  built 4 PPage
parent deliver request -2
parent refused DeadValue resolve
parent reject -1
child send -3 to 4 PPage.__delete__()
  fall 4 Deletion
child deliver request 1
child take 1 at 2147483647 PDesk.List()
child keep 1 b
child let b 2147483647
  answer 1 fault ResolverDestroyed
child deliver reply -1
parent deliver request -3
child return 1
child take reply -1
  settle -1 rejected HandlerRejected
parent send 2 to 2147483647 PDesk.PPage()
  built 6 PPage
parent return -1
parent deliver reply 1
parent take -2 at 2147483647 PDesk.PPage()
  built 4 PPage
parent send 3 to 4 PPage.__delete__()
  fall 4 Deletion
child deliver request 2
parent return -2
child take 2 at 2147483647 PDesk.PPage()
  built 6 PPage
child deliver request 3
parent drop -3 at 4 PPage.__delete__ for 4
child return 2
parent take reply 1
  settle 1 rejected ResolverDestroyed
child drop 3 at 4 PPage.__delete__ for 4
====
PHub-06 PHub.ipdl yyyyy
a legal history
child call -1/-1 to 2147483647 PHub.PTab(null)
  built 4 PTab
parent deliver request -1
parent take -1 at 2147483647 PHub.PTab(null)
  built 4 PTab
parent return -1
  answer -1 ok (false)
parent send 1 to 2147483647 PHub.Set(null, \"\")
child deliver reply -1
child deliver request 1
child resume -1 ok (false)
child take 1 at 2147483647 PHub.Set(null, \"\")
parent send 2 to 4 PTab.Get()
child send -2 to 4 PTab.__delete__()
  fall 4 Deletion
parent send 3 to 2147483647 PHub.Set(#4, \"yes\")
parent let a 4
child return 1
child deliver request 2
child deliver request 3
child drop 2 at 4 PTab.Get for 4
  answer 2 fault ActorDestroyed
parent deliver request -2
parent deliver reply 2
parent take -2 at 4 PTab.__delete__()
parent return -2
  settle 2 rejected ActorDestroyed
  fall 4 Deletion
child take 3 at 2147483647 PHub.Set(null, \"yes\")
child return 3
parent take reply 2
====
POwn-01-b POwn.ipdl yyyyy
no legal history, and each law holds
child send -1 to 2147483647 POwn.PTmp()
  built 4 PTmp
parent deliver request -1
child send -2 to 4 PTmp.Hi()
parent deliver request -2
====
PLz-02-a PLz.ipdl yyyyy
no legal history, and each law holds
child let b 2147483647
child let a 4
parent let a 2147483647
child send -1 to 2147483647 PLz.Lz(97)
parent let b 0
child flush 1
";

/// The number of rows.
pub const WHOLE_COUNT: &str = "14";
