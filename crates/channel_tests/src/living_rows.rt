//! Rows on the law Living.

/// Lists of lines that the law Living does not hold of, in the same form.
pub const LIVING: &str = "PR-01-c PR.ipdl ynyyy
Living: built again
child send -1 to 2147483647 PR.PK()
  built 4 PK
  built 4 PK
parent deliver request -1
parent take -1 at 2147483647 PR.PK()
child send -2 to 4 PK.PK()
  built 8 PK
====
POwn-02-b POwn.ipdl ynyyy
Living: built by no constructor
parent send 1 to 2147483647 POwn.Mark(null)
child deliver request 1
child take 1 at 2147483647 POwn.Mark(null)
child return 1
child send -1 to 2147483647 PTmp.Hi()
  built 4 PTmp
parent deliver request -1
====
PR-01-g PR.ipdl ynyyy
Living: built with another id
child send -1 to 2147483647 PR.PK()
  built 4 PK
parent deliver request -1
parent take -1 at 2147483647 PR.PK()
  built 4 PK
parent send -2 to 4 PK.PK()
  built 8 PK
====
PM-01-f PM.ipdl ynyyy
Living: call route
child call -1/-1 to 10 PM.Ask()
parent deliver request -1
parent send 1 to 2147483647 PM.PN()
  built 6 PN
child deliver request 1
parent send 2 to 2147483647 PM.PN()
  built 10 PN
====
PM-05-a PM.ipdl ynyyy
Living: drop for a living one
parent send 1 to 2147483647 PM.PN()
  built 6 PN
parent call 2/2 to 6 PN.Ping()
child call -1/-1 to 2147483647 PM.Ask()
parent deliver request -1
child deliver request 1
child deliver request 2
  answer 2 fault ActorDestroyed
parent deliver reply 2
parent resume 2 fault ActorDestroyed
parent take -1 at 2147483647 PM.Ask()
parent refused NestedInNormal PN.Ping
parent return -1
  answer -1 ok ()
child deliver reply -1
child resume -1 ok ()
child take 1 at 2147483647 PM.PN()
  built 6 PN
child call -2/-2 to 2147483647 PM.Ask()
parent call 3/3 to 6 PN.Ping()
parent deliver request -2
child deliver request 3
child take 3 at 6 PN.Ping()
child return 3
  answer 3 ok ()
parent deliver reply 3
child drop 2 at 6 PN.Ping for 6
====
PHub-09-b PHub.ipdl nnyny
Prefix: deliver; Living: drop for another than the dead route; Settled: ActorDestroyed
child call -1/-1 to 2147483647 PHub.PTab(null)
  built 4 PTab
parent deliver request -1
parent take -1 at 2147483647 PHub.PTab(null)
  built 4 PTab
parent return -1
  answer -1 fault HandlerRejected
child deliver reply -1
child resume -1 fault HandlerRejected
child send -2 to 4 PTab.__delete__()
  fall 4 Deletion
parent deliver request -2
child send -3 to 2147483647 PHub.Set(null, \"x\")
parent send 1 to 2147483647 PHub.Set(#4, \"ab\")
parent send 2 to 2147483647 PHub.Move(#4)
parent send 3 to 2147483647 PHub.Move(#4)
child deliver request 1
child call -4/-4 to 2147483647 PHub.PTab(null)
  built 8 PTab
parent take -2 at 4 PTab.__delete__()
parent deliver request -3
parent deliver request -4
child deliver request 2
parent return -2
  fall 4 Deletion
child deliver request 3
  replaced 2
  answer 2 fault ResolverDestroyed
parent take -3 at 2147483647 PHub.Set(null, \"x\")
parent return -3
parent deliver reply 2
parent take -4 at 2147483647 PHub.PTab(null)
  built 8 PTab
parent return -4
  answer -4 ok (true)
parent take reply 2
  settle 2 rejected ResolverDestroyed
child deliver reply -4
child resume -4 ok (true)
child take 1 at 2147483647 PHub.Set(null, \"ab\")
child return 1
parent deliver reply 3
parent take reply 3
  settle 3 rejected ActorDestroyed
parent close
  fall 8 NormalShutdown
  fall 2147483647 NormalShutdown
child deliver goodbye
child shut NormalShutdown
  fall 8 NormalShutdown
  fall 2147483647 NormalShutdown
child drop 3 at 2147483647 PHub.Move for 4
  answer 3 fault ActorDestroyed
====
PDesk-03-a PDesk.ipdl ynyyy
Living: drop for another than the first missing
child call -1/-1 to 2147483647 PDesk.Peek()
parent send 1 to 2147483647 PDesk.PPage()
  built 6 PPage
child deliver request 1
parent deliver request -1
parent take -1 at 2147483647 PDesk.Peek()
parent return -1
  answer -1 ok (#6)
parent call 2/2 to 2147483647 PDesk.Turn(#6)
child deliver reply -1
child deliver request 2
child resume -1 ok (null)
child call -2/-2 to 2147483647 PDesk.Open(null)
child drop 2 at 2147483647 PDesk.Turn for 8
  answer 2 fault ActorDestroyed
parent deliver request -2
parent deliver reply 2
parent resume 2 fault ActorDestroyed
parent take -2 at 2147483647 PDesk.Open(null)
parent send 3 to 2147483647 PDesk.Find([null, null])
parent call 4/-2 to 2147483647 PDesk.Turn(#6)
child deliver request 3
child deliver request 4
====
PR-01-b PR.ipdl ynyyy
Living: send route
child send -1 to 2147483647 PR.PK()
parent deliver request -1
parent take -1 at 2147483647 PR.PK()
  built 4 PK
child send -2 to 4 PK.PK()
  built 8 PK
====
PM-03-b PM.ipdl ynyyy
Living: take route
parent send 1 to 2147483647 PM.PN()
  built 6 PN
child deliver request 1
parent call 2/2 to 6 PN.Ping()
child take 1 at 2147483647 PM.PN()
child return 1
child deliver request 2
child take 2 at 6 PN.Ping()
child refused LevelTooLow PM.Ask
child let a 0
child return 2
  answer 2 ok ()
====
PDesk-03-b PDesk.ipdl ynyyy
Living: take values
child call -1/-1 to 2147483647 PDesk.Peek()
parent send 1 to 2147483647 PDesk.PPage()
  built 6 PPage
child deliver request 1
parent deliver request -1
parent take -1 at 2147483647 PDesk.Peek()
parent return -1
  answer -1 ok (#6)
parent call 2/2 to 2147483647 PDesk.Turn(#6)
child deliver reply -1
child deliver request 2
child resume -1 ok (null)
child call -2/-2 to 2147483647 PDesk.Open(null)
child take 2 at 2147483647 PDesk.Turn(#6)
  answer 2 fault ActorDestroyed
parent deliver request -2
parent deliver reply 2
parent resume 2 fault ActorDestroyed
parent take -2 at 2147483647 PDesk.Open(null)
parent send 3 to 2147483647 PDesk.Find([null, null])
parent call 4/-2 to 2147483647 PDesk.Turn(#6)
child deliver request 3
child deliver request 4
";

/// The number of rows.
pub const LIVING_COUNT: &str = "10";
