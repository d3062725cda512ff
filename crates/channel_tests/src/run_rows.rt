//! Rows of worked runs.

/// Worked runs. Each row: its name and the file of its protocol, and then the lines that were printed.
/// `====` is between two rows.
pub const RUNS: &str = "both-call-at-once PW.ipdl
parent call 1/1 to 2147483647 PW.CallC()
child call -1/-1 to 2147483647 PW.CallP()
parent deliver request -1
child deliver request 1
child take 1 at 2147483647 PW.CallC()
child return 1
  answer 1 ok (20)
parent deliver reply 1
parent resume 1 ok (20)
parent take -1 at 2147483647 PW.CallP()
parent return -1
  answer -1 ok (10)
child deliver reply -1
child resume -1 ok (10)
====
four-nested-calls PW.ipdl
parent call 1/1 to 2147483647 PW.CallC()
child call -1/-1 to 2147483647 PW.Base()
parent deliver request -1
child deliver request 1
child take 1 at 2147483647 PW.CallC()
child call -2/1 to 2147483647 PW.CallP()
parent deliver request -2
parent take -2 at 2147483647 PW.CallP()
parent call 2/1 to 2147483647 PW.CallC()
child deliver request 2
child take 2 at 2147483647 PW.CallC()
child call -3/1 to 2147483647 PW.CallP()
parent deliver request -3
parent take -3 at 2147483647 PW.CallP()
parent return -3
  answer -3 ok (4)
child deliver reply -3
child resume -3 ok (4)
child return 2
  answer 2 ok (3)
parent deliver reply 2
parent resume 2 ok (3)
parent return -2
  answer -2 ok (2)
child deliver reply -2
child resume -2 ok (2)
child return 1
  answer 1 ok (1)
parent deliver reply 1
parent resume 1 ok (1)
parent take -1 at 2147483647 PW.Base()
parent return -1
  answer -1 ok ()
child deliver reply -1
child resume -1 ok ()
====
overtaken-constructor PM.ipdl
parent send 1 to 2147483647 PM.PN()
  built 6 PN
child call -1/-1 to 2147483647 PM.Ask()
parent call 2/2 to 6 PN.Ping()
child deliver request 1
parent deliver request -1
child deliver request 2
child drop 2 at 6 PN.Ping for 6
  answer 2 fault ActorDestroyed
parent deliver reply 2
parent resume 2 fault ActorDestroyed
parent take -1 at 2147483647 PM.Ask()
parent return -1
  answer -1 ok ()
child deliver reply -1
child resume -1 ok ()
child take 1 at 2147483647 PM.PN()
  built 6 PN
child return 1
====
reply-under-a-handler PW.ipdl
parent call 1/1 to 2147483647 PW.CallC()
child deliver request 1
child take 1 at 2147483647 PW.CallC()
child send -1 to 2147483647 PW.Poke()
child return 1
  answer 1 ok (7)
parent deliver request -1
parent take -1 at 2147483647 PW.Poke()
parent deliver reply 1
parent send 2 to 2147483647 PW.Tell(1)
child deliver request 2
parent return -1
child take 2 at 2147483647 PW.Tell(1)
parent resume 1 ok (7)
child return 2
====
delete-of-a-tree PR.ipdl
child send -1 to 2147483647 PR.PK()
  built 4 PK
child send -2 to 4 PK.PK()
  built 8 PK
child send -3 to 8 PK.PK()
  built 12 PK
child send -4 to 8 PK.Get()
child send -5 to 4 PK.__delete__()
  fall 12 AncestorDeletion
  settle -4 rejected ActorDestroyed
  fall 8 AncestorDeletion
  fall 4 Deletion
parent deliver request -1
parent take -1 at 2147483647 PR.PK()
  built 4 PK
parent return -1
parent deliver request -2
parent take -2 at 4 PK.PK()
  built 8 PK
parent return -2
parent deliver request -3
parent take -3 at 8 PK.PK()
  built 12 PK
parent return -3
parent deliver request -4
parent take -4 at 8 PK.Get()
parent resolve -4 (9)
child deliver reply -4
parent return -4
child take reply -4
parent deliver request -5
parent take -5 at 4 PK.__delete__()
parent return -5
  fall 12 AncestorDeletion
  fall 8 AncestorDeletion
  fall 4 Deletion
====
close-with-promises PQ.ipdl
parent send 1 to 2147483647 PQ.Get()
parent send 2 to 2147483647 PQ.Get()
parent send 3 to 2147483647 PQ.Get()
child send -1 to 2147483647 PQ.Tell(1)
child send -2 to 2147483647 PQ.Tell(2)
child close
  fall 2147483647 NormalShutdown
parent deliver request -1
parent deliver request -2
parent deliver goodbye
parent take -1 at 2147483647 PQ.Tell(1)
parent return -1
parent take -2 at 2147483647 PQ.Tell(2)
parent return -2
parent shut NormalShutdown
  settle 1 rejected ChannelClosed
  settle 2 rejected ChannelClosed
  settle 3 rejected ChannelClosed
  fall 2147483647 NormalShutdown
====
death-under-nested-waits PW.ipdl
parent call 1/1 to 2147483647 PW.CallC()
child deliver request 1
child take 1 at 2147483647 PW.CallC()
child call -1/1 to 2147483647 PW.CallP()
parent deliver request -1
parent take -1 at 2147483647 PW.CallP()
parent call 2/1 to 2147483647 PW.CallC()
child deliver request 2
child take 2 at 2147483647 PW.CallC()
child die
parent deliver broken
  fails 2
  fails 1
parent resume 2 fault ChannelClosed
parent return -1
parent resume 1 fault ChannelClosed
parent shut AbnormalShutdown
  fall 2147483647 AbnormalShutdown
====
compression PC.ipdl
child send -1 to 2147483647 PC.Up(1)
child send -2 to 2147483647 PC.Up(2)
child send -3 to 2147483647 PC.Mark()
child send -4 to 2147483647 PC.Up(3)
child send -5 to 2147483647 PC.Alls(1)
child send -6 to 2147483647 PC.Mark()
child send -7 to 2147483647 PC.Alls(2)
child send -8 to 2147483647 PC.Ask(1)
child send -9 to 2147483647 PC.Ask(2)
parent deliver request -1
parent deliver request -2
  replaced -1
parent deliver request -3
parent deliver request -4
parent deliver request -5
parent deliver request -6
parent deliver request -7
  replaced -5
parent deliver request -8
parent deliver request -9
  replaced -8
  answer -8 fault ResolverDestroyed
parent take -2 at 2147483647 PC.Up(2)
child deliver reply -8
parent return -2
child take reply -8
  settle -8 rejected ResolverDestroyed
parent take -3 at 2147483647 PC.Mark()
parent return -3
parent take -4 at 2147483647 PC.Up(3)
parent return -4
parent take -6 at 2147483647 PC.Mark()
parent return -6
parent take -7 at 2147483647 PC.Alls(2)
parent return -7
parent take -9 at 2147483647 PC.Ask(2)
parent return -9
  answer -9 fault ResolverDestroyed
child deliver reply -9
child take reply -9
  settle -9 rejected ResolverDestroyed
====
lazy-outbox PLz.ipdl
child send -1 to 2147483647 PLz.Lz(1)
child send -2 to 2147483647 PLz.Lz(2)
child send -3 to 2147483647 PLz.Now()
parent deliver request -1
child send -4 to 2147483647 PLz.Lz(3)
parent take -1 at 2147483647 PLz.Lz(1)
child flush 1
parent return -1
parent deliver request -2
parent take -2 at 2147483647 PLz.Lz(2)
parent return -2
parent deliver request -3
parent take -3 at 2147483647 PLz.Now()
parent return -3
parent deliver request -4
parent take -4 at 2147483647 PLz.Lz(3)
parent return -4
====
kept-resolver PQ.ipdl
child send -1 to 2147483647 PQ.Get()
child send -2 to 2147483647 PQ.Tell(1)
parent deliver request -1
parent take -1 at 2147483647 PQ.Get()
parent keep -1 k
parent return -1
parent deliver request -2
parent take -2 at 2147483647 PQ.Tell(1)
parent resolve -1 (5)
child deliver reply -1
parent return -2
child take reply -1
  settle -1 resolved (5)
====
drops POwn.ipdl
child send -1 to 2147483647 POwn.PTmp()
  built 4 PTmp
child send -2 to 4 PTmp.__delete__()
  fall 4 Deletion
parent deliver request -1
child refused DeadActor PTmp.Hi
parent take -1 at 2147483647 POwn.PTmp()
  built 4 PTmp
parent send 1 to 4 PTmp.Hi()
child deliver request 1
parent send 2 to 2147483647 POwn.Mark(#4)
child drop 1 at 4 PTmp.Hi for 4
parent return -1
child deliver request 2
parent deliver request -2
child take 2 at 2147483647 POwn.Mark(null)
parent take -2 at 4 PTmp.__delete__()
child return 2
parent return -2
  fall 4 Deletion
";

/// The number of rows.
pub const RUNS_COUNT: &str = "11";
