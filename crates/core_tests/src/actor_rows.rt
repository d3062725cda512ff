//! Rows on actors, their values, and arrived items.

/// Rows on actors, their values, and what arrives and waits (`rows` has their form).
pub const ACTOR_ROWS: &str = "PR.ipdl 1 a tree of actors is deleted
child new a 2147483647 PR.PK() = sent -1 4 +1
child new b 4 PK.PK() = sent -2 8 +1
child new c 8 PK.PK() = sent -3 12 +1
child send 8 PK.Get() = sent -4 0 +1
child send 4 PK.__delete__() = sent -5 0 +1
child lives 8 = no +0
child named b = actor +0
child send 8 PK.Get() = refused DeadActor +0
parent deliver = done +0
parent deliver = done +0
parent deliver = done +0
parent deliver = done +0
parent deliver = done +0
parent take = handle -1 at 2147483647 65536 makes 4 +0
parent return = done +0
parent take = handle -2 at 4 0 makes 8 +0
parent return = done +0
parent take = handle -3 at 8 0 makes 12 +0
parent lives 12 = 0 +0
parent return = done +0
parent take = handle -4 at 8 2 makes 0 resolver +0
parent keep -4 k = kept +0
parent return = done +0
parent take = handle -5 at 4 4 makes 0 +0
parent return = done +0
parent lives 4 = no +0
parent lives 12 = no +0
parent lives 2147483647 = 1 +0
parent resolve k PK.Get(9) = sent +1
child deliver = done +0
child take = settled +0
--
child send -1 to 2147483647 PR.PK()
  built 4 PK
child send -2 to 4 PK.PK()
  built 8 PK
child send -3 to 8 PK.PK()
  built 12 PK
child send -4 to 8 PK.Get()
child send -5 to 4 PK.__delete__()
  fall 12 AncestorDeletion
  settle -4 rejected ActorDestroyed
  fall 8 AncestorDeletion
  fall 4 Deletion
child refused DeadActor PK.Get
parent deliver request -1
parent deliver request -2
parent deliver request -3
parent deliver request -4
parent deliver request -5
parent take -1 at 2147483647 PR.PK()
  built 4 PK
parent return -1
parent take -2 at 4 PK.PK()
  built 8 PK
parent return -2
parent take -3 at 8 PK.PK()
  built 12 PK
parent return -3
parent take -4 at 8 PK.Get()
parent keep -4 k
parent return -4
parent take -5 at 4 PK.__delete__()
parent return -5
  fall 12 AncestorDeletion
  fall 8 AncestorDeletion
  fall 4 Deletion
parent resolve -4 (9)
child deliver reply -4
child take reply -4
====
PHub.ipdl 0 drops with and without answers, and nulls
child new t 2147483647 PHub.PTab(null) = sent -1 4 +1
child top = unanswered +0
child take = nothing +0
parent deliver = done +0
parent take = handle -1 at 2147483647 0 makes 4 +0
parent return (true) = done +1
child deliver = done +0
child top = answered +0
child take = nothing +0
child resume = goes on +0
child resume = none +0
child send 4 PTab.__delete__() = sent -2 0 +1
parent send 4 PTab.Get() = sent 1 0 +1
parent send 2147483647 PHub.Move(#4) = sent 2 0 +1
parent send 2147483647 PHub.Note(#4) = sent 3 0 +0
parent send 2147483647 PHub.Set(#4, \"x\") = sent 4 0 +2
child deliver = done +0
child deliver = done +0
child deliver = done +0
child deliver = done +0
child take = dropped +1
child take = dropped +1
child take = handle 3 at 2147483647 8 makes 0 +0
child return = done +0
child take = handle 4 at 2147483647 12 makes 0 +0
child return = done +0
parent deliver = done +0
parent deliver = done +0
parent deliver = done +0
parent take = handle -2 at 4 65536 makes 0 +0
parent return = done +0
parent take = settled +0
parent take = settled +0
parent take = nothing +0
parent close = done +1
child deliver = done +0
child take = shut +0
--
child call -1/-1 to 2147483647 PHub.PTab(null)
  built 4 PTab
parent deliver request -1
parent take -1 at 2147483647 PHub.PTab(null)
  built 4 PTab
parent return -1
  answer -1 ok (true)
child deliver reply -1
child resume -1 ok (true)
child send -2 to 4 PTab.__delete__()
  fall 4 Deletion
parent send 1 to 4 PTab.Get()
parent send 2 to 2147483647 PHub.Move(#4)
parent send 3 to 2147483647 PHub.Note(#4)
parent send 4 to 2147483647 PHub.Set(#4, \"x\")
child deliver request 1
child deliver request 2
child deliver request 3
child deliver request 4
child drop 1 at 4 PTab.Get for 4
  answer 1 fault ActorDestroyed
child drop 2 at 2147483647 PHub.Move for 4
  answer 2 fault ActorDestroyed
child take 3 at 2147483647 PHub.Note(null)
child return 3
child take 4 at 2147483647 PHub.Set(null, \"x\")
child return 4
parent deliver request -2
parent deliver reply 1
parent deliver reply 2
parent take -2 at 4 PTab.__delete__()
parent return -2
  settle 1 rejected ActorDestroyed
  fall 4 Deletion
parent take reply 1
parent take reply 2
  settle 2 rejected ActorDestroyed
parent close
  fall 2147483647 NormalShutdown
child deliver goodbye
child shut NormalShutdown
  fall 2147483647 NormalShutdown
====
PC.ipdl 0 requests that are replaced
child send 2147483647 PC.Ask(1) = sent -1 0 +1
child send 2147483647 PC.Ask(2) = sent -2 0 +1
child send 2147483647 PC.Alls(1) = sent -3 0 +1
child send 2147483647 PC.Mark() = sent -4 0 +1
child send 2147483647 PC.Alls(2) = sent -5 0 +1
parent deliver = done +0
parent deliver = done +1
parent deliver = done +0
parent deliver = done +0
parent deliver = done +0
parent take = handle -2 at 2147483647 6 makes 0 resolver +0
parent resolve -2 (true) = sent +1
parent return = done +0
parent take = handle -4 at 2147483647 4 makes 0 +0
parent return = done +0
parent take = handle -5 at 2147483647 2 makes 0 +0
parent return = done +0
parent take = nothing +0
child deliver = done +0
child deliver = done +0
child take = settled +0
child take = settled +0
--
child send -1 to 2147483647 PC.Ask(1)
child send -2 to 2147483647 PC.Ask(2)
child send -3 to 2147483647 PC.Alls(1)
child send -4 to 2147483647 PC.Mark()
child send -5 to 2147483647 PC.Alls(2)
parent deliver request -1
parent deliver request -2
  replaced -1
  answer -1 fault ResolverDestroyed
parent deliver request -3
parent deliver request -4
parent deliver request -5
  replaced -3
parent take -2 at 2147483647 PC.Ask(2)
parent resolve -2 (true)
parent return -2
parent take -4 at 2147483647 PC.Mark()
parent return -4
parent take -5 at 2147483647 PC.Alls(2)
parent return -5
child deliver reply -1
child deliver reply -2
child take reply -1
  settle -1 rejected ResolverDestroyed
child take reply -2
  settle -2 resolved (true)
====
PLz.ipdl 0 the outbox
child send 2147483647 PLz.Lz(1) = sent -1 0 +0
child send 2147483647 PLz.Now() = sent -2 0 +2
child send 2147483647 PLz.Lz(2) = sent -3 0 +0
child flush = 1 +1
child flush = 0 +0
child send 2147483647 PLz.Lz(3) = sent -4 0 +0
child close = done +2
parent deliver = done +0
parent deliver = done +0
parent deliver = done +0
parent deliver = done +0
parent deliver = done +0
parent take = handle -1 at 2147483647 0 makes 0 +0
parent return = done +0
parent take = handle -2 at 2147483647 2 makes 0 +0
parent return = done +0
parent take = handle -3 at 2147483647 0 makes 0 +0
parent return = done +0
parent take = handle -4 at 2147483647 0 makes 0 +0
parent return = done +0
parent take = shut +0
--
child send -1 to 2147483647 PLz.Lz(1)
child send -2 to 2147483647 PLz.Now()
child send -3 to 2147483647 PLz.Lz(2)
child flush 1
child send -4 to 2147483647 PLz.Lz(3)
child close
  fall 2147483647 NormalShutdown
parent deliver request -1
parent deliver request -2
parent deliver request -3
parent deliver request -4
parent deliver goodbye
parent take -1 at 2147483647 PLz.Lz(1)
parent return -1
parent take -2 at 2147483647 PLz.Now()
parent return -2
parent take -3 at 2147483647 PLz.Lz(2)
parent return -3
parent take -4 at 2147483647 PLz.Lz(3)
parent return -4
parent shut NormalShutdown
  fall 2147483647 NormalShutdown
====
PLz.ipdl 0 a goodbye drops the outbox
child send 2147483647 PLz.Lz(1) = sent -1 0 +0
parent close = done +1
child deliver = done +0
child flush = 0 +0
child take = shut +0
child die = done +0
child state = dead +0
--
child send -1 to 2147483647 PLz.Lz(1)
parent close
  fall 2147483647 NormalShutdown
child deliver goodbye
child shut NormalShutdown
  fall 2147483647 NormalShutdown
child die
====
PHub.ipdl 0 large and dead values that are sent
parent send 2147483647 PHub.Set(null, \"%4088\") = sent 1 0 +1
parent send 2147483647 PHub.Set(null, \"%4089\") = refused TooLarge +0
parent send 2147483647 PHub.Set(#6, \"%4089\") = refused TooLarge +0
parent send 2147483647 PHub.Set(#6, \"x\") = refused DeadValue +0
parent send 6 PTab.Get() = refused DeadActor +0
parent send 2147483647 PTab.Get() = refused DeadActor +0
parent counts = 1 0 +0
parent send 2147483647 PHub.Set(null, \"\") = sent 2 0 +1
--
parent send 1 to 2147483647 PHub.Set(null, \"%4088\")
parent refused TooLarge PHub.Set
parent refused TooLarge PHub.Set
parent refused DeadValue PHub.Set
parent refused DeadActor PTab.Get
parent refused DeadActor PTab.Get
parent send 2 to 2147483647 PHub.Set(null, \"\")
====
PHub.ipdl 0 large and dead values that are answered
child new t 2147483647 PHub.PTab(null) = sent -1 4 +1
parent deliver = done +0
parent take = handle -1 at 2147483647 0 makes 4 +0
parent return (false) = done +1
child deliver = done +0
child resume = goes on +0
parent send 4 PTab.Get() = sent 1 0 +1
parent send 2147483647 PHub.Move(#4) = sent 2 0 +1
child deliver = done +0
child deliver = done +0
child take = handle 1 at 4 65540 makes 0 resolver +0
child resolve 1 (\"%4093\") = refused TooLarge +0
child resolve 1 (\"%4092\") = sent +1
child return = done +0
child take = handle 2 at 2147483647 10 makes 0 resolver +0
child resolve 2 (#6) = refused DeadValue +0
child resolve 2 (#4) = sent +1
child return = done +0
parent deliver = done +0
parent deliver = done +0
parent take = settled +0
parent take = settled +0
parent send 4 PTab.Ping() = sent 3 0 +1
child deliver = done +0
child take = handle 3 at 4 65538 makes 0 +0
child return (#6) = done +1
parent deliver = done +0
parent resume = goes on +0
parent send 4 PTab.Ping() = sent 4 0 +1
child deliver = done +0
child take = handle 4 at 4 65538 makes 0 +0
child return (#4) = done +1
parent deliver = done +0
parent resume = goes on +0
--
child call -1/-1 to 2147483647 PHub.PTab(null)
  built 4 PTab
parent deliver request -1
parent take -1 at 2147483647 PHub.PTab(null)
  built 4 PTab
parent return -1
  answer -1 ok (false)
child deliver reply -1
child resume -1 ok (false)
parent send 1 to 4 PTab.Get()
parent send 2 to 2147483647 PHub.Move(#4)
child deliver request 1
child deliver request 2
child take 1 at 4 PTab.Get()
child refused TooLarge resolve
child resolve 1 (\"%4092\")
child return 1
child take 2 at 2147483647 PHub.Move(#4)
child refused DeadValue resolve
child resolve 2 (#4)
child return 2
parent deliver reply 1
parent deliver reply 2
parent take reply 1
  settle 1 resolved (\"%4092\")
parent take reply 2
  settle 2 resolved (#4)
parent call 3/3 to 4 PTab.Ping()
child deliver request 3
child take 3 at 4 PTab.Ping()
child return 3
  answer 3 fault HandlerRejected
parent deliver reply 3
parent resume 3 fault HandlerRejected
parent call 4/4 to 4 PTab.Ping()
child deliver request 4
child take 4 at 4 PTab.Ping()
child return 4
  answer 4 ok (#4)
parent deliver reply 4
parent resume 4 ok (#4)
====
PR.ipdl 1 an actor is deleted in the midst of a call
child new a 2147483647 PR.PK() = sent -1 4 +1
parent deliver = done +0
parent take = handle -1 at 2147483647 65536 makes 4 +0
parent return = done +0
child send 2147483647 PR.Count() = sent -2 0 +1
parent send 2147483647 PR.Visit(#4) = sent 1 0 +1
child deliver = done +0
child take = handle 1 at 2147483647 65540 makes 0 +0
child send 4 PK.__delete__() = sent -3 0 +1
child return (#4) = done +1
parent deliver = done +0
parent take = nothing +0
parent deliver = done +0
parent take = nothing +0
parent deliver = done +0
parent resume = goes on +0
parent take = handle -2 at 2147483647 65538 makes 0 +0
parent return (1) = done +1
parent take = handle -3 at 4 4 makes 0 +0
parent return = done +0
parent lives 4 = no +0
child deliver = done +0
child resume = goes on +0
--
child send -1 to 2147483647 PR.PK()
  built 4 PK
parent deliver request -1
parent take -1 at 2147483647 PR.PK()
  built 4 PK
parent return -1
child call -2/-2 to 2147483647 PR.Count()
parent call 1/1 to 2147483647 PR.Visit(#4)
child deliver request 1
child take 1 at 2147483647 PR.Visit(#4)
child send -3 to 4 PK.__delete__()
  fall 4 Deletion
child return 1
  answer 1 fault HandlerRejected
parent deliver request -2
parent deliver request -3
parent deliver reply 1
parent resume 1 fault HandlerRejected
parent take -2 at 2147483647 PR.Count()
parent return -2
  answer -2 ok (1)
parent take -3 at 4 PK.__delete__()
parent return -3
  fall 4 Deletion
child deliver reply -2
child resume -2 ok (1)
====
PHub.ipdl 0 calls of both ends, and what interrupts them
child new t 2147483647 PHub.PTab(null) = sent -1 4 +1
parent deliver = done +0
parent take = handle -1 at 2147483647 0 makes 4 +0
parent return (true) = done +1
child deliver = done +0
child resume = goes on +0
parent send 4 PTab.Ping() = sent 1 0 +1
child send 2147483647 PHub.Push(some #4) = sent -2 0 +1
parent deliver = done +0
parent take = handle -2 at 2147483647 4 makes 0 +0
parent return = done +0
child new u 2147483647 PHub.PTab(#4) = sent -3 8 +1
parent deliver = done +0
parent take = handle -3 at 2147483647 0 makes 8 +0
child deliver = done +0
child take = nothing +0
parent return (false) = done +1
child deliver = done +0
child resume = goes on +0
child take = handle 1 at 4 65538 makes 0 +0
child send 4 PTab.__delete__() = sent -4 0 +1
parent deliver = done +0
parent take = handle -4 at 4 65536 makes 0 +0
parent return = done +0
parent lives 4 = no +0
child return (#8) = done +1
parent deliver = done +0
parent resume = goes on +0
child send 2147483647 PHub.Wait(@1 5) = sent -5 0 +1
parent send 2147483647 PHub.Call(3) = sent 2 0 +1
child deliver = done +0
child take = handle 2 at 2147483647 6 makes 0 +0
child return (#8) = done +1
parent deliver = done +0
parent take = nothing +0
parent deliver = done +0
parent resume = goes on +0
parent take = handle -5 at 2147483647 2 makes 0 +0
parent return (@0 #8) = done +1
child deliver = done +0
child resume = goes on +0
--
child call -1/-1 to 2147483647 PHub.PTab(null)
  built 4 PTab
parent deliver request -1
parent take -1 at 2147483647 PHub.PTab(null)
  built 4 PTab
parent return -1
  answer -1 ok (true)
child deliver reply -1
child resume -1 ok (true)
parent call 1/1 to 4 PTab.Ping()
child send -2 to 2147483647 PHub.Push(some #4)
parent deliver request -2
parent take -2 at 2147483647 PHub.Push(some #4)
parent return -2
child call -3/-3 to 2147483647 PHub.PTab(#4)
  built 8 PTab
parent deliver request -3
parent take -3 at 2147483647 PHub.PTab(#4)
  built 8 PTab
child deliver request 1
parent return -3
  answer -3 ok (false)
child deliver reply -3
child resume -3 ok (false)
child take 1 at 4 PTab.Ping()
child send -4 to 4 PTab.__delete__()
  fall 4 Deletion
parent deliver request -4
parent take -4 at 4 PTab.__delete__()
parent return -4
  fall 4 Deletion
child return 1
  answer 1 ok (#8)
parent deliver reply 1
parent resume 1 ok (#8)
child call -5/-5 to 2147483647 PHub.Wait(@1 5)
parent call 2/2 to 2147483647 PHub.Call(3)
child deliver request 2
child take 2 at 2147483647 PHub.Call(3)
child return 2
  answer 2 ok (#8)
parent deliver request -5
parent deliver reply 2
parent resume 2 ok (#8)
parent take -5 at 2147483647 PHub.Wait(@1 5)
parent return -5
  answer -5 ok (@0 #8)
child deliver reply -5
child resume -5 ok (@0 #8)
====
PC.ipdl 0 requests that are replaced in the midst of a call
parent send 2147483647 PC.Hold() = sent 1 0 +1
child send 2147483647 PC.Urge(1) = sent -1 0 +1
child send 2147483647 PC.Urge(2) = sent -2 0 +1
child send 2147483647 PC.Up(1) = sent -3 0 +1
child send 2147483647 PC.Urge(3) = sent -4 0 +1
parent deliver = done +0
parent deliver = done +1
parent take = handle -2 at 2147483647 8 makes 0 resolver +0
parent resolve -2 (true) = sent +1
parent return = done +0
parent deliver = done +0
parent take = nothing +0
parent deliver = done +0
parent take = handle -4 at 2147483647 8 makes 0 resolver +0
parent return = done +1
child deliver = done +0
child take = handle 1 at 2147483647 10 makes 0 +0
child return = done +1
parent deliver = done +0
parent resume = goes on +0
parent take = handle -3 at 2147483647 0 makes 0 +0
parent return = done +0
child deliver = done +0
child deliver = done +0
child deliver = done +0
child take = settled +0
child take = settled +0
child take = settled +0
--
parent call 1/1 to 2147483647 PC.Hold()
child send -1 to 2147483647 PC.Urge(1)
child send -2 to 2147483647 PC.Urge(2)
child send -3 to 2147483647 PC.Up(1)
child send -4 to 2147483647 PC.Urge(3)
parent deliver request -1
parent deliver request -2
  replaced -1
  answer -1 fault ResolverDestroyed
parent take -2 at 2147483647 PC.Urge(2)
parent resolve -2 (true)
parent return -2
parent deliver request -3
parent deliver request -4
parent take -4 at 2147483647 PC.Urge(3)
parent return -4
  answer -4 fault ResolverDestroyed
child deliver request 1
child take 1 at 2147483647 PC.Hold()
child return 1
  answer 1 ok ()
parent deliver reply 1
parent resume 1 ok ()
parent take -3 at 2147483647 PC.Up(1)
parent return -3
child deliver reply -1
child deliver reply -2
child deliver reply -4
child take reply -1
  settle -1 rejected ResolverDestroyed
child take reply -2
  settle -2 resolved (true)
child take reply -4
  settle -4 rejected ResolverDestroyed
====
PLz.ipdl 0 the outbox goes ahead of a call and of an answer
parent send 2147483647 PLz.Hold() = sent 1 0 +1
child deliver = done +0
child take = handle 1 at 2147483647 6 makes 0 +0
child send 2147483647 PLz.Lz(1) = sent -1 0 +0
child send 2147483647 PLz.Back() = sent -2 0 +2
parent deliver = done +0
parent take = nothing +0
parent deliver = done +0
parent take = handle -2 at 2147483647 4 makes 0 +0
parent return = done +1
child deliver = done +0
child resume = goes on +0
child send 2147483647 PLz.Lz(2) = sent -3 0 +0
child return = done +2
parent deliver = done +0
parent deliver = done +0
parent resume = goes on +0
parent take = handle -1 at 2147483647 0 makes 0 +0
parent return = done +0
parent take = handle -3 at 2147483647 0 makes 0 +0
parent return = done +0
--
parent call 1/1 to 2147483647 PLz.Hold()
child deliver request 1
child take 1 at 2147483647 PLz.Hold()
child send -1 to 2147483647 PLz.Lz(1)
child call -2/1 to 2147483647 PLz.Back()
parent deliver request -1
parent deliver request -2
parent take -2 at 2147483647 PLz.Back()
parent return -2
  answer -2 ok ()
child deliver reply -2
child resume -2 ok ()
child send -3 to 2147483647 PLz.Lz(2)
child return 1
  answer 1 ok ()
parent deliver request -3
parent deliver reply 1
parent resume 1 ok ()
parent take -1 at 2147483647 PLz.Lz(1)
parent return -1
parent take -3 at 2147483647 PLz.Lz(2)
parent return -3
";

/// The number of rows.
pub const ACTOR_COUNT: &str = "11";
