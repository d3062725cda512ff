//! Rows on resolvers and names.

/// Rows on resolvers, names, and ends that have closed (`rows` has their form).
pub const RESOLVER_ROWS: &str = "PQ.ipdl 0 an end that has closed sends nothing
parent send 2147483647 PQ.Get() = sent 1 0 +1
parent close = done +1
parent send 2147483647 PQ.Get() = refused Closed +0
parent close = refused Closed +0
parent state = closed +0
child deliver = done +0
child take = handle 1 at 2147483647 0 makes 0 resolver +0
child deliver = done +0
child state = draining +0
child resolve 1 (7) = refused Closed +0
child reject 1 = refused Closed +0
child return = done +0
child take = shut +0
child state = closed +0
child lives 2147483647 = no +0
child take = nothing +0
--
parent send 1 to 2147483647 PQ.Get()
parent close
  settle 1 rejected ChannelClosed
  fall 2147483647 NormalShutdown
parent refused Closed PQ.Get
parent refused Closed close
child deliver request 1
child take 1 at 2147483647 PQ.Get()
child deliver goodbye
child refused Closed resolve
child refused Closed reject
child return 1
child shut NormalShutdown
  fall 2147483647 NormalShutdown
====
PQ.ipdl 0 resolved, rejected, let go, kept
child send 2147483647 PQ.Get() = sent -1 0 +1
child send 2147483647 PQ.Get() = sent -2 0 +1
child send 2147483647 PQ.Get() = sent -3 0 +1
child send 2147483647 PQ.Get() = sent -4 0 +1
parent deliver = done +0
parent deliver = done +0
parent deliver = done +0
parent deliver = done +0
parent take = handle -1 at 2147483647 0 makes 0 resolver +0
parent top = dispatch +0
parent take = nothing +0
parent resolve -1 (5) = sent +1
parent return = done +0
parent take = handle -2 at 2147483647 0 makes 0 resolver +0
parent reject -2 = sent +1
parent return = done +0
parent take = handle -3 at 2147483647 0 makes 0 resolver +0
parent return = done +1
parent take = handle -4 at 2147483647 0 makes 0 resolver +0
parent keep -4 later = kept +0
parent named later = resolver +0
parent return = done +0
parent resolve later PQ.Get(9) = sent +1
parent named later = nothing +0
parent resolve later PQ.Get(9) = refused DeadActor +0
child deliver = done +0
child deliver = done +0
child deliver = done +0
child deliver = done +0
child take = settled +0
child take = settled +0
child take = settled +0
child take = settled +0
child counts = 4 0 +0
parent counts = 0 4 +0
child top = empty +0
--
child send -1 to 2147483647 PQ.Get()
child send -2 to 2147483647 PQ.Get()
child send -3 to 2147483647 PQ.Get()
child send -4 to 2147483647 PQ.Get()
parent deliver request -1
parent deliver request -2
parent deliver request -3
parent deliver request -4
parent take -1 at 2147483647 PQ.Get()
parent resolve -1 (5)
parent return -1
parent take -2 at 2147483647 PQ.Get()
parent reject -2
parent return -2
parent take -3 at 2147483647 PQ.Get()
parent return -3
  answer -3 fault ResolverDestroyed
parent take -4 at 2147483647 PQ.Get()
parent keep -4 later
parent return -4
parent resolve -4 (9)
parent refused DeadActor resolve
child deliver reply -1
child deliver reply -2
child deliver reply -3
child deliver reply -4
child take reply -1
  settle -1 resolved (5)
child take reply -2
  settle -2 rejected HandlerRejected
child take reply -3
  settle -3 rejected ResolverDestroyed
child take reply -4
  settle -4 resolved (9)
====
PQ.ipdl 0 a kept resolver is let go by another, by an actor, and at a close
child send 2147483647 PQ.Get() = sent -1 0 +1
child send 2147483647 PQ.Get() = sent -2 0 +1
child send 2147483647 PQ.Get() = sent -3 0 +1
parent deliver = done +0
parent deliver = done +0
parent deliver = done +0
parent take = handle -1 at 2147483647 0 makes 0 resolver +0
parent keep -1 k = kept +0
parent return = done +0
parent take = handle -2 at 2147483647 0 makes 0 resolver +0
parent keep -2 k = kept +1
parent return = done +0
parent let 2147483647 k = named +1
parent named k = actor +0
parent reject k PQ.Get = refused DeadActor +0
parent let 0 k = named +0
parent named k = nothing +0
parent take = handle -3 at 2147483647 0 makes 0 resolver +0
parent keep -3 k = kept +0
parent return = done +0
parent close = done +1
parent named k = nothing +0
child deliver = done +0
child deliver = done +0
child deliver = done +0
child take = settled +0
child take = settled +0
child take = shut +0
--
child send -1 to 2147483647 PQ.Get()
child send -2 to 2147483647 PQ.Get()
child send -3 to 2147483647 PQ.Get()
parent deliver request -1
parent deliver request -2
parent deliver request -3
parent take -1 at 2147483647 PQ.Get()
parent keep -1 k
parent return -1
parent take -2 at 2147483647 PQ.Get()
parent keep -2 k
  answer -1 fault ResolverDestroyed
parent return -2
parent let k 2147483647
  answer -2 fault ResolverDestroyed
parent refused DeadActor reject
parent let k 0
parent take -3 at 2147483647 PQ.Get()
parent keep -3 k
parent return -3
parent close
  fall 2147483647 NormalShutdown
child deliver reply -1
child deliver reply -2
child deliver goodbye
child take reply -1
  settle -1 rejected ResolverDestroyed
child take reply -2
  settle -2 rejected ResolverDestroyed
child shut NormalShutdown
  settle -3 rejected ChannelClosed
  fall 2147483647 NormalShutdown
====
PQ.ipdl 0 a handler goes on at a closed end
child send 2147483647 PQ.Get() = sent -1 0 +1
parent deliver = done +0
parent let 2147483647 k = named +0
parent take = handle -1 at 2147483647 0 makes 0 resolver +0
parent close = done +1
parent resolve -1 (5) = refused Closed +0
parent send 2147483647 PQ.Get() = refused Closed +0
parent keep -1 k = kept +0
parent named k = nothing +0
parent resolve k PQ.Get(5) = refused Closed +0
parent let 2147483647 j = named +0
parent named j = actor +0
parent return = done +0
parent top = empty +0
parent take = nothing +0
--
child send -1 to 2147483647 PQ.Get()
parent deliver request -1
parent let k 2147483647
parent take -1 at 2147483647 PQ.Get()
parent close
  fall 2147483647 NormalShutdown
parent refused Closed resolve
parent refused Closed PQ.Get
parent keep -1 k
parent refused Closed resolve
parent let j 2147483647
parent return -1
====
PTwo.ipdl 0 two resolvers on one stack
child send 2147483647 PTwo.Start() = sent -1 0 +1
child send 2147483647 PTwo.Ask(1) = sent -2 0 +1
child send 2147483647 PTwo.Ask(2) = sent -3 0 +1
parent deliver = done +0
parent take = handle -1 at 2147483647 2 makes 0 resolver +0
parent send 2147483647 PTwo.Call() = sent 1 0 +1
parent deliver = done +0
parent deliver = done +0
parent take = handle -2 at 2147483647 0 makes 0 resolver +0
parent resolve -1 (10) = sent +1
parent resolve -2 (20) = sent +1
parent return = done +0
parent take = handle -3 at 2147483647 0 makes 0 resolver +0
parent keep -3 k = kept +0
parent return = done +0
parent take = nothing +0
child deliver = done +0
child take = handle 1 at 2147483647 4 makes 0 +0
child return (5) = done +1
child deliver = done +0
child deliver = done +0
child take = settled +0
child take = settled +0
parent deliver = done +0
parent resume = goes on +0
parent return = done +0
parent reject k PTwo.Ask = sent +1
child deliver = done +0
child take = settled +0
--
child send -1 to 2147483647 PTwo.Start()
child send -2 to 2147483647 PTwo.Ask(1)
child send -3 to 2147483647 PTwo.Ask(2)
parent deliver request -1
parent take -1 at 2147483647 PTwo.Start()
parent call 1/1 to 2147483647 PTwo.Call()
parent deliver request -2
parent deliver request -3
parent take -2 at 2147483647 PTwo.Ask(1)
parent resolve -1 (10)
parent resolve -2 (20)
parent return -2
parent take -3 at 2147483647 PTwo.Ask(2)
parent keep -3 k
parent return -3
child deliver request 1
child take 1 at 2147483647 PTwo.Call()
child return 1
  answer 1 ok (5)
child deliver reply -1
child deliver reply -2
child take reply -1
  settle -1 resolved (10)
child take reply -2
  settle -2 resolved (20)
parent deliver reply 1
parent resume 1 ok (5)
parent return -1
parent reject -3
child deliver reply -3
child take reply -3
  settle -3 rejected HandlerRejected
====
PQ.ipdl 0 a kept resolver is used by the handler that interrupts a call
child send 2147483647 PQ.Get() = sent -1 0 +1
parent deliver = done +0
parent take = handle -1 at 2147483647 0 makes 0 resolver +0
parent keep -1 k = kept +0
parent return = done +0
parent send 2147483647 PQ.Hold() = sent 1 0 +1
child send 2147483647 PQ.Get() = sent -2 0 +1
parent deliver = done +0
parent take = nothing +0
child deliver = done +0
child take = handle 1 at 2147483647 6 makes 0 +0
child send 2147483647 PQ.Back() = sent -3 0 +1
parent deliver = done +0
parent take = handle -3 at 2147483647 4 makes 0 +0
parent resolve k PQ.Get(7) = sent +1
parent return (3) = done +1
child deliver = done +0
child deliver = done +0
child resume = goes on +0
child return (4) = done +1
child take = settled +0
parent deliver = done +0
parent resume = goes on +0
parent take = handle -2 at 2147483647 0 makes 0 resolver +0
parent return = done +1
child deliver = done +0
child take = settled +0
--
child send -1 to 2147483647 PQ.Get()
parent deliver request -1
parent take -1 at 2147483647 PQ.Get()
parent keep -1 k
parent return -1
parent call 1/1 to 2147483647 PQ.Hold()
child send -2 to 2147483647 PQ.Get()
parent deliver request -2
child deliver request 1
child take 1 at 2147483647 PQ.Hold()
child call -3/1 to 2147483647 PQ.Back()
parent deliver request -3
parent take -3 at 2147483647 PQ.Back()
parent resolve -1 (7)
parent return -3
  answer -3 ok (3)
child deliver reply -1
child deliver reply -3
child resume -3 ok (3)
child return 1
  answer 1 ok (4)
child take reply -1
  settle -1 resolved (7)
parent deliver reply 1
parent resume 1 ok (4)
parent take -2 at 2147483647 PQ.Get()
parent return -2
  answer -2 fault ResolverDestroyed
child deliver reply -2
child take reply -2
  settle -2 rejected ResolverDestroyed
";

/// The number of rows.
pub const RESOLVER_COUNT: &str = "6";
