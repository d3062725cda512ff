//! Lists of lines that no run has, and that all five laws let pass.

/// Each row: its name, the file of its protocol, the verdicts of the five laws, and those of order, of effects and of
/// answers; what is false; and then the lines. `====` is between two rows.
pub const ORDER: &str = "later-first PW.ipdl yyyyy nyy
of two that the end does not defer the younger is taken
parent send 1 to 2147483647 PW.Tell(1)
parent send 2 to 2147483647 PW.Tell(2)
child deliver request 1
child deliver request 2
child take 2 at 2147483647 PW.Tell(2)
====
deferred-under-a-wait PW.ipdl yyyyy nyy
a deferred message is taken while a call waits
child call -1/-1 to 2147483647 PW.CallP()
parent send 1 to 2147483647 PW.Tell(1)
child deliver request 1
child take 1 at 2147483647 PW.Tell(1)
====
deferred-reply PDesk.ipdl yyyyy nyy
the reply of a promise is taken while a call waits
parent send 1 to 2147483647 PDesk.PPage()
  built 6 PPage
child deliver request 1
child take 1 at 2147483647 PDesk.PPage()
  built 6 PPage
child return 1
child send -1 to 6 PPage.Get()
parent deliver request -1
parent take -1 at 6 PPage.Get()
parent resolve -1 (5)
parent return -1
child call -2/-2 to 2147483647 PDesk.Peek()
child deliver reply -1
child take reply -1
  settle -1 resolved (5)
====
compressed-in-place PC.ipdl yyyyy nyy
the later of two messages of which one replaces the other keeps the place of that
child send -1 to 2147483647 PC.Alls(1)
child send -2 to 2147483647 PC.Mark()
child send -3 to 2147483647 PC.Alls(2)
parent deliver request -1
parent deliver request -2
parent deliver request -3
  replaced -1
parent take -3 at 2147483647 PC.Alls(2)
====
shut-before-a-message PW.ipdl yyyyy nyy
an end closes while a message waits
parent send 1 to 2147483647 PW.Tell(1)
parent close
  fall 2147483647 NormalShutdown
child deliver request 1
child deliver goodbye
child shut NormalShutdown
  fall 2147483647 NormalShutdown
====
destructor-of-nobody PR.ipdl yyyyy yny
a destructor is sent and no actor falls
child send -1 to 2147483647 PR.PK()
  built 4 PK
child send -2 to 4 PK.__delete__()
====
handled-destructor-of-nobody POwn.ipdl yyyyy yny
the handler of a destructor returns and no actor falls
child send -1 to 2147483647 POwn.PTmp()
  built 4 PTmp
child send -2 to 4 PTmp.__delete__()
  fall 4 Deletion
parent deliver request -1
parent take -1 at 2147483647 POwn.PTmp()
  built 4 PTmp
parent return -1
parent deliver request -2
parent take -2 at 4 PTmp.__delete__()
parent return -2
====
constructor-of-nobody PR.ipdl yyyyy yny
a constructor is sent and builds nobody
child send -1 to 2147483647 PR.PK()
====
handled-constructor-of-nobody PR.ipdl yyyyy yny
a constructor is taken and builds nobody
child send -1 to 2147483647 PR.PK()
  built 4 PK
parent deliver request -1
parent take -1 at 2147483647 PR.PK()
====
drop-without-its-answer PDesk.ipdl yyyyy yny
a request that makes a promise is dropped and not answered
parent send 1 to 2147483647 PDesk.PPage()
  built 6 PPage
child deliver request 1
child take 1 at 2147483647 PDesk.PPage()
  built 6 PPage
child return 1
child send -1 to 6 PPage.Get()
parent send 2 to 6 PPage.__delete__()
  fall 6 Deletion
parent deliver request -1
parent drop -1 at 6 PPage.Get for 6
====
return-without-its-answer PW.ipdl yyyyy yny
the handler of a sync request returns and does not answer
child call -1/-1 to 2147483647 PW.CallP()
parent deliver request -1
parent take -1 at 2147483647 PW.CallP()
parent send 1 to 2147483647 PW.Tell(1)
parent return -1
====
return-with-a-resolver PQ.ipdl yyyyy yny
a handler returns that has its resolver, and does not answer
parent send 1 to 2147483647 PQ.Get()
child deliver request 1
child take 1 at 2147483647 PQ.Get()
child return 1
====
name-that-loses-its-resolver PQ.ipdl yyyyy yny
a name gets an actor, and the resolver that it held does not answer
parent send 1 to 2147483647 PQ.Get()
child deliver request 1
child take 1 at 2147483647 PQ.Get()
child keep 1 a
child return 1
child let a 0
====
reply-that-settles-nothing PQ.ipdl yyyyy yny
a reply is taken and its promise is not settled
parent send 1 to 2147483647 PQ.Get()
child deliver request 1
child take 1 at 2147483647 PQ.Get()
child resolve 1 (7)
child return 1
parent deliver reply 1
parent take reply 1
====
refusal-with-an-answer PQ.ipdl yyyyy yny
an act is refused, and a request is answered
parent send 1 to 2147483647 PQ.Get()
child deliver request 1
child take 1 at 2147483647 PQ.Get()
child refused DeadActor PQ.Tell
  answer 1 fault ResolverDestroyed
====
answer-to-nothing PQ.ipdl yyyyy yyn
a request is answered that was never sent
child resolve 1 (7)
====
two-answers PQ.ipdl yyyyy yyn
a request is answered twice
parent send 1 to 2147483647 PQ.Get()
child deliver request 1
child take 1 at 2147483647 PQ.Get()
child resolve 1 (7)
child resolve 1 (8)
====
answer-to-a-message PW.ipdl yyyyy yyn
a message is answered that owes no reply
parent send 1 to 2147483647 PW.Tell(1)
child deliver request 1
child take 1 at 2147483647 PW.Tell(1)
child reject 1
====
answer-as-it-comes PQ.ipdl yyyyy yyn
a request is answered by the event of its delivery
parent send 1 to 2147483647 PQ.Get()
child deliver request 1
  answer 1 fault ResolverDestroyed
====
answer-that-was-not-delivered PQ.ipdl yyyyy yyn
a request is answered before it is delivered
parent send 1 to 2147483647 PQ.Get()
child resolve 1 (7)
====
answer-of-a-closed-end PQ.ipdl yyyyy yyn
an end answers that has closed
parent send 1 to 2147483647 PQ.Get()
child deliver request 1
child close
  fall 2147483647 NormalShutdown
child resolve 1 (7)
====
replaced-without-its-answer PC.ipdl yyyyy yyn
a request that makes a promise is replaced and not answered
child send -1 to 2147483647 PC.Ask(1)
child send -2 to 2147483647 PC.Ask(2)
parent deliver request -1
parent deliver request -2
  replaced -1
====
reply-too-late-for-a-rejection PQ.ipdl yyyyy yyn
a reply is taken whose promise was rejected, though no actor fell
parent send 1 to 2147483647 PQ.Get()
child deliver request 1
child take 1 at 2147483647 PQ.Get()
child reject 1
child return 1
parent deliver reply 1
  settle 1 rejected HandlerRejected
parent take reply 1
====
drop-at-a-draining-end PDesk.ipdl yyyyy ynn
an end that drains answers what it drops
parent send 1 to 2147483647 PDesk.PPage()
  built 6 PPage
child deliver request 1
child take 1 at 2147483647 PDesk.PPage()
  built 6 PPage
child return 1
child send -1 to 6 PPage.Get()
child close
  settle -1 rejected ChannelClosed
  fall 6 NormalShutdown
  fall 2147483647 NormalShutdown
parent send 2 to 6 PPage.__delete__()
  fall 6 Deletion
parent deliver request -1
parent deliver goodbye
parent drop -1 at 6 PPage.Get for 6
  answer -1 fault ActorDestroyed
";

/// The number of rows.
pub const ORDER_COUNT: &str = "24";

/// Lists of lines that the five laws, order, effects and answers let pass though no run has them: what these leave open
/// (docs/laws.md). In the same form.
pub const SILENT: &str = "unfinished PW.ipdl yyyyy yyy
a run that does not go on: a call was sent and is not delivered
parent call 1/1 to 2147483647 PW.CallC()
====
names PQ.ipdl yyyyy yyy
a name that holds an actor that never lived
parent let a 998
====
causes PW.ipdl yyyyy yyy
an act that is refused for a cause that it does not have
child refused Closed PW.Poke
====
flushes PW.ipdl yyyyy yyy
packets that leave an empty outbox
parent flush 7
====
directions PW.ipdl yyyyy yyy
a message that is sent by the side that receives it
parent send 1 to 2147483647 PW.Poke()
====
numbers PW.ipdl yyyyy yyy
the first request has another number than 1
parent send 12 to 2147483647 PW.Tell(1)
====
outcomes PQ.ipdl yyyyy yyy
a handler that answers and was not taken
parent send 1 to 2147483647 PQ.Get()
child deliver request 1
child send -1 to 2147483647 PQ.Get()
child resolve 1 (7)
====
resolvers PQ.ipdl yyyyy yyy
a resolver that is kept and was never there
child keep 5 a
====
two-deaths PW.ipdl yyyyy yyy
an end that dies twice
parent die
parent die
====
settled-early PQ.ipdl yyyyy yyy
a promise is settled as its reply is delivered, before it is taken
parent send 1 to 2147483647 PQ.Get()
child deliver request 1
child take 1 at 2147483647 PQ.Get()
child resolve 1 (7)
child return 1
parent deliver reply 1
  settle 1 resolved (7)
";

/// The number of rows.
pub const SILENT_COUNT: &str = "10";
