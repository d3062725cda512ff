//! Rows on the calls that wait after some lines.

/// Histories. Each row: its name and the file of its protocol; then, for some numbers of lines, which
/// calls wait after that many lines; and after `@` its lines. `====` is between two rows.
pub const CHAINS: &str = "PW-07 PW.ipdl
0: nobody
8: child -1, parent 1, child -2
22: child -1, parent 1, child -2, parent 2, child -3, parent 3, child -4, parent 4
@
child call -1/-1 to 2147483647 PW.Base()
parent call 1/1 to 2147483647 PW.CallC()
parent deliver request -1
child deliver request 1
child take 1 at 2147483647 PW.CallC()
child call -2/1 to 2147483647 PW.CallP()
parent deliver request -2
parent take -2 at 2147483647 PW.CallP()
parent call 2/1 to 2147483647 PW.CallC()
child deliver request 2
child take 2 at 2147483647 PW.CallC()
child refused LevelTooLow PW.Base
child call -3/1 to 2147483647 PW.CallP()
parent deliver request -3
parent take -3 at 2147483647 PW.CallP()
parent call 3/1 to 2147483647 PW.CallC()
child deliver request 3
child take 3 at 2147483647 PW.CallC()
child call -4/1 to 2147483647 PW.CallP()
parent deliver request -4
parent take -4 at 2147483647 PW.CallP()
parent call 4/1 to 2147483647 PW.CallC()
====
PW-09 PW.ipdl
5: child -1, parent 1
8: child -1, parent 1, child -2
11: child -1, parent 1, child -2, parent 2
14: child -1, parent 1, child -2, parent 2, child -3
17: child -1, parent 1, child -2, parent 2, child -3, parent 3
18: child -1, parent 1, child -2, parent 2, child -3, parent 3, child -4
20: child -1, child -2, child -3, child -4
21: child -1, child -2, child -3
22: child -1, child -2
27: nobody
@
child call -1/-1 to 2147483647 PW.Base()
parent deliver request -1
parent call 1/1 to 2147483647 PW.CallC()
child deliver request 1
child take 1 at 2147483647 PW.CallC()
child call -2/1 to 2147483647 PW.CallP()
parent deliver request -2
parent take -2 at 2147483647 PW.CallP()
parent call 2/1 to 2147483647 PW.CallC()
child deliver request 2
child take 2 at 2147483647 PW.CallC()
child call -3/1 to 2147483647 PW.CallP()
parent deliver request -3
parent take -3 at 2147483647 PW.CallP()
parent call 3/1 to 2147483647 PW.CallC()
child deliver request 3
child take 3 at 2147483647 PW.CallC()
child call -4/1 to 2147483647 PW.CallP()
parent die
child deliver broken
  fails -4
  fails -3
  fails -2
  fails -1
child resume -4 fault ChannelClosed
child return 3
child resume -3 fault ChannelClosed
====
PHub-04 PHub.ipdl
0: nobody
23: child -4, parent 1, child -5, parent 2, child -6
25: child -4, parent 1, child -5, parent 2, child -6
@
child send -1 to 2147483647 PHub.Push(none)
parent deliver request -1
parent take -1 at 2147483647 PHub.Push(none)
child send -2 to 2147483647 PHub.Push(none)
child send -3 to 2147483647 PHub.Note(null)
child call -4/-4 to 2147483647 PHub.Wait(@0 null)
parent deliver request -2
parent deliver request -3
parent deliver request -4
parent return -1
parent take -2 at 2147483647 PHub.Push(none)
parent return -2
parent call 1/1 to 2147483647 PHub.Call(-4)
child deliver request 1
child take 1 at 2147483647 PHub.Call(-4)
child call -5/1 to 2147483647 PHub.Wait(@1 35)
parent deliver request -5
parent take -5 at 2147483647 PHub.Wait(@1 35)
parent call 2/1 to 2147483647 PHub.Call(11)
child deliver request 2
child take 2 at 2147483647 PHub.Call(11)
child refused InCall close
child call -6/1 to 2147483647 PHub.Wait(@0 null)
parent deliver request -6
parent take -6 at 2147483647 PHub.Wait(@0 null)
====
PW-08 PW.ipdl
4: parent 1, child -1
8: parent 1, child -1, child -2
9: parent 1, child -1, child -2, parent 2
15: child -1, child -2
16: child -1
26: nobody
@
parent call 1/1 to 2147483647 PW.CallC()
child deliver request 1
child call -1/-1 to 2147483647 PW.CallP()
child take 1 at 2147483647 PW.CallC()
child call -2/1 to 2147483647 PW.CallP()
parent deliver request -1
parent deliver request -2
parent take -2 at 2147483647 PW.CallP()
parent call 2/1 to 2147483647 PW.CallC()
child deliver request 2
child take 2 at 2147483647 PW.CallC()
parent die
child call -3/1 to 2147483647 PW.CallP()
child deliver broken
  fails -3
  fails -2
  fails -1
child resume -3 fault ChannelClosed
child refused Closed PW.Base
child return 2
child resume -2 fault ChannelClosed
child return 1
child resume -1 fault ChannelClosed
child shut AbnormalShutdown
  fall 2147483647 AbnormalShutdown
child die
====
PW-02 PW.ipdl
2: child -1
8: child -1, parent 1, child -2
10: child -1, parent 1, child -2
@
child call -1/-1 to 2147483647 PW.Base()
parent deliver request -1
parent call 1/1 to 2147483647 PW.CallC()
child deliver request 1
child take 1 at 2147483647 PW.CallC()
child refused LevelTooLow PW.Base
child refused LevelTooLow PW.Base
child call -2/1 to 2147483647 PW.CallP()
parent deliver request -2
parent take -2 at 2147483647 PW.CallP()
====
PW-05 PW.ipdl
8: child -1, parent 1, child -3
16: nobody
@
child call -1/-1 to 2147483647 PW.CallP()
parent call 1/1 to 2147483647 PW.CallC()
parent deliver request -1
child deliver request 1
child take 1 at 2147483647 PW.CallC()
child send -2 to 2147483647 PW.Poke()
parent deliver request -2
child call -3/1 to 2147483647 PW.CallP()
parent deliver request -3
parent take -2 at 2147483647 PW.Poke()
parent send 2 to 2147483647 PW.Tell(82)
child deliver request 2
parent die
child deliver broken
  fails -3
  fails -1
====
PDesk-01 PDesk.ipdl
1: child -1
7: child -1
12: nobody
@
child call -1/-1 to 2147483647 PDesk.Peek()
parent deliver request -1
parent refused DeadValue PDesk.Turn
parent take -1 at 2147483647 PDesk.Peek()
parent refused InsideCpow PDesk.Turn
parent die
child deliver broken
  fails -1
child resume -1 fault ChannelClosed
child shut AbnormalShutdown
  fall 2147483647 AbnormalShutdown
child die
====
PDesk-02 PDesk.ipdl
1: child -1
19: nobody
@
child call -1/-1 to 2147483647 PDesk.Peek()
parent deliver request -1
parent take -1 at 2147483647 PDesk.Peek()
parent refused InsideCpow PDesk.Turn
parent refused InsideCpow PDesk.Turn
parent refused InsideCpow PDesk.Turn
parent refused InsideCpow PDesk.Turn
parent send 1 to 2147483647 PDesk.PPage()
  built 6 PPage
child deliver request 1
parent refused InsideCpow PDesk.Turn
parent refused InsideCpow PDesk.Turn
parent return -1
  answer -1 ok (#6)
child deliver reply -1
child resume -1 ok (null)
child take 1 at 2147483647 PDesk.PPage()
  built 6 PPage
child return 1
====
PDesk-05 PDesk.ipdl
13: child -1
29: nobody
@
parent send 1 to 2147483647 PDesk.List()
child deliver request 1
child take 1 at 2147483647 PDesk.List()
parent send 2 to 2147483647 PDesk.Find([null])
child keep 1 a
child refused DeadValue resolve
child refused DeadValue resolve
child reject 1
parent send 3 to 2147483647 PDesk.PPage()
  built 6 PPage
child deliver request 2
child deliver request 3
child call -1/-1 to 2147483647 PDesk.Peek()
parent deliver reply 1
parent take reply 1
  settle 1 rejected HandlerRejected
parent deliver request -1
parent send 4 to 2147483647 PDesk.List()
parent take -1 at 2147483647 PDesk.Peek()
child deliver request 4
parent return -1
  answer -1 ok (#6)
child deliver reply -1
child resume -1 ok (null)
parent send 5 to 6 PPage.PPage()
  built 10 PPage
child deliver request 5
parent send 6 to 10 PPage.Get()
child deliver request 6
====
PDesk-06 PDesk.ipdl
10: child -1
33: nobody
@
parent send 1 to 2147483647 PDesk.PPage()
  built 6 PPage
parent send 2 to 6 PPage.PPage()
  built 10 PPage
child deliver request 1
child take 1 at 2147483647 PDesk.PPage()
  built 6 PPage
child deliver request 2
parent send 3 to 2147483647 PDesk.List()
child call -1/-1 to 2147483647 PDesk.Open(#6)
parent deliver request -1
child deliver request 3
parent take -1 at 2147483647 PDesk.Open(#6)
parent send 4 to 2147483647 PDesk.Find([#6])
parent return -1
  answer -1 ok (#10)
child deliver request 4
child deliver reply -1
child resume -1 fault ActorDestroyed
child return 1
child take 2 at 6 PPage.PPage()
  built 10 PPage
child close
  fall 10 NormalShutdown
  fall 6 NormalShutdown
  fall 2147483647 NormalShutdown
parent close
  settle 3 rejected ChannelClosed
  settle 4 rejected ChannelClosed
  fall 10 NormalShutdown
  fall 6 NormalShutdown
  fall 2147483647 NormalShutdown
child return 2
====
PDesk-07 PDesk.ipdl
0: nobody
2: child -1
14: child -1
36: nobody
@
parent let b 4
child call -1/-1 to 2147483647 PDesk.Open(null)
parent deliver request -1
parent take -1 at 2147483647 PDesk.Open(null)
parent send 1 to 2147483647 PDesk.PPage()
  built 6 PPage
parent return -1
  answer -1 ok (#6)
parent send 2 to 6 PPage.Get()
child deliver request 1
parent send 3 to 6 PPage.__delete__()
  settle 2 rejected ActorDestroyed
  fall 6 Deletion
parent send 4 to 2147483647 PDesk.List()
child deliver reply -1
child resume -1 fault ActorDestroyed
child deliver request 2
child deliver request 3
child take 1 at 2147483647 PDesk.PPage()
  built 6 PPage
child return 1
child take 2 at 6 PPage.Get()
child deliver request 4
child return 2
  answer 2 fault ResolverDestroyed
child take 3 at 6 PPage.__delete__()
parent deliver reply 2
parent take reply 2
child return 3
  fall 6 Deletion
child take 4 at 2147483647 PDesk.List()
child return 4
  answer 4 fault ResolverDestroyed
parent deliver reply 4
parent take reply 4
  settle 4 rejected ResolverDestroyed
====
PDesk-13 PDesk.ipdl
0: nobody
1: child -1
10: child -1
48: child -4
55: nobody
@
child call -1/-1 to 2147483647 PDesk.Open(null)
parent send 1 to 2147483647 PDesk.PPage()
  built 6 PPage
parent deliver request -1
parent take -1 at 2147483647 PDesk.Open(null)
parent return -1
  answer -1 ok (#6)
child deliver request 1
parent send 2 to 2147483647 PDesk.Find([#6])
parent send 3 to 2147483647 PDesk.Find([#6, #6, #6])
child deliver reply -1
child resume -1 fault ActorDestroyed
child take 1 at 2147483647 PDesk.PPage()
  built 6 PPage
child return 1
child send -2 to 2147483647 PDesk.Find([null])
parent deliver request -2
parent take -2 at 2147483647 PDesk.Find([null])
child send -3 to 2147483647 PDesk.List()
parent return -2
  answer -2 fault ResolverDestroyed
child deliver request 2
child deliver request 3
child take 2 at 2147483647 PDesk.Find([#6])
child resolve 2 (#6)
child return 2
parent send 4 to 6 PPage.PPage()
  built 10 PPage
child take 3 at 2147483647 PDesk.Find([#6, #6, #6])
child call -4/-4 to 2147483647 PDesk.Peek()
parent send 5 to 6 PPage.__delete__()
  fall 10 AncestorDeletion
  fall 6 Deletion
parent deliver request -3
parent deliver reply 2
parent take -3 at 2147483647 PDesk.List()
parent return -3
  answer -3 fault ResolverDestroyed
child deliver reply -2
parent deliver request -4
parent take reply 2
  settle 2 rejected ActorDestroyed
child deliver request 4
child deliver request 5
child deliver reply -3
parent take -4 at 2147483647 PDesk.Peek()
parent return -4
  answer -4 ok (null)
child deliver reply -4
child resume -4 ok (null)
child return 3
  answer 3 fault ResolverDestroyed
parent deliver reply 3
child take reply -2
  settle -2 rejected ResolverDestroyed
";

/// The number of questions which calls wait after some lines.
pub const CHAINS_COUNT: &str = "45";
