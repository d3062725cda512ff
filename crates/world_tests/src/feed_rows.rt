//! Rows of feeds.

/// Worked feeds. Each row has its name, the file of its protocol, the side of its end and the greatest
/// number of its events; then its script; after `----` the frames, in hexadecimal digits; and after the
/// next `----` what the feed prints, and last the fault that is kept, or `-`. `====` separates two
/// rows.
pub const FEEDS: &str = "feed-wrong-number PF.ipdl parent 10000
----
4950443204000000ffffff7f0000000000000000ffffffff0000000001000000
4950443204000000ffffff7f0000000000000000ffffffff0000000001000000
----
parent deliver request -1
parent take -1 at 2147483647 PF.Flag(true)
parent return -1
parent deliver broken
parent shut AbnormalShutdown
  fall 2147483647 AbnormalShutdown
finished
Bad 52 12
====
feed-stray PQ.ipdl parent 10000
parent main
send top PQ.Get()
end
----
4950443204000000ffffff7f0100000008000000020000000000000005000000
----
parent send 1 to 2147483647 PQ.Get()
parent deliver broken
parent shut AbnormalShutdown
  settle 1 rejected ChannelClosed
  fall 2147483647 AbnormalShutdown
finished
Stray 0 2
====
feed-settles PQ.ipdl parent 10000
parent main
send top PQ.Get()
end
----
4950443204000000ffffff7f0100000008000000010000000000000005000000
----
parent send 1 to 2147483647 PQ.Get()
parent deliver reply 1
parent take reply 1
  settle 1 resolved (5)
parent deliver broken
parent shut AbnormalShutdown
  fall 2147483647 AbnormalShutdown
finished
-
====
no-bytes PQ.ipdl parent 10000
----
----
parent deliver broken
parent shut AbnormalShutdown
  fall 2147483647 AbnormalShutdown
finished
-
====
nothing-behind-a-goodbye PQ.ipdl parent 10000
----
4950443200000000000000000000ffff000000000000000000000000
00504432
----
parent deliver goodbye
parent shut NormalShutdown
  fall 2147483647 NormalShutdown
finished
-
====
nothing-behind-a-close PQ.ipdl parent 10000
parent main
close
end
----
00504432
----
parent close
  fall 2147483647 NormalShutdown
finished
-
====
nothing-behind-a-refused-frame PQ.ipdl parent 10000
----
4950443204000000ffffff7f0200000000000000feffffff0000000005000000
4950443204000000ffffff7f0200000000000000ffffffff0000000005000000
----
parent deliver broken
parent shut AbnormalShutdown
  fall 2147483647 AbnormalShutdown
finished
Bad 20 12
====
frame-cut-in-its-payload PQ.ipdl parent 10000
----
4950443204000000ffffff7f0200000000000000ffffffff0000000005000000
4950443204000000ffffff7f0200000000000000feffffff0000000005
----
parent deliver request -1
parent take -1 at 2147483647 PQ.Tell(5)
parent return -1
parent deliver broken
parent shut AbnormalShutdown
  fall 2147483647 AbnormalShutdown
finished
Short 32 3
====
spent-before-it-looks PQ.ipdl parent 1
parent main
send top PQ.Get()
end
----
0050443204000000ffffff7f0100000008000000010000000000000005000000
----
parent send 1 to 2147483647 PQ.Get()
spent parent
-
====
spent-with-a-fault PQ.ipdl parent 1
----
0050443204000000ffffff7f0200000000000000ffffffff0000000005000000
----
parent deliver broken
spent parent
Bad 0 15
====
spent-by-a-take PQ.ipdl parent 1
----
4950443204000000ffffff7f0200000000000000ffffffff0000000005000000
----
parent deliver request -1
spent parent
-
====
call-that-goes-on PW.ipdl parent 10000
parent main
send top PW.CallC()
end
----
4950443204000000ffffff7f0700000009000000010000000100000005000000
----
parent call 1/1 to 2147483647 PW.CallC()
parent deliver reply 1
parent resume 1 ok (5)
parent deliver broken
parent shut AbnormalShutdown
  fall 2147483647 AbnormalShutdown
finished
-
====
stray-reply-to-a-call PW.ipdl parent 10000
parent main
send top PW.CallC()
end
----
4950443204000000ffffff7f0700000009000000020000000200000005000000
----
parent call 1/1 to 2147483647 PW.CallC()
parent deliver broken
  fails 1
parent resume 1 fault ChannelClosed
parent shut AbnormalShutdown
  fall 2147483647 AbnormalShutdown
finished
Stray 0 2
====
actor-that-is-made-and-deleted POwn.ipdl parent 10000
----
4950443204000000ffffff7f0000000000000000ffffffff0000000004000000
4950443200000000040000000200010000000000feffffff00000000
----
parent deliver request -1
parent take -1 at 2147483647 POwn.PTmp()
  built 4 PTmp
parent return -1
parent deliver request -2
parent take -2 at 4 PTmp.__delete__()
parent return -2
  fall 4 Deletion
parent deliver broken
parent shut AbnormalShutdown
  fall 2147483647 AbnormalShutdown
finished
-";

/// Frames that an end without a script refuses, each at once, so that a death is reported to it and it
/// shuts. Each row is `NAME: FILE SIDE: FRAME: FAULT`.
pub const REFUSED: &str = "less than a header: PQ.ipdl parent: 495044: Short 0 25
a header alone: PQ.ipdl parent: 4950443204000000ffffff7f0200000000000000ffffffff00000000: Short 0 4
the mark is not there: PQ.ipdl parent: 0050443204000000ffffff7f0200000000000000ffffffff0000000005000000: Bad 0 15
a payload that is too large: PQ.ipdl parent: 4950443201100000ffffff7f0200000000000000ffffffff00000000: Bad 4 1
a reply of a message without one: PQ.ipdl parent: 4950443204000000ffffff7f0300000008000000010000000000000005000000: Bad 12 2
other flags: PQ.ipdl parent: 4950443204000000ffffff7f0200000001000000ffffffff0000000005000000: Bad 16 3
a route that is none: PQ.ipdl parent: 4950443204000000000000000200000000000000ffffffff0000000005000000: Bad 8 4
a request without a number: PQ.ipdl parent: 4950443204000000ffffff7f0200000000000000000000000000000005000000: Bad 20 4
a transaction of no call: PQ.ipdl parent: 4950443204000000ffffff7f0200000000000000ffffffff0100000005000000: Bad 24 4
a byte that is no truth: PF.ipdl parent: 4950443204000000ffffff7f0000000000000000ffffffff0000000002000000: Bad 28 5
a text that is not UTF-8: PHub.ipdl parent: 4950443208000000ffffff7f0500010008000000010000000000000001000000ff000000: Bad 32 6
a value that is cut: PQ.ipdl parent: 4950443202000000ffffff7f0200000000000000ffffffff000000000500: Bad 30 7
bytes behind the last value: PQ.ipdl parent: 4950443208000000ffffff7f0200000000000000ffffffff000000000500000000000000: Bad 32 8
a new id that is none: POwn.ipdl parent: 4950443204000000ffffff7f0000000000000000ffffffff0000000000000000: Bad 28 9
an id below 0: POwn.ipdl child: 4950443204000000ffffff7f0200000000000000010000000000000000000080: Bad 28 9
padding that is not 0: PF.ipdl parent: 4950443204000000ffffff7f0000000000000000ffffffff0000000001000100: Bad 30 14
a request of this side: PQ.ipdl child: 4950443204000000ffffff7f0200000000000000010000000000000005000000: Bad 12 11
a number that is not the next: PQ.ipdl parent: 4950443204000000ffffff7f0200000000000000feffffff0000000005000000: Bad 20 12
a new id that is not the next: POwn.ipdl parent: 4950443204000000ffffff7f0000000000000000ffffffff0000000008000000: Bad 28 13
a reply to nothing: PQ.ipdl parent: 4950443204000000ffffff7f0100000008000000010000000000000005000000: Stray 0 1
a reply to no call: PW.ipdl parent: 4950443204000000ffffff7f0700000009000000010000000100000005000000: Stray 0 1
an actor of another protocol as the route: POwn.ipdl parent: 4950443200000000ffffff7f0000010000000000ffffffff00000000: WrongActor 0 2147483647
an actor of another protocol as a value: POwn.ipdl child: 4950443204000000ffffff7f02000000000000000100000000000000ffffff7f: WrongActor 0 2147483647";
