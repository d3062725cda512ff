//! Histories with the marks of their rows.

/// Each row: its name and the file of its protocol; lines; and after `----` the marks of all its rows in their order, worked out
/// by hand. A line between two points is its class and its points, with `head` if it is an arrow that arrives; a bar is its
/// class, its place and its height. `====` is between two rows.
pub const MARKS: &str = "async-send PQ.ipdl
child send -1 to 2147483647 PQ.Tell(1)
parent deliver request -1
parent take -1 at 2147483647 PQ.Tell(1)
parent return -1
----
request M793 70L607 90 head
item M618 90L618 110
dispatch 595 110 20
====
never-delivered PQ.ipdl
parent send 1 to 2147483647 PQ.Get()
parent close
----
request M607 70L793 110
farewell M607 90L793 110
====
promise PQ.ipdl
parent send 1 to 2147483647 PQ.Get()
child deliver request 1
child take 1 at 2147483647 PQ.Get()
child resolve 1 (5)
parent deliver reply 1
child return 1
parent take reply 1
  settle 1 resolved (5)
----
request M607 70L793 90 head
item M782 90L782 110
dispatch 795 110 60
reply M793 130L607 150 head
item M618 150L618 190
====
rejected PQ.ipdl
child reject 1
parent deliver reply 1
----
reply M793 70L607 90 head
item M618 90L618 110
====
both-call-at-once PW.ipdl
parent call 1/1 to 2147483647 PW.CallC()
child call -1/-1 to 2147483647 PW.CallP()
parent deliver request -1
child deliver request 1
child take 1 at 2147483647 PW.CallC()
child return 1
  answer 1 ok (20)
parent deliver reply 1
parent resume 1 ok (20)
parent take -1 at 2147483647 PW.CallP()
parent return -1
  answer -1 ok (10)
child deliver reply -1
child resume -1 ok (10)
----
wait 595 70 160
request M607 70L793 130 head
wait 795 90 240
request M793 90L607 110 head
item M618 110L618 250
item M782 130L782 150
dispatch 800 150 20
reply M793 190L607 210 head
item M622 210L622 230
dispatch 595 250 20
reply M607 290L793 310 head
item M778 310L778 330
====
death-in-a-handler PW.ipdl
parent call 1/1 to 2147483647 PW.CallC()
child deliver request 1
child take 1 at 2147483647 PW.CallC()
child die
parent deliver broken
  fails 1
parent resume 1 fault ChannelClosed
parent shut AbnormalShutdown
  fall 2147483647 AbnormalShutdown
----
wait 595 70 120
request M607 70L793 90 head
item M782 90L782 110
dispatch 795 110 20
farewell M793 130L607 150 head
fall M594 224L606 236
fall M594 236L606 224
====
close PQ.ipdl
parent close
  fall 2147483647 NormalShutdown
child deliver goodbye
child shut NormalShutdown
  fall 2147483647 NormalShutdown
----
farewell M607 70L793 110 head
fall M594 84L606 96
fall M594 96L606 84
fall M794 144L806 156
fall M794 156L806 144
====
lazy-sends PLz.ipdl
child send -1 to 2147483647 PLz.Lz(1)
child send -2 to 2147483647 PLz.Lz(2)
child send -3 to 2147483647 PLz.Now()
parent deliver request -1
child send -4 to 2147483647 PLz.Lz(3)
parent take -1 at 2147483647 PLz.Lz(1)
child flush 1
parent return -1
parent deliver request -2
----
outbox M789 70L789 110
request M793 110L607 130 head
outbox M789 90L789 110
request M793 110L607 230 head
request M793 110L607 250
item M618 130L618 170
outbox M789 150L789 190
request M793 190L607 250
dispatch 595 170 40
item M622 230L622 250
====
lazy-send-that-stays PLz.ipdl
child send -1 to 2147483647 PLz.Lz(1)
----
outbox M789 70L789 90
====
close-and-then-death PQ.ipdl
parent close
parent die
child deliver goodbye
----
farewell M607 70L793 110 head
====
death-after-a-goodbye PQ.ipdl
child close
parent deliver goodbye
parent die
----
farewell M793 70L607 90 head
====
close-after-a-death PQ.ipdl
parent die
child deliver broken
child close
----
farewell M607 70L793 90 head
====
farewells-that-cross PQ.ipdl
parent close
child die
parent deliver broken
child deliver goodbye
----
farewell M607 70L793 130 head
farewell M793 90L607 110 head
====
lazy-send-that-a-goodbye-drops PLz.ipdl
child send -1 to 2147483647 PLz.Lz(1)
parent close
child deliver goodbye
child die
----
outbox M789 70L789 130
farewell M607 90L793 110 head
====
lazy-send-that-a-death-drops PLz.ipdl
child send -1 to 2147483647 PLz.Lz(1)
parent die
child deliver broken
child flush 1
----
outbox M789 70L789 150
farewell M607 90L793 110 head
====
lazy-send-before-a-close PLz.ipdl
child send -1 to 2147483647 PLz.Lz(1)
child close
parent deliver request -1
parent deliver goodbye
----
outbox M789 70L789 90
request M793 90L607 110 head
farewell M793 90L607 130 head
item M618 110L618 150
====
lazy-send-and-a-death-at-the-other-side PLz.ipdl
child send -1 to 2147483647 PLz.Lz(1)
parent deliver broken
child flush 1
parent deliver request -1
----
outbox M789 70L789 110
request M793 110L607 130 head
item M618 130L618 150
====
replaced PC.ipdl
child send -1 to 2147483647 PC.Up(1)
child send -2 to 2147483647 PC.Up(2)
parent deliver request -1
parent deliver request -2
  replaced -1
----
request M793 70L607 110 head
request M793 90L607 130 head
item M618 110L618 150
item M622 130L622 170
====
dropped POwn.ipdl
parent send 1 to 4 PTmp.Hi()
child deliver request 1
child drop 1 at 4 PTmp.Hi for 4
----
request M607 70L793 90 head
item M782 90L782 110
====
nine-items-that-nobody-sent PQ.ipdl
parent deliver request -1
parent deliver request -2
parent deliver request -3
parent deliver request -4
parent deliver request -5
parent deliver request -6
parent deliver request -7
parent deliver request -8
parent deliver request -9
----
item M618 70L618 250
item M622 90L622 250
item M626 110L626 250
item M630 130L630 250
item M634 150L634 250
item M638 170L638 250
item M642 190L642 250
item M646 210L646 250
item M618 230L618 250
====
eleven-handlers PQ.ipdl
parent take -1 at 2147483647 PQ.Tell(1)
parent take -2 at 2147483647 PQ.Tell(1)
parent take -3 at 2147483647 PQ.Tell(1)
parent take -4 at 2147483647 PQ.Tell(1)
parent take -5 at 2147483647 PQ.Tell(1)
parent take -6 at 2147483647 PQ.Tell(1)
parent take -7 at 2147483647 PQ.Tell(1)
parent take -8 at 2147483647 PQ.Tell(1)
parent take -9 at 2147483647 PQ.Tell(1)
parent take -10 at 2147483647 PQ.Tell(1)
parent take -11 at 2147483647 PQ.Tell(1)
----
dispatch 595 70 220
dispatch 590 90 200
dispatch 585 110 180
dispatch 580 130 160
dispatch 575 150 140
dispatch 570 170 120
dispatch 565 190 100
dispatch 560 210 80
dispatch 555 230 60
dispatch 550 250 40
dispatch 550 270 20
";

/// The number of rows.
pub const MARKS_COUNT: &str = "21";
