//! Rows on calls inside calls.

/// Rows on calls inside calls, and ends that close or die under them (`rows` has their form).
pub const NESTING_ROWS: &str = "PW.ipdl 0 both call at once
parent send 2147483647 PW.CallC() = sent 1 0 +1
child send 2147483647 PW.CallP() = sent -1 0 +1
parent deliver = done +0
child deliver = done +0
parent take = nothing +0
child take = handle 1 at 2147483647 6 makes 0 +0
child close = refused InCall +0
child return (20) = done +1
parent deliver = done +0
parent resume = goes on +0
parent take = handle -1 at 2147483647 0 makes 0 +0
parent return (10) = done +1
child deliver = done +0
child resume = goes on +0
--
parent call 1/1 to 2147483647 PW.CallC()
child call -1/-1 to 2147483647 PW.CallP()
parent deliver request -1
child deliver request 1
child take 1 at 2147483647 PW.CallC()
child refused InCall close
child return 1
  answer 1 ok (20)
parent deliver reply 1
parent resume 1 ok (20)
parent take -1 at 2147483647 PW.CallP()
parent return -1
  answer -1 ok (10)
child deliver reply -1
child resume -1 ok (10)
====
PW.ipdl 0 sends that the stack refuses
child send 2147483647 PW.Base() = sent -1 0 +1
parent deliver = done +0
parent take = handle -1 at 2147483647 4 makes 0 +0
parent send 2147483647 PW.CallC() = refused NestedInNormal +0
parent return = done +1
child deliver = done +0
child resume = goes on +0
child send 2147483647 PW.Poke() = sent -2 0 +1
parent deliver = done +0
parent take = handle -2 at 2147483647 2 makes 0 +0
parent send 2147483647 PW.CallC() = refused InsideCpow +0
parent return = done +0
parent send 2147483647 PW.CallC() = sent 1 0 +1
child deliver = done +0
child take = handle 1 at 2147483647 6 makes 0 +0
child send 2147483647 PW.Base() = refused LevelTooLow +0
child return = done +1
parent deliver = done +0
parent resume = goes on +0
--
child call -1/-1 to 2147483647 PW.Base()
parent deliver request -1
parent take -1 at 2147483647 PW.Base()
parent refused NestedInNormal PW.CallC
parent return -1
  answer -1 ok ()
child deliver reply -1
child resume -1 ok ()
child send -2 to 2147483647 PW.Poke()
parent deliver request -2
parent take -2 at 2147483647 PW.Poke()
parent refused InsideCpow PW.CallC
parent return -2
parent call 1/1 to 2147483647 PW.CallC()
child deliver request 1
child take 1 at 2147483647 PW.CallC()
child refused LevelTooLow PW.Base
child return 1
  answer 1 fault HandlerRejected
parent deliver reply 1
parent resume 1 fault HandlerRejected
====
PW.ipdl 0 a death under a call
parent send 2147483647 PW.CallC() = sent 1 0 +1
child deliver = done +0
child take = handle 1 at 2147483647 6 makes 0 +0
child die = done +1
child top = empty +0
child take = nothing +0
parent next = mark +0
parent deliver = done +0
parent top = answered +0
parent resume = goes on +0
parent take = shut +0
parent die = done +0
parent state = dead +0
parent take = nothing +0
--
parent call 1/1 to 2147483647 PW.CallC()
child deliver request 1
child take 1 at 2147483647 PW.CallC()
child die
parent deliver broken
  fails 1
parent resume 1 fault ChannelClosed
parent shut AbnormalShutdown
  fall 2147483647 AbnormalShutdown
parent die
====
PW.ipdl 0 not open, and in a call
parent send 2147483647 PW.CallC() = sent 1 0 +1
child deliver = done +0
child take = handle 1 at 2147483647 6 makes 0 +0
child send 2147483647 PW.Poke() = sent -1 0 +1
parent deliver = done +0
parent take = handle -1 at 2147483647 2 makes 0 +0
child close = done +1
parent deliver = done +0
parent state = draining +0
parent close = refused Closed +0
parent send 2147483647 PW.Tell(1) = refused Closed +0
parent send 6 PW.CallC() = refused Closed +0
parent return = done +0
parent resume = goes on +0
parent take = shut +0
child return (3) = done +0
child state = closed +0
--
parent call 1/1 to 2147483647 PW.CallC()
child deliver request 1
child take 1 at 2147483647 PW.CallC()
child send -1 to 2147483647 PW.Poke()
parent deliver request -1
parent take -1 at 2147483647 PW.Poke()
child close
  fall 2147483647 NormalShutdown
parent deliver goodbye
  fails 1
parent refused Closed close
parent refused Closed PW.Tell
parent refused Closed PW.CallC
parent return -1
parent resume 1 fault ChannelClosed
parent shut NormalShutdown
  fall 2147483647 NormalShutdown
child return 1
====
PW.ipdl 0 calls inside calls as deep as they go
parent send 2147483647 PW.CallC() = sent 1 0 +1
child deliver = done +0
child take = handle 1 at 2147483647 6 makes 0 +0
child send 2147483647 PW.CallP() = sent -1 0 +1
parent deliver = done +0
parent take = handle -1 at 2147483647 0 makes 0 +0
parent send 2147483647 PW.CallC() = sent 2 0 +1
child deliver = done +0
child take = handle 2 at 2147483647 6 makes 0 +0
child send 2147483647 PW.CallP() = sent -2 0 +1
parent deliver = done +0
parent take = handle -2 at 2147483647 0 makes 0 +0
parent send 2147483647 PW.CallC() = sent 3 0 +1
child deliver = done +0
child take = handle 3 at 2147483647 6 makes 0 +0
child send 2147483647 PW.CallP() = sent -3 0 +1
parent deliver = done +0
parent take = handle -3 at 2147483647 0 makes 0 +0
parent send 2147483647 PW.CallC() = sent 4 0 +1
child deliver = done +0
child take = handle 4 at 2147483647 6 makes 0 +0
child send 2147483647 PW.CallP() = sent -4 0 +1
parent deliver = done +0
parent take = handle -4 at 2147483647 0 makes 0 +0
parent send 2147483647 PW.CallC() = sent 5 0 +1
child deliver = done +0
child take = handle 5 at 2147483647 6 makes 0 +0
child send 2147483647 PW.CallP() = sent -5 0 +1
parent deliver = done +0
parent take = handle -5 at 2147483647 0 makes 0 +0
parent send 2147483647 PW.CallC() = sent 6 0 +1
child deliver = done +0
child take = handle 6 at 2147483647 6 makes 0 +0
child send 2147483647 PW.CallP() = sent -6 0 +1
parent deliver = done +0
parent take = handle -6 at 2147483647 0 makes 0 +0
parent send 2147483647 PW.CallC() = sent 7 0 +1
child deliver = done +0
child take = handle 7 at 2147483647 6 makes 0 +0
child send 2147483647 PW.CallP() = sent -7 0 +1
parent deliver = done +0
parent take = handle -7 at 2147483647 0 makes 0 +0
parent send 2147483647 PW.CallC() = sent 8 0 +1
child deliver = done +0
child take = handle 8 at 2147483647 6 makes 0 +0
child send 2147483647 PW.CallP() = sent -8 0 +1
parent deliver = done +0
parent take = handle -8 at 2147483647 0 makes 0 +0
parent send 2147483647 PW.CallC() = sent 9 0 +1
child deliver = done +0
child take = handle 9 at 2147483647 6 makes 0 +0
child send 2147483647 PW.CallP() = sent -9 0 +1
parent deliver = done +0
parent take = handle -9 at 2147483647 0 makes 0 +0
parent send 2147483647 PW.CallC() = sent 10 0 +1
child deliver = done +0
child take = handle 10 at 2147483647 6 makes 0 +0
child send 2147483647 PW.CallP() = sent -10 0 +1
parent deliver = done +0
parent take = handle -10 at 2147483647 0 makes 0 +0
parent send 2147483647 PW.CallC() = sent 11 0 +1
child deliver = done +0
child take = handle 11 at 2147483647 6 makes 0 +0
child send 2147483647 PW.CallP() = sent -11 0 +1
parent deliver = done +0
parent take = handle -11 at 2147483647 0 makes 0 +0
parent send 2147483647 PW.CallC() = sent 12 0 +1
child deliver = done +0
child take = handle 12 at 2147483647 6 makes 0 +0
child send 2147483647 PW.CallP() = sent -12 0 +1
parent deliver = done +0
parent take = handle -12 at 2147483647 0 makes 0 +0
parent send 2147483647 PW.CallC() = sent 13 0 +1
child deliver = done +0
child take = handle 13 at 2147483647 6 makes 0 +0
child send 2147483647 PW.CallP() = sent -13 0 +1
parent deliver = done +0
parent take = handle -13 at 2147483647 0 makes 0 +0
parent send 2147483647 PW.CallC() = sent 14 0 +1
child deliver = done +0
child take = handle 14 at 2147483647 6 makes 0 +0
child send 2147483647 PW.CallP() = sent -14 0 +1
parent deliver = done +0
parent take = handle -14 at 2147483647 0 makes 0 +0
parent send 2147483647 PW.CallC() = sent 15 0 +1
child deliver = done +0
child take = handle 15 at 2147483647 6 makes 0 +0
child send 2147483647 PW.CallP() = sent -15 0 +1
parent deliver = done +0
parent take = handle -15 at 2147483647 0 makes 0 +0
parent send 2147483647 PW.CallC() = sent 16 0 +1
child deliver = done +0
child take = handle 16 at 2147483647 6 makes 0 +0
child send 2147483647 PW.CallP() = sent -16 0 +1
parent deliver = done +0
parent take = handle -16 at 2147483647 0 makes 0 +0
parent send 2147483647 PW.CallC() = sent 17 0 +1
child deliver = done +0
child take = handle 17 at 2147483647 6 makes 0 +0
child send 2147483647 PW.CallP() = sent -17 0 +1
parent deliver = done +0
parent take = handle -17 at 2147483647 0 makes 0 +0
parent send 2147483647 PW.CallC() = sent 18 0 +1
child deliver = done +0
child take = handle 18 at 2147483647 6 makes 0 +0
child send 2147483647 PW.CallP() = sent -18 0 +1
parent deliver = done +0
parent take = handle -18 at 2147483647 0 makes 0 +0
parent send 2147483647 PW.CallC() = sent 19 0 +1
child deliver = done +0
child take = handle 19 at 2147483647 6 makes 0 +0
child send 2147483647 PW.CallP() = sent -19 0 +1
parent deliver = done +0
parent take = handle -19 at 2147483647 0 makes 0 +0
parent send 2147483647 PW.CallC() = sent 20 0 +1
child deliver = done +0
child take = handle 20 at 2147483647 6 makes 0 +0
child send 2147483647 PW.CallP() = sent -20 0 +1
parent deliver = done +0
parent take = handle -20 at 2147483647 0 makes 0 +0
parent send 2147483647 PW.CallC() = sent 21 0 +1
child deliver = done +0
child take = handle 21 at 2147483647 6 makes 0 +0
child send 2147483647 PW.CallP() = sent -21 0 +1
parent deliver = done +0
parent take = handle -21 at 2147483647 0 makes 0 +0
parent send 2147483647 PW.CallC() = sent 22 0 +1
child deliver = done +0
child take = handle 22 at 2147483647 6 makes 0 +0
child send 2147483647 PW.CallP() = sent -22 0 +1
parent deliver = done +0
parent take = handle -22 at 2147483647 0 makes 0 +0
parent send 2147483647 PW.CallC() = sent 23 0 +1
child deliver = done +0
child take = handle 23 at 2147483647 6 makes 0 +0
child send 2147483647 PW.CallP() = sent -23 0 +1
parent deliver = done +0
parent take = handle -23 at 2147483647 0 makes 0 +0
parent send 2147483647 PW.CallC() = sent 24 0 +1
child deliver = done +0
child take = handle 24 at 2147483647 6 makes 0 +0
child send 2147483647 PW.CallP() = sent -24 0 +1
parent deliver = done +0
parent take = handle -24 at 2147483647 0 makes 0 +0
parent send 2147483647 PW.CallC() = sent 25 0 +1
child deliver = done +0
child take = handle 25 at 2147483647 6 makes 0 +0
child send 2147483647 PW.CallP() = sent -25 0 +1
parent deliver = done +0
parent take = handle -25 at 2147483647 0 makes 0 +0
parent send 2147483647 PW.CallC() = sent 26 0 +1
child deliver = done +0
child take = handle 26 at 2147483647 6 makes 0 +0
child send 2147483647 PW.CallP() = sent -26 0 +1
parent deliver = done +0
parent take = handle -26 at 2147483647 0 makes 0 +0
parent send 2147483647 PW.CallC() = sent 27 0 +1
child deliver = done +0
child take = handle 27 at 2147483647 6 makes 0 +0
child send 2147483647 PW.CallP() = sent -27 0 +1
parent deliver = done +0
parent take = handle -27 at 2147483647 0 makes 0 +0
parent send 2147483647 PW.CallC() = sent 28 0 +1
child deliver = done +0
child take = handle 28 at 2147483647 6 makes 0 +0
child send 2147483647 PW.CallP() = sent -28 0 +1
parent deliver = done +0
parent take = handle -28 at 2147483647 0 makes 0 +0
parent send 2147483647 PW.CallC() = sent 29 0 +1
child deliver = done +0
child take = handle 29 at 2147483647 6 makes 0 +0
child send 2147483647 PW.CallP() = sent -29 0 +1
parent deliver = done +0
parent take = handle -29 at 2147483647 0 makes 0 +0
parent send 2147483647 PW.CallC() = sent 30 0 +1
child deliver = done +0
child take = handle 30 at 2147483647 6 makes 0 +0
child send 2147483647 PW.CallP() = sent -30 0 +1
parent deliver = done +0
parent take = handle -30 at 2147483647 0 makes 0 +0
parent send 2147483647 PW.CallC() = sent 31 0 +1
child deliver = done +0
child take = handle 31 at 2147483647 6 makes 0 +0
child send 2147483647 PW.CallP() = sent -31 0 +1
parent deliver = done +0
parent take = handle -31 at 2147483647 0 makes 0 +0
parent send 2147483647 PW.CallC() = sent 32 0 +1
child deliver = done +0
child take = handle 32 at 2147483647 6 makes 0 +0
child send 2147483647 PW.CallP() = refused TooDeep +0
--
parent call 1/1 to 2147483647 PW.CallC()
child deliver request 1
child take 1 at 2147483647 PW.CallC()
child call -1/1 to 2147483647 PW.CallP()
parent deliver request -1
parent take -1 at 2147483647 PW.CallP()
parent call 2/1 to 2147483647 PW.CallC()
child deliver request 2
child take 2 at 2147483647 PW.CallC()
child call -2/1 to 2147483647 PW.CallP()
parent deliver request -2
parent take -2 at 2147483647 PW.CallP()
parent call 3/1 to 2147483647 PW.CallC()
child deliver request 3
child take 3 at 2147483647 PW.CallC()
child call -3/1 to 2147483647 PW.CallP()
parent deliver request -3
parent take -3 at 2147483647 PW.CallP()
parent call 4/1 to 2147483647 PW.CallC()
child deliver request 4
child take 4 at 2147483647 PW.CallC()
child call -4/1 to 2147483647 PW.CallP()
parent deliver request -4
parent take -4 at 2147483647 PW.CallP()
parent call 5/1 to 2147483647 PW.CallC()
child deliver request 5
child take 5 at 2147483647 PW.CallC()
child call -5/1 to 2147483647 PW.CallP()
parent deliver request -5
parent take -5 at 2147483647 PW.CallP()
parent call 6/1 to 2147483647 PW.CallC()
child deliver request 6
child take 6 at 2147483647 PW.CallC()
child call -6/1 to 2147483647 PW.CallP()
parent deliver request -6
parent take -6 at 2147483647 PW.CallP()
parent call 7/1 to 2147483647 PW.CallC()
child deliver request 7
child take 7 at 2147483647 PW.CallC()
child call -7/1 to 2147483647 PW.CallP()
parent deliver request -7
parent take -7 at 2147483647 PW.CallP()
parent call 8/1 to 2147483647 PW.CallC()
child deliver request 8
child take 8 at 2147483647 PW.CallC()
child call -8/1 to 2147483647 PW.CallP()
parent deliver request -8
parent take -8 at 2147483647 PW.CallP()
parent call 9/1 to 2147483647 PW.CallC()
child deliver request 9
child take 9 at 2147483647 PW.CallC()
child call -9/1 to 2147483647 PW.CallP()
parent deliver request -9
parent take -9 at 2147483647 PW.CallP()
parent call 10/1 to 2147483647 PW.CallC()
child deliver request 10
child take 10 at 2147483647 PW.CallC()
child call -10/1 to 2147483647 PW.CallP()
parent deliver request -10
parent take -10 at 2147483647 PW.CallP()
parent call 11/1 to 2147483647 PW.CallC()
child deliver request 11
child take 11 at 2147483647 PW.CallC()
child call -11/1 to 2147483647 PW.CallP()
parent deliver request -11
parent take -11 at 2147483647 PW.CallP()
parent call 12/1 to 2147483647 PW.CallC()
child deliver request 12
child take 12 at 2147483647 PW.CallC()
child call -12/1 to 2147483647 PW.CallP()
parent deliver request -12
parent take -12 at 2147483647 PW.CallP()
parent call 13/1 to 2147483647 PW.CallC()
child deliver request 13
child take 13 at 2147483647 PW.CallC()
child call -13/1 to 2147483647 PW.CallP()
parent deliver request -13
parent take -13 at 2147483647 PW.CallP()
parent call 14/1 to 2147483647 PW.CallC()
child deliver request 14
child take 14 at 2147483647 PW.CallC()
child call -14/1 to 2147483647 PW.CallP()
parent deliver request -14
parent take -14 at 2147483647 PW.CallP()
parent call 15/1 to 2147483647 PW.CallC()
child deliver request 15
child take 15 at 2147483647 PW.CallC()
child call -15/1 to 2147483647 PW.CallP()
parent deliver request -15
parent take -15 at 2147483647 PW.CallP()
parent call 16/1 to 2147483647 PW.CallC()
child deliver request 16
child take 16 at 2147483647 PW.CallC()
child call -16/1 to 2147483647 PW.CallP()
parent deliver request -16
parent take -16 at 2147483647 PW.CallP()
parent call 17/1 to 2147483647 PW.CallC()
child deliver request 17
child take 17 at 2147483647 PW.CallC()
child call -17/1 to 2147483647 PW.CallP()
parent deliver request -17
parent take -17 at 2147483647 PW.CallP()
parent call 18/1 to 2147483647 PW.CallC()
child deliver request 18
child take 18 at 2147483647 PW.CallC()
child call -18/1 to 2147483647 PW.CallP()
parent deliver request -18
parent take -18 at 2147483647 PW.CallP()
parent call 19/1 to 2147483647 PW.CallC()
child deliver request 19
child take 19 at 2147483647 PW.CallC()
child call -19/1 to 2147483647 PW.CallP()
parent deliver request -19
parent take -19 at 2147483647 PW.CallP()
parent call 20/1 to 2147483647 PW.CallC()
child deliver request 20
child take 20 at 2147483647 PW.CallC()
child call -20/1 to 2147483647 PW.CallP()
parent deliver request -20
parent take -20 at 2147483647 PW.CallP()
parent call 21/1 to 2147483647 PW.CallC()
child deliver request 21
child take 21 at 2147483647 PW.CallC()
child call -21/1 to 2147483647 PW.CallP()
parent deliver request -21
parent take -21 at 2147483647 PW.CallP()
parent call 22/1 to 2147483647 PW.CallC()
child deliver request 22
child take 22 at 2147483647 PW.CallC()
child call -22/1 to 2147483647 PW.CallP()
parent deliver request -22
parent take -22 at 2147483647 PW.CallP()
parent call 23/1 to 2147483647 PW.CallC()
child deliver request 23
child take 23 at 2147483647 PW.CallC()
child call -23/1 to 2147483647 PW.CallP()
parent deliver request -23
parent take -23 at 2147483647 PW.CallP()
parent call 24/1 to 2147483647 PW.CallC()
child deliver request 24
child take 24 at 2147483647 PW.CallC()
child call -24/1 to 2147483647 PW.CallP()
parent deliver request -24
parent take -24 at 2147483647 PW.CallP()
parent call 25/1 to 2147483647 PW.CallC()
child deliver request 25
child take 25 at 2147483647 PW.CallC()
child call -25/1 to 2147483647 PW.CallP()
parent deliver request -25
parent take -25 at 2147483647 PW.CallP()
parent call 26/1 to 2147483647 PW.CallC()
child deliver request 26
child take 26 at 2147483647 PW.CallC()
child call -26/1 to 2147483647 PW.CallP()
parent deliver request -26
parent take -26 at 2147483647 PW.CallP()
parent call 27/1 to 2147483647 PW.CallC()
child deliver request 27
child take 27 at 2147483647 PW.CallC()
child call -27/1 to 2147483647 PW.CallP()
parent deliver request -27
parent take -27 at 2147483647 PW.CallP()
parent call 28/1 to 2147483647 PW.CallC()
child deliver request 28
child take 28 at 2147483647 PW.CallC()
child call -28/1 to 2147483647 PW.CallP()
parent deliver request -28
parent take -28 at 2147483647 PW.CallP()
parent call 29/1 to 2147483647 PW.CallC()
child deliver request 29
child take 29 at 2147483647 PW.CallC()
child call -29/1 to 2147483647 PW.CallP()
parent deliver request -29
parent take -29 at 2147483647 PW.CallP()
parent call 30/1 to 2147483647 PW.CallC()
child deliver request 30
child take 30 at 2147483647 PW.CallC()
child call -30/1 to 2147483647 PW.CallP()
parent deliver request -30
parent take -30 at 2147483647 PW.CallP()
parent call 31/1 to 2147483647 PW.CallC()
child deliver request 31
child take 31 at 2147483647 PW.CallC()
child call -31/1 to 2147483647 PW.CallP()
parent deliver request -31
parent take -31 at 2147483647 PW.CallP()
parent call 32/1 to 2147483647 PW.CallC()
child deliver request 32
child take 32 at 2147483647 PW.CallC()
child refused TooDeep PW.CallP
";

/// The number of rows.
pub const NESTING_COUNT: &str = "5";
