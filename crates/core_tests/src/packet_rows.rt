//! Rows on packets of any bytes.

/// Rows on packets of any bytes, and frames (`rows` has their form).
pub const PACKET_ROWS: &str = "PQ.ipdl 0 bytes that are no packet of the other end
parent bytes = bad 0 10 +0
parent bytes 00000000 = bad 4 10 +0
parent bytes 00000000000000000000000000000000000000000000000000000000 = bad 0 15 +0
parent bytes 4950443200000000ffffff7f6300000000000000ffffffff00000000 = bad 12 2 +0
parent bytes 4950443200000000ffffff7f0000000001000000ffffffff00000000 = bad 16 3 +0
parent bytes 4950443200000000000000000000000000000000ffffffff00000000 = bad 8 4 +0
parent bytes 4950443204000000ffffff7f0000000000000000ffffffff0000000007000000 = bad 28 8 +0
parent bytes 4950443200000000ffffff7f0000000000000000feffffff00000000 = bad 20 12 +0
parent bytes 4950443200000000ffffff7f00000000000000000100000000000000 = bad 20 12 +0
parent bytes 4950443200000000ffffff7f0000000000000000ffffffff0000000000 = bad 28 10 +0
parent bytes 4950443200000000ffffff7f0000000000000000ffffffff00000000 = done +0
parent bytes 4950443200000000ffffff7f0000000000000000ffffffff00000000 = bad 20 12 +0
child bytes 4950443204000000ffffff7f0200000000000000010000000000000007000000 = bad 12 11 +0
child bytes 4950443204000000ffffff7f0100000008000000ffffffff0000000007000000 = stray -1 +0
child send 2147483647 PQ.Get() = sent -1 0 +1
child bytes 4950443204000000ffffff7f0100000008000000feffffff0000000007000000 = stray -2 +0
child bytes 4950443204000000ffffff7f0100000008000000ffffffff0000000007000000 = done +0
child bytes 4950443204000000ffffff7f0100000008000000ffffffff0000000008000000 = done +0
child take = settled +0
child take = settled +0
child bytes 4950443200000000000000000000ffff000000000000000000000000 = done +0
child state = draining +0
parent counts = 0 1 +0
--
parent deliver request -1
child send -1 to 2147483647 PQ.Get()
child deliver reply -1
child deliver reply -1
child take reply -1
  settle -1 resolved (7)
child take reply -1
child deliver goodbye
====
PR.ipdl 1 actors of other protocols, and ids that are not next
parent bytes 4950443200000000ffffff7f0200000000000000ffffffff00000000 = wrong actor 2147483647 2 +0
parent bytes 4950443204000000ffffff7f0000010000000000ffffffff0000000008000000 = bad 28 13 +0
parent bytes 4950443204000000ffffff7f0000010000000000ffffffff0000000004000000 = done +0
parent bytes 4950443204000000040000000000010000000000feffffff0000000008000000 = done +0
parent take = handle -1 at 2147483647 65536 makes 4 +0
parent return = done +0
parent take = dropped +0
parent bytes 4950443204000000040000000000010000000000fdffffff000000000c000000 = wrong actor 4 65536 +0
parent lives 4 = 0 +0
parent lives 8 = no +0
--
parent deliver request -1
parent deliver request -2
parent take -1 at 2147483647 PR.PK()
  built 4 PK
parent return -1
parent drop -2 at 4 PR.PK for 4
====
PW.ipdl 0 replies to calls
parent bytes 4950443204000000ffffff7f0700000009000000010000000100000007000000 = stray 1 +0
parent send 2147483647 PW.CallC() = sent 1 0 +1
parent bytes 4950443204000000ffffff7f0700000009000000020000000200000007000000 = stray 2 +0
parent bytes 4950443204000000060000000700000009000000010000000100000007000000 = stray 1 +0
parent bytes 4950443204000000ffffff7f0700000009000000010000000500000007000000 = done +0
parent bytes 4950443204000000ffffff7f0700000009000000010000000100000007000000 = stray 1 +0
parent resume = goes on +0
--
parent call 1/1 to 2147483647 PW.CallC()
parent deliver reply 1
parent resume 1 ok (7)
====
PQ.ipdl 0 the frames of packets
child send 2147483647 PQ.Get() = sent -1 0 +1
parent next = 4950443200000000ffffff7f0000000000000000ffffffff00000000 +0
parent deliver = done +0
parent take = handle -1 at 2147483647 0 makes 0 resolver +0
parent resolve -1 (5) = sent +1
child next = 4950443204000000ffffff7f0100000008000000ffffffff0000000005000000 +0
child deliver = done +0
child send 2147483647 PQ.Tell(-2) = sent -2 0 +1
parent next = 4950443204000000ffffff7f0200000000000000feffffff00000000feffffff +0
parent deliver = done +0
parent return = done +0
child send 2147483647 PQ.Get() = sent -3 0 +1
parent deliver = done +0
parent take = handle -2 at 2147483647 2 makes 0 +0
parent return = done +0
parent take = handle -3 at 2147483647 0 makes 0 resolver +0
parent reject -3 = sent +1
child next = 4950443204000000ffffff7f0100000018000000fdffffff0000000003000000 +0
child deliver = done +0
child close = done +1
parent next = 4950443200000000000000000000ffff000000000000000000000000 +0
--
child send -1 to 2147483647 PQ.Get()
parent deliver request -1
parent take -1 at 2147483647 PQ.Get()
parent resolve -1 (5)
child deliver reply -1
child send -2 to 2147483647 PQ.Tell(-2)
parent deliver request -2
parent return -1
child send -3 to 2147483647 PQ.Get()
parent deliver request -3
parent take -2 at 2147483647 PQ.Tell(-2)
parent return -2
parent take -3 at 2147483647 PQ.Get()
parent reject -3
child deliver reply -3
child close
  settle -1 rejected ChannelClosed
  settle -3 rejected ChannelClosed
  fall 2147483647 NormalShutdown
";

/// The number of rows.
pub const PACKET_COUNT: &str = "4";
