//! Rows of calls of `feed`.

/// Calls of the command that runs one end on a file of bytes, in the form of `call_rows`: the worked
/// ones by name, and others. Each also has `IDLE`, after its own files.
pub const FEEDS: &str = "feed-settles
feed --side parent get.ids PQ.ipdl f.bin
0
@ parent send 1 to 2147483647 PQ.Get()
parent deliver reply 1
parent take reply 1
  settle 1 resolved (5)
parent deliver broken
parent shut AbnormalShutdown
  fall 2147483647 AbnormalShutdown
finished
@ @ PQ.ipdl
protocol PQ { both: async Get() returns (int32_t r); parent: async Tell(int32_t n); };
@ get.ids
parent main
send top PQ.Get()
end
@ f.bin
hex 4950443204000000ffffff7f0100000008000000010000000000000005000000
====
feed-stray
feed --side parent get.ids PQ.ipdl f.bin
8
@ parent send 1 to 2147483647 PQ.Get()
parent deliver broken
parent shut AbnormalShutdown
  settle 1 rejected ChannelClosed
  fall 2147483647 AbnormalShutdown
finished
@ f.bin:0: stray 2
@ PQ.ipdl
protocol PQ { both: async Get() returns (int32_t r); parent: async Tell(int32_t n); };
@ get.ids
parent main
send top PQ.Get()
end
@ f.bin
hex 4950443204000000ffffff7f0100000008000000020000000000000005000000
====
feed-wrong-number
feed --side parent idle.ids PF.ipdl f.bin
8
@ parent deliver request -1
parent take -1 at 2147483647 PF.Flag(true)
parent return -1
parent deliver broken
parent shut AbnormalShutdown
  fall 2147483647 AbnormalShutdown
finished
@ f.bin:52: F12 wrong number
@ f.bin
hex 4950443204000000ffffff7f0000000000000000ffffffff00000000010000004950443204000000ffffff7f0000000000000000ffffffff0000000001000000
====
the other side gets what only it may send
feed --side child idle.ids PF.ipdl f.bin
8
@ child deliver broken
child shut AbnormalShutdown
  fall 2147483647 AbnormalShutdown
finished
@ f.bin:12: F11 wrong direction
@ f.bin
hex 4950443204000000ffffff7f0000000000000000ffffffff0000000001000000
====
a frame that is cut off
feed --side parent idle.ids PF.ipdl f.bin
8
@ parent deliver broken
parent shut AbnormalShutdown
  fall 2147483647 AbnormalShutdown
finished
@ f.bin:0: short 20
@ f.bin
hex 4950443204000000
====
no bytes
feed --side parent idle.ids PF.ipdl f.bin
0
@ parent deliver broken
parent shut AbnormalShutdown
  fall 2147483647 AbnormalShutdown
finished
@ @ f.bin
====
spent behind a delivery
feed --limit 1 --side parent idle.ids PF.ipdl f.bin
5
@ parent deliver request -1
spent parent
@ @ f.bin
hex 4950443204000000ffffff7f0000000000000000ffffffff0000000001000000
====
spent behind the mark, with the fault
feed --limit 1 --side child idle.ids PF.ipdl f.bin
5
@ child deliver broken
spent child
@ f.bin:12: F11 wrong direction
@ f.bin
hex 4950443204000000ffffff7f0000000000000000ffffffff0000000001000000
====
spent before a fault is seen
feed --limit 3 --side parent idle.ids PF.ipdl f.bin
5
@ parent deliver request -1
parent take -1 at 2147483647 PF.Flag(true)
parent return -1
spent parent
@ @ f.bin
hex 4950443204000000ffffff7f0000000000000000ffffffff00000000010000004950443204000000ffffff7f0000000000000000ffffffff0000000001000000
====
no file of frames
feed --side parent idle.ids PF.ipdl none.bin
8
@ @ none.bin:0: absent
====
a bad script comes before the frames
feed --side parent bad.ids PF.ipdl none.bin
7
@ @ bad.ids:1:1: K1 not a statement
@ bad.ids
nonsense
====
no script
feed --side parent none.ids PF.ipdl none.bin
7
@ @ none.ids:0:0: K9 script too large or absent
====
the report comes before the script
feed --side parent none.ids PF.ipdl none.bin
1
@ @ PF.ipdl:3:14: B1 unknown type
@ PF.ipdl
protocol PF {
parent:
  async Flag(Bool b);
};
====
no side
feed idle.ids PF.ipdl f.bin
2
@ @ usage
";

/// A script that does nothing, and a program of one message.
pub const IDLE: &str = "@ idle.ids
@ PF.ipdl
protocol PF {
parent:
  async Flag(bool b);
};
";
