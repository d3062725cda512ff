//! Rows on messages.

/// Scripts in the form of `line_rows`, with the rules on messages that they break: whether they exist,
/// who sends and receives them, and whether they are carried.
pub const MESSAGES: &str = "PT: Protocols and messages that are not there
parent main
K3> send top PT.Gone()
K3> send top PT.tell(1)
K3> send top pt.Tell(1)
K3> send top PZ.Tell(1)
K3> send top PX.Tell(1)
K3> send top PK.Tell(1)
K3> send top PK.Gone(1)
K3> send top x.Hi()
K3> send top y.PX()
K3> send top Pair.a(1)
K3> send top Either.x()
K3> send top int32_t.x()
K3> send top Handle.x()
K3> new n top PT.Gone()
K3> new n top PK.PK()
K3> resolve k PT.Gone ()
K3> reject k PZ.Gone
end
====
PT: Blocks of messages that are not there
K3> parent on PT.Gone
end
K3> child on PZ.Any
end
K3> child on PX.Any
end
====
PT: A protocol in namespaces is found by its short name
child main
send top PX.Hi()
end
child on PX.Hi
end
parent on PX.Hi
send top PX.Hi()
end
K1> parent on x::y::PX.Hi
K1> parent on x.y.PX.Hi
====
PT: A message that is not there is tested for nothing else
parent main
K3> send $1 PT.Gone($2, this, made, \"x\")
K3> new n this PT.Gone(made)
K3> resolve k PZ.Gone ($1)
K3> send made PZ.Tell(1)
end
parent on PT.Flag
K3> send $9 PT.Gone($0)
K3> send $1 PX.Shared(made)
K3> reject k PT.Gone
end
====
PT: In the block of a message that is not there nothing is tested but structure and names
K3> parent on PT.Gone
send top PT.Flag(1)
send $9 PT.Shared($7)
new n made PT.Tell(this)
resolve (1)
resolve (2)
return (3)
keep k
K3> send top PT.Gone()
K1> frob
end
K2> end
====
PT: The block of a message that is not there is a block
K3> child on PT.Gone
K2> parent main
K4> send top PT.Flag(true)
K2 K3> child on PZ.Gone
send top PT.Tell($1)
end
K2 K3> parent on PT.Gone
K3> send top PT.Gone()
====
PT: A block that opens in such a block is tested for itself
K3> parent on PT.Gone
K2 K4 K7> child on PT.Shares
send top PT.Flag(true)
K5> send top PT.Flag(1)
end
====
PT: A main behind the block of a message that is not there
K3> parent on PZ.Gone
end
parent main
K4> send top PT.Flag(true)
end
K2> send top PT.Tell(1)
====
PT: A statement of a message that is not there follows a return
child on PT.Call
K6> return (1)
K3> send top PT.Gone()
end
====
PT: Each side sends what the other receives
parent main
send top PT.Tell(1)
send top PT.Any(1)
send top PT.Call(1)
new n top PT.PK(1)
send n PK.Note(1)
K4> send top PT.Flag(true)
K4> send top PT.Plain()
K4> send n PK.__delete__()
K4> new s top PT.PS()
end
child main
send top PT.Flag(true)
send top PT.Any(1)
send top PT.Plain()
new n top PT.PK(1)
new s top PT.PS()
send n PK.__delete__()
send n PK.Note(1)
K4> send top PT.Tell(1)
K4> send top PT.Call(1)
end
====
PT: In a handler its side sends
parent on PT.Flag
send top PT.Tell(1)
K4> send top PT.Flag($1)
end
child on PT.Tell
K4> send top PT.Tell($1)
send top PT.Any($1)
end
====
PT: Each side handles what it receives
parent on PT.Flag
end
parent on PT.Any
end
parent on PK.__delete__
end
parent on PT.PS
end
child on PT.Tell
end
child on PT.Any
end
child on PT.PK
end
K4> parent on PT.Tell
end
K4> parent on PT.Call
return (1)
end
K4> child on PT.Flag
end
K4> child on PT.PS
return (true)
end
K4> child on PK.__delete__
end
====
PT: A block for a message that its side does not receive is a block like others
K4> child on PT.Get
send top PT.Flag(true)
K4> send top PT.Tell($1)
K5> resolve (\"x\")
K6> resolve ($1)
end
====
PT: Named answers go either way
parent main
resolve k PT.Get (1)
resolve k PT.Want (null)
reject k PT.Get
reject k PT.Want
resolve k PT.Ping (true)
end
child main
resolve k PT.Get (1)
resolve k PT.Want (x)
reject k PT.Get
reject k PT.Want
resolve k PT.Ping (false)
end
parent on PT.Flag
resolve k PT.Want (top)
end
child on PT.Tell
reject k PT.Want
resolve k PT.Get ($1)
end
====
PT: One line may break four rules
parent main
K4 K5 K6 K7> new n this PT.Shared(1)
K4 K5 K7> send top PT.Shared(h\"\")
K4 K7> send top PT.Shares([])
K4 K6 K7> send this PT.Shares([])
K4 K5> send top PT.Flag(1)
K4 K6> new n top PT.None()
end
K4 K7> child on PT.Shared
end
K2 K4 K7> child on PT.Lent
====
PT: Messages that are not carried
child main
K5 K7> send top PT.Shared(h\"00\")
K7> send top PT.Shares([])
K5 K7> send top PT.Shares([h\"00\"])
K7> send top PT.Wraps([])
K5 K7> send top PT.Wraps([{1}])
K7> send top PT.Hand()
K7> new u top PT.PU()
K5 K7> send top PT.Lent(x)
end
parent main
K7> send top PT.Down([])
end
====
PT: Blocks of messages that are not carried
K7> parent on PT.Shares
K5> send top PT.Tell($1)
send top PT.Tell(1)
K7> send top PT.Down($1)
end
K7> parent on PT.Hand
K5> resolve (h\"00\")
end
K7> parent on PT.Lent
resolve (true)
end
K7> parent on PT.PU
send made PT.Tell(1)
K5> return (h\"\")
end
K7> child on PT.Down
end
====
PT: Named answers of messages that are not carried
parent main
resolve k PT.Lent (true)
K5> resolve k PT.Hand (h\"00\")
reject k PT.Lent
reject k PT.Hand
end
";
