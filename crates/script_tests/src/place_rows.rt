//! Rows on what is allowed where.

/// Scripts in the form of `line_rows`. Some have statements that are not allowed where they are.
pub const PLACES: &str = "PT: A main handles no message
parent main
K6> let x this
K6> let x made
K6> send this PT.Tell(1)
K6> send made PK.Note(1)
K6> send top PT.Give(this)
K6> send top PT.Give(made)
K6> send top PT.GiveAll([x, made])
K6> new n this PT.PK(1)
K6> resolve k PT.Want (this)
K6> resolve (made)
K6> return (this)
end
====
PT: What a constructor built is in its handler alone
parent on PT.PK
send made PK.Note(1)
let x made
send top PT.Give(made)
new n made PT.PK(1)
end
child on PT.PK
send made PK.Note($1)
end
parent on PT.PS
send made PT.Tell(1)
return (true)
end
parent on PD.PD
let x made
end
parent on PT.Flag
K6> send made PK.Note(1)
K6> let x made
K6> send top PT.Give(made)
send this PT.Tell(1)
end
parent on PK.__delete__
K6> let x made
let y this
end
parent on PK.Note
K6> send top PT.GiveAll([made])
send this PK.Note($1)
end
====
PT: Only constructors make actors
child main
new k top PT.PK(1)
new s top PT.PS()
new d top PD.PD()
K6> new n top PT.Flag(true)
K6> new n top PT.Any(1)
K6> new n top PT.Plain()
K6> new n k PK.Note(1)
K6> new n k PK.__delete__()
end
====
PT: A constructor may be sent without a name
parent main
send top PT.PK(1)
end
child main
send top PT.PK(1)
send top PT.PS()
end
====
PT: A return stands in a handler of a sync message with returns
parent main
K6> return ()
end
parent on PT.Flag
K6> return ()
end
parent on PT.Get
K6> return (1)
end
parent on PT.Plain
K6> return ()
end
parent on PT.PK
K6> return (true)
end
parent on PT.Look
return (true, \"\")
end
parent on PT.PS
return (true)
end
====
PT: Returns of nothing are returns
parent on PT.Blank
return ()
end
parent on PT.Done
resolve ()
end
parent on PT.Done
reject
end
parent on PT.Done
keep k
end
parent main
resolve k PT.Done ()
reject k PT.Done
K6> resolve k PT.Blank ()
end
====
PT: A handler of a sync message may return nothing
parent on PT.Look
end
child on PT.Call
send top PT.Flag(true)
end
====
PT: A return is the last of its block
child on PT.Call
K6> return (1)
send top PT.Any(1)
end
child on PT.Call
send top PT.Any(1)
return (1)
end
child on PT.Call
K6> return (1)
close
end
child on PT.Call
K6> return (1)
let x this
end
child on PT.Call
K6> return (1)
reject k PT.Get
end
====
PT: Of several returns the last is in its place
child on PT.Call
K6> return (1)
K6> return (2)
return (3)
end
child on PT.Call
K6> return (1)
K4> send top PT.Tell(1)
return (2)
end
child on PT.Call
K6> return (1)
K5> return (\"x\")
end
====
PT: What the next block has follows no return
child on PT.Call
return (1)
K2> parent main
send top PT.Tell(1)
end
child on PT.Call
return (1)
end
child main
send top PT.Any(1)
end
K2> child on PT.Call
return (5)
====
PT: What is no statement follows no return, and does not hide what does
child on PT.Call
return (2)
K1> send top
# send top PT.Any(1)
end
child on PT.Call
K6> return (3)
K1> frob
# x

send top PT.Any(1)
end
child on PT.Call
K6> return (4)
K1> frob
K3> send top PZ.Any(1)
end
====
PT: A return that may not stand there and is not the last breaks the rule once
parent on PT.Flag
K6> return (1)
K6> return (2)
send top PT.Tell(1)
end
parent main
K6> return ()
send top PT.Tell(1)
end
====
PT: Answers stand in a handler of an async message with returns
parent main
K6> resolve (1)
K6> reject
K6> keep k
end
parent on PT.Flag
K6> resolve (1)
end
parent on PT.Flag
K6> reject
end
parent on PT.Flag
K6> keep k
end
parent on PT.Look
K6> resolve (true, \"\")
end
parent on PT.Look
K6> reject
end
parent on PT.Plain
K6> keep k
end
parent on PT.Blank
K6> resolve ()
end
parent on PT.PK
K6> resolve ()
end
====
PT: Each answer in its place
parent on PT.Get
resolve (1)
end
parent on PT.Get
reject
end
parent on PT.Get
keep k
end
parent on PT.Get
end
parent on PT.Ping
resolve (true)
end
child on PT.Ping
reject
end
child on PT.Want
keep k
send top PT.Flag(true)
end
====
PT: One answer in a block
parent on PT.Get
resolve (1)
K6> resolve (2)
end
parent on PT.Get
keep k
K6> resolve (2)
K6> reject
K6> keep k
end
parent on PT.Get
reject
send top PT.Tell(1)
K6> keep k
end
====
PT: Answers by a name are none of the handled message
parent on PT.Get
resolve k PT.Get (1)
reject k PT.Get
resolve (1)
resolve k PT.Get (1)
reject k PT.Get
end
====
PT: An answer that does not fit is an answer, and a line that is no statement is none
parent on PT.Get
K5> resolve (\"x\")
K6> resolve (2)
end
parent on PT.Get
K1> resolve
K1> resolve (
resolve (1)
end
====
PT: An answer counts in its own block
parent on PT.Get
keep k
K2> parent on PT.Get
resolve (1)
K2> parent on PT.Get
reject
K6> keep k
end
parent on PT.Get
keep k
end
====
PT: Named answers are of async messages with returns
parent main
resolve k PT.Get (1)
reject k PT.Get
K6> resolve k PT.Look (true, \"\")
K6> resolve k PT.Flag ()
K6> resolve k PT.PK ()
K6> resolve k PT.PS (true)
K6> resolve k PT.Plain ()
K6> reject k PT.Look
K6> reject k PT.Flag
K6> reject k PT.Plain
K6> reject k PK.__delete__
K5> resolve k PT.Get (\"x\")
end
====
PT: Names are of actors and of resolvers, given before or not
parent main
send x PT.Tell(1)
let x y
send x PK.Note(1)
resolve x PT.Get (1)
new x x PT.PK(1)
end
parent on PT.Get
keep x
send x PT.Tell(1)
let x x
end
====
PT: What stands behind close and die
parent main
close
send top PT.Tell(1)
die
close
K4> send top PT.Flag(true)
end
";
