//! Rows on lines, blocks and tops.

/// Scripts, with the rules of lines, blocks and tops that they break. The first line of each has the
/// top's short name and the subject of the script; the others are its lines. The rules before `> ` are
/// those that a line breaks, or the script as a whole. A line `<N TEXT` is the text with blanks after
/// it, up to N bytes.
pub const LINES: &str = "PT: An empty script
====
PT: Comments and blank lines say nothing
# parent main
 \t\r
\t # send top PT.Gone()
\r
#

   # \"
====
PT: Every form of statement
parent main
send top PT.Tell(1)
new n top PT.PK(2)
let m n
resolve k PT.Get (3)
resolve k PT.Done ()
reject k PT.Get
close
die
end
parent on PT.Get
keep k
end
parent on PT.Get
resolve (4)
end
parent on PT.Get
reject
end
parent on PT.Look
return (true, \"x\")
end
child main
send n PK.Note(5)
end
child on PT.Call
return (6)
end
====
PT: Blanks stand between tokens and at both ends of a line
 parent\tmain \r
\tsend  top PT . Tell ( 1 ) \r
send top PT.Tell(1)\r
let\tx\r\ttop
  send top\tPT.TellPair( { 1 , some  true } )
resolve  k PT  .Get(  1)
end\r
====
PT: No blank is needed between tokens that can be told apart
parent on PT.Many
send$11PT.Tell($1)
let x$11
send top PT.TellEither(@2[@0true,@1\"x\",@3{1,some true},@2[]])
send top PT.TellPair({-1,none})
send top PT.TellMaybe(some$4)
resolve k PT.Get(1)
end
parent on PT.Get
resolve(1)
end
parent on PT.Blank
return()
end
====
PT: Words that begin no statement, too many words and too few
parent main
K1> frob
K1> Send top PT.Tell(1)
K1> sendtop PT.Tell(1)
K1> send topPT.Tell(1)
K1> send top PT.Tell
K1> send PT.Tell(1)
K1> send top PT.Tell(1) end
K1> send top top PT.Tell(1)
K1> new top PT.PK(1)
K1> close now
K1> die.
K1> let x
K1> let x y z
K1> keep
K1> resolve
K1> resolve 1
K1> resolve k (1)
K1> reject ()
K1> reject k
K1> reject k PT.Get ()
K1> return
K1> return 1
K1> end end
end
====
PT: Words that open no block
K1> parent
K1> parent main main
K1> parent on
K1> parent on PT
K1> parent on PT.
K1> parent on PT.Flag()
K1> parent.main
K1> main parent
K1> on PT.Flag
K1> Child main
K1> both main
====
PT: Blanks inside of tokens
parent on PT.Many
K1> send top PT.Tell($ 1)
K1> send $ 11 PT.Tell(1)
K1> let x $ 11
K1> send top PT.Tell(- 1)
K1> send top PT.TellBytes(h \"00\")
K1> send top PT.TellBytes(h\"0 0\")
K1> send top PT.TellEither(@ 0 true)
K1> send top PT.TellEither(@\t0 true)
K1> se nd top PT.Tell(1)
K1> se\rnd top PT.Tell(1)
K1> send top PT.Tell(1\r2)
K1> send to p PT.Tell(1)
K1> send top P T.Tell(1)
K1> send top PT.Tell(1 2)
K1> send top PT.Flag(tr ue)
end
====
PT: Commas and brackets
parent main
K1> send top PT.Tell(1,)
K1> send top PT.Tell(,1)
K1> send top PT.Tell(1,,2)
K1> send top PT.Tell(1
K1> send top PT.Tell 1)
K1> send top PT.Tell(1))
K1> send top PT.Tell((1))
K1> send top PT.Tell()(1)
K1> send top PT.TellPair({1, none)
K1> send top PT.TellPair([1, none})
K1> send top PT.TellPair({1, none}})
K1> send top PT.TellEither(@2 [)
K1> send top PT.TellEither(@2 ])
end
====
PT: Marks that are no tokens, and tokens that make no value
parent main
K1> send top PT..Tell(1)
K1> send top PT.Tell.x(1)
K1> send top PT::Tell(1)
K1> send top PT.Tell(1);
K1> send top PT.Tell(1) # one
K1> send top PT.Tell(1) // one
K1> send top PT.Tell(+1)
K1> send top PT.Tell(--1)
K1> send top PT.Tell(-)
K1> send top PT.Tell(1.5)
K1> send top PT.Tell(0x1)
K1> send top PT.Tell(1e3)
K1> send top PT.Tell($)
K1> send top PT.Tell($x)
K1> send top PT.Tell($-1)
K1> send top PT.TellEither(@2)
K1> send top PT.TellEither(@ true)
K1> send top PT.TellEither(@x true)
K1> send top PT.TellEither(@-0 true)
K1> send top PT.TellMaybe(some)
K1> send top PT.TellMaybe(none 1)
K1> send top PT.Flag(!true)
K1> send top PT.Flag(<true>)
end
====
PT: Texts between quotes
parent main
K1> send top PT.TellText(\"a)
K1> send top PT.TellText(a\")
K1> send top PT.TellText(\"\\q\")
K1> send top PT.TellText(\"\\x80\")
K1> send top PT.TellText(\"\\xff\")
K1> send top PT.TellText(\"\\x4\")
K1> send top PT.TellText(\"\\x4g\")
K1> send top PT.TellText(\"\\x\")
K1> send top PT.TellText(\"\\X41\")
K1> send top PT.TellText(\"\\\")
K1> send top PT.TellText(\"\\N\")
K1> send top PT.TellText(\"\\r\")
K1> send top PT.TellText(\"\\0\")
K1> send top PT.TellText(\"\\ \")
K1> send top PT.TellText('a')
K1> send top PT.TellText(\"a\" \"b\")
send top PT.TellText(\"\\\"\\\\\\n\\t\\x41\\x00\\x7F\\x7f\")
send top PT.TellText(\"\u{1}\t\u{7f}\r\u{0}\u{c}# ä € 𝄞 ( ) , @\")
send top PT.TellText(\"\")
end
====
PT: Hexadecimal bytes
parent main
K1> send top PT.TellBytes(h\"0\")
K1> send top PT.TellBytes(h\"000\")
K1> send top PT.TellBytes(h\"0g\")
K1> send top PT.TellBytes(h\"0x00\")
K1> send top PT.TellBytes(h\"00)
K1> send top PT.TellBytes(H\"00\")
K1> send top PT.TellBytes(xh\"00\")
K1> send top PT.TellBytes(h'00')
send top PT.TellBytes(h\"\")
send top PT.TellBytes(h\"00fFAbC9\")
end
====
PT: The eight words that are no names
parent main
K1> let top top
K1> let this top
K1> let made top
K1> let null top
K1> let none top
K1> let some top
K1> let true top
K1> let false top
K1> new null top PT.PK(1)
K1> new 1 top PT.PK(1)
K1> new $1 top PT.PK(1)
K1> resolve this PT.Get (1)
K1> reject true PT.Get
end
parent on PT.Get
K1> keep top
K1> keep $1
K1> keep none
end
====
PT: Values that are not who a statement goes to
parent main
K1> let x null
K1> let x none
K1> let x true
K1> let x 1
K1> send some PT.Tell(1)
K1> send null PT.Tell(1)
K1> send @1 PT.Tell(1)
K1> send \"top\" PT.Tell(1)
K1> send (top) PT.Tell(1)
end
====
PT: Words of either language are names
parent main
new new top PT.PK(1)
let parent new
let protocol parent
let end protocol
let main end
let on main
let h on
let resolve h
send send PT.Tell(1)
resolve reject PT.Get (1)
reject resolve PT.Get
resolve resolve PT.Get (1)
send nullable PT.Give(union)
send top PT.GiveAll([send, close, die, return, keep])
send top PT.top(true)
end
child on PT.top
send top PT.top($1)
end
parent on PT.Get
keep keep
end
====
PT: A form feed and other spaces are no blanks
parent main
K1> send top PT.Tell(1)\u{c}
K1> send\u{c}top PT.Tell(1)
K1> \u{c}
K1> \u{b}
K1> \u{a0}
K1> \u{feff}# x
K1> \u{0}
end
====
PT: Actions outside of blocks
K2> send top PT.Tell(1)
K2> new n top PT.PK(1)
K2> let x top
K2> resolve (1)
K2> reject
K2> keep k
K2> resolve k PT.Get (1)
K2> reject k PT.Get
K2> close
K2> die
K2> return (1)
K2> end
====
PT: Outside of blocks nothing is tested but the structure and whether the message is there
K2> send top PT.Flag(1)
K2> send $9 PT.Shared($7)
K2> new n this PT.Tell(\"x\")
K2> resolve ($1)
K2> return ()
K2 K3> send top PT.Gone()
K2 K3> new n top PZ.Flag(true)
K2 K3> reject k PX.Gone
parent main
end
K2> send made PT.Flag(true)
====
PT: A block that opens in a block ends that one
parent main
send top PT.Tell(1)
K2> child on PT.Tell
send top PT.Flag(true)
K4> send top PT.Tell($1)
K5> send top PT.Any($2)
end
K2> end
====
PT: Only the last block can be left open
parent main
K2> child main
K2> parent on PT.Flag
K2> child on PT.Tell
send top PT.Flag(true)
====
PT: A block that is left open, at its first line
K2> parent main
send top PT.Tell(1)
# end
====
PT: A block that is left open behind blocks that are not
parent main
end
child main
send top PT.Flag(true)
end
K2> child on PT.Tell
====
PT: What is no statement closes nothing
K2> parent main
K1> end.
K1> end # the end
K1> END
====
PT: A second main opens a block all the same
parent main
send top PT.Tell(1)
end
K2> parent main
K4> send top PT.Flag(true)
K5> send top PT.Tell(true)
K6> let x this
end
child main
send top PT.Flag(true)
end
K2> child main
K4> send top PT.Tell(1)
end
K2> parent main
end
K2> end
====
PT: A line breaks a rule once, in however many ways
parent main
K2> parent main
K2> parent main
send top PT.Tell(1)
====
PT: A main counts wherever it opens
child on PT.Tell
K2> parent main
end
K2> parent main
end
====
PT: What is no statement is no main
K1> parent main x
K1> parentmain
parent main
end
====
PT: A message may have many blocks, of either side
parent on PT.Any
end
parent on PT.Any
end
child on PT.Any
end
child on PT.Any
end
parent main
end
parent on PT.Any
end
====
PT: An end too many
parent main
end
K2> end
child main
end
K2> end
K2> end
====
PT: Lines of 16,384 bytes, and longer ones
<16384 parent main
<16384 send top PT.Tell(1)
<16384 # x
K9> <16385 send top PT.Tell(1)
K9> <16385 # x
K9> <16385 \t
K9> <20000 frob
<16384 end
====
PT: A line that is too long opens and closes nothing
K9> <16385 parent main
K2> send top PT.Tell(1)
K2> parent main
send top PT.Tell(1)
K9> <16385 end
K4> send top PT.Flag(true)
====
PT: Lines that are too long or no statement follow no return
child on PT.Call
return (1)
K9> <16385 send top PT.Any(1)
K1> send top PT.Any(1) x
# send top PT.Any(1)
end
====
PT: A line that is too long is no answer
parent on PT.Get
K9> <16385 resolve (1)
resolve (2)
end
====
K8> PK: A top with a manager
====
K8> PD: A top that manages itself
child main
new d top PD.PD()
K2> child main
end
====
K8> PS: What the top breaks comes first
K1> frob
K2> end
K2> parent main
K4> send top PT.Flag(true)
====
K8> PU: The top before a line that is too long
K9> <16385 end
====
PX: Another top without a manager
parent main
send top PX.Hi()
send top PT.Tell(1)
end
====
PT: Findings in the order of lines, and in each line of rules
K2> end
parent main
K1> frob
K4> send top PT.Flag(true)
K3> send top PT.Gone(1)
K4 K5> send top PT.Flag(1)
K5 K6> let x $1
K7> send top PT.Down([])
K2 K4> child on PT.Flag
K9> <16385 end
K6> keep k
K2 K3> child on PT.Gone
K1> end end
";
