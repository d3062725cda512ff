//! Rows on values.

/// Scripts in the form of `line_rows`. Some have values that do not fit.
pub const VALUES: &str = "PT: As many values as parameters
parent main
K5> send top PT.Tell()
send top PT.Tell(1)
K5> send top PT.Tell(1, 2)
K5> new n top PT.PK()
K5> new n top PT.PK(1, 2)
end
child main
send top PT.None()
K5> send top PT.None(1)
end
====
PT: As many values as returns
parent main
K5> resolve k PT.Get ()
K5> resolve k PT.Get (1, 2)
resolve k PT.Done ()
K5> resolve k PT.Done (1)
end
parent on PT.Look
K5> return (true)
end
parent on PT.Look
return (true, \"\")
end
parent on PT.Look
K5> return (true, \"\", 1)
end
parent on PT.Look
K5> return (\"\", true)
end
parent on PT.Blank
K5> return (1)
end
parent on PT.Get
K5> resolve ()
end
parent on PT.Done
K5> resolve (1)
end
====
PT: Numbers of 8 bits
child main
send top PT.Small(-128, -128, 0)
send top PT.Small(127, 127, 255)
K5> send top PT.Small(-129, 0, 0)
K5> send top PT.Small(128, 0, 0)
K5> send top PT.Small(0, -129, 0)
K5> send top PT.Small(0, 128, 0)
K5> send top PT.Small(0, 0, -1)
K5> send top PT.Small(0, 0, 256)
end
====
PT: Numbers of 16 bits
child main
send top PT.Middle(-32768, -32768, 0)
send top PT.Middle(32767, 32767, 65535)
K5> send top PT.Middle(-32769, 0, 0)
K5> send top PT.Middle(32768, 0, 0)
K5> send top PT.Middle(0, -32769, 0)
K5> send top PT.Middle(0, 32768, 0)
K5> send top PT.Middle(0, 0, -1)
K5> send top PT.Middle(0, 0, 65536)
end
====
PT: Numbers of 32 bits
child main
send top PT.Large(-2147483648, -2147483648, 0, 0)
send top PT.Large(2147483647, 2147483647, 4294967295, 4294967295)
K5> send top PT.Large(-2147483649, 0, 0, 0)
K5> send top PT.Large(2147483648, 0, 0, 0)
K5> send top PT.Large(0, -2147483649, 0, 0)
K5> send top PT.Large(0, 2147483648, 0, 0)
K5> send top PT.Large(0, 0, -1, 0)
K5> send top PT.Large(0, 0, 4294967296, 0)
K5> send top PT.Large(0, 0, 0, -1)
K5> send top PT.Large(0, 0, 0, 4294967296)
end
====
PT: Numbers of 64 bits
child main
send top PT.Huge(-9223372036854775808, -9223372036854775808, -9223372036854775808, 0, 0)
send top PT.Huge(9223372036854775807, 9223372036854775807, 9223372036854775807, 18446744073709551615, 18446744073709551615)
K5> send top PT.Huge(-9223372036854775809, 0, 0, 0, 0)
K5> send top PT.Huge(9223372036854775808, 0, 0, 0, 0)
K5> send top PT.Huge(0, -9223372036854775809, 0, 0, 0)
K5> send top PT.Huge(0, 9223372036854775808, 0, 0, 0)
K5> send top PT.Huge(0, 0, -9223372036854775809, 0, 0)
K5> send top PT.Huge(0, 0, 9223372036854775808, 0, 0)
K5> send top PT.Huge(0, 0, 0, -1, 0)
K5> send top PT.Huge(0, 0, 0, 18446744073709551616, 0)
K5> send top PT.Huge(0, 0, 0, 0, -1)
K5> send top PT.Huge(0, 0, 0, 0, 18446744073709551616)
end
====
PT: Zeros before a number say nothing
parent main
send top PT.Tell(007)
send top PT.Tell(-007)
send top PT.Tell(00)
send top PT.Tell(0000000000000000000000000000000000000000000000000000000000000000002147483647)
send top PT.Tell(-0000000000000000000000000000000000000000000000000000000000000000002147483648)
K5> send top PT.Tell(0000000000000000000000000000000000000000000000000000000000000000002147483648)
end
child main
send top PT.Small(-0, -00, -0)
send top PT.Middle(-0, -0, -000)
send top PT.Huge(0, -0, 0, -0, 018446744073709551615)
end
====
PT: Numbers of any length
parent main
K5> send top PT.Tell(4294967297)
K5> send top PT.Tell(18446744073709551617)
K5> send top PT.Tell(-18446744073709551617)
K5> send top PT.Tell(340282366920938463463374607431768211457)
K5> send top PT.Tell(-340282366920938463463374607431768211457)
K5> send top PT.Tell(115792089237316195423570985008687907853269984665640564039457584007913129639937)
K5> send top PT.Tell(10000000000000000000000000000000000000000000000000000000000000000000000000000000000000000000000000000000000000000000000000000000000000)
end
child main
K5> send top PT.Huge(0, 0, 0, 36893488147419103232, 0)
K5> send top PT.Huge(0, 0, 0, 340282366920938463463374607431768211456, 0)
K5> send top PT.Huge(0, 0, 0, -340282366920938463463374607431768211456, 0)
K5> send top PT.Small(0, 0, 18446744073709551616)
end
====
PT: Parameters of any number
parent on PT.Many
send top PT.Tell($1)
send top PT.Tell($01)
send top PT.Tell($0000000000000000000000000000000000000000000001)
send $011 PT.Tell(1)
let x $0000000000000000000000000000000000000000000012
K5> send top PT.Tell($0)
K5> send top PT.Tell($00)
K5> send top PT.Tell($18)
K5> send top PT.Tell($257)
K5> send top PT.Tell($4294967295)
K5> send top PT.Tell($4294967296)
K5> send top PT.Tell($4294967297)
K5> send top PT.Tell($18446744073709551617)
K5> send top PT.Tell($340282366920938463463374607431768211457)
K5> send $0 PT.Tell(1)
K5> send $18 PT.Tell(1)
K5> send $4294967307 PT.Tell(1)
K5> let x $0
K5> let x $18
K5> let x $18446744073709551627
K5> new n $0 PT.PK(1)
end
====
PT: Components of any number
parent main
send top PT.TellEither(@0 true)
send top PT.TellEither(@000 true)
send top PT.TellEither(@0000000000000000000000000000000000000000000001 \"x\")
K5> send top PT.TellEither(@4 true)
K5> send top PT.TellEither(@256 true)
K5> send top PT.TellEither(@4294967295 true)
K5> send top PT.TellEither(@4294967296 true)
K5> send top PT.TellEither(@18446744073709551616 true)
K5> send top PT.TellEither(@340282366920938463463374607431768211456 true)
end
====
PT: Booleans and numbers are their own
child main
send top PT.Flag(true)
send top PT.Flag(false)
K5> send top PT.Flag(1)
K5> send top PT.Flag(0)
K5> send top PT.Flag(\"true\")
K5> send top PT.Flag(h\"01\")
K5> send top PT.Flag(none)
K5> send top PT.Flag(null)
K5> send top PT.Flag(some true)
K5> send top PT.Flag(True)
K5> send top PT.Flag(top)
K5> send top PT.Flag([true])
K5> send top PT.Flag({true})
K5> send top PT.Flag(@0 true)
K5> send top PT.Small(\"a\", 0, 0)
K5> send top PT.Small(true, 0, 0)
K5> send top PT.Small(h\"41\", 0, 0)
K5> send top PT.Small(0, a, 0)
K5> send top PT.Small(0, null, 0)
K5> send top PT.Small(0, 0, none)
end
====
PT: Texts are for strings, and hexadecimal bytes for what else is bytes
child main
send top PT.Texts(\"a\", h\"\", h\"00\", h\"ffFF\")
send top PT.Texts(\"\", h\"6161\", h\"00000000\", h\"0000000000000000\")
K5> send top PT.Texts(h\"61\", h\"\", h\"\", h\"\")
K5> send top PT.Texts(\"\", \"a\", h\"\", h\"\")
K5> send top PT.Texts(\"\", h\"\", \"a\", h\"\")
K5> send top PT.Texts(\"\", h\"\", h\"\", \"a\")
K5> send top PT.Texts(\"\", h\"\", [], h\"\")
K5> send top PT.Texts(1, h\"\", h\"\", h\"\")
K5> send top PT.Texts(null, h\"\", h\"\", h\"\")
K5> send top PT.Texts(\"\", h\"\", h\"\", none)
K5> send top PT.Texts(a, h\"\", h\"\", h\"\")
end
====
PT: The bits of floats and doubles
child main
send top PT.Floats(h\"3f800000\", h\"3FF0000000000000\")
send top PT.Floats(h\"ffffffff\", h\"ffffffffffffffff\")
K5> send top PT.Floats(h\"3f8000\", h\"3ff0000000000000\")
K5> send top PT.Floats(h\"3f80000000\", h\"3ff0000000000000\")
K5> send top PT.Floats(h\"3ff0000000000000\", h\"3ff0000000000000\")
K5> send top PT.Floats(h\"3f800000\", h\"3f800000\")
K5> send top PT.Floats(h\"\", h\"3ff0000000000000\")
K5> send top PT.Floats(h\"3f800000\", h\"3ff00000000000\")
K5> send top PT.Floats(h\"3f800000\", h\"3ff000000000000000\")
K5> send top PT.Floats(1, h\"3ff0000000000000\")
K5> send top PT.Floats(h\"3f800000\", 0)
K5> send top PT.Floats(\"3f800000\", h\"3ff0000000000000\")
end
====
PT: Structs
parent main
send top PT.TellPair({1, none})
send top PT.TellPair({-32768, some false})
K5> send top PT.TellPair({1})
K5> send top PT.TellPair({1, none, 2})
K5> send top PT.TellPair({})
K5> send top PT.TellPair({1, true})
K5> send top PT.TellPair({32768, none})
K5> send top PT.TellPair([1, none])
K5> send top PT.TellPair(1, none)
K5> send top PT.TellPair(1)
K5> send top PT.TellPair({none, 1})
K5> send top PT.TellPair({{1, none}})
K5> send top PT.TellPair(none)
end
child main
send top PT.Nested({1, none}, @0 true, {})
K5> send top PT.Nested({1, none}, @0 true, [])
K5> send top PT.Nested({1, none}, @0 true, {{}})
K5> send top PT.Nested({1, none}, @0 true, none)
K5> send top PT.Nested({1, none}, {}, @0 true)
end
====
PT: Unions
parent main
send top PT.TellEither(@0 true)
send top PT.TellEither(@1 \"x\")
send top PT.TellEither(@2 [])
send top PT.TellEither(@2 [@0 true, @1 \"\", @2 [@3 {1, none}]])
send top PT.TellEither(@3 {0, some true})
K5> send top PT.TellEither(true)
K5> send top PT.TellEither(@0 1)
K5> send top PT.TellEither(@1 true)
K5> send top PT.TellEither(@2 [true])
K5> send top PT.TellEither(@2 [@0 true, @0 1])
K5> send top PT.TellEither(@2 @0 true)
K5> send top PT.TellEither(@0 @0 true)
K5> send top PT.TellEither(@3 {0, true})
K5> send top PT.TellEither({0, none})
K5> send top PT.TellPair(@0 {0, none})
end
====
PT: Maybes and UniquePtrs
child main
send top PT.Holds(none, none, [], none)
send top PT.Holds(some true, some -128, [], some none)
send top PT.Holds(some false, some 127, [], some some true)
K5> send top PT.Holds(true, none, [], none)
K5> send top PT.Holds(some 1, none, [], none)
K5> send top PT.Holds(some none, none, [], none)
K5> send top PT.Holds(null, none, [], none)
K5> send top PT.Holds([], none, [], none)
K5> send top PT.Holds(none, 1, [], none)
K5> send top PT.Holds(none, some 128, [], none)
K5> send top PT.Holds(none, null, [], none)
K5> send top PT.Holds(none, none, [], true)
K5> send top PT.Holds(none, none, [], some true)
K5> send top PT.Holds(none, none, [], some some none)
K5> send top PT.Holds(none, none, [], some some some true)
end
====
PT: Arrays
child main
send top PT.Holds(none, none, [0], none)
send top PT.Holds(none, none, [-128, 127, 0], none)
K5> send top PT.Holds(none, none, [128], none)
K5> send top PT.Holds(none, none, [0, 1, 128], none)
K5> send top PT.Holds(none, none, [-129, 1, 2], none)
K5> send top PT.Holds(none, none, [[0]], none)
K5> send top PT.Holds(none, none, [none], none)
K5> send top PT.Holds(none, none, none, none)
K5> send top PT.Holds(none, none, {}, none)
K5> send top PT.Holds(none, none, 0, none)
K5> send top PT.Holds(none, none, some [], none)
K5> send top PT.Holds(none, none, h\"00\", none)
end
====
PT: Actors by names, and no actor
child main
send top PT.Actors(top, null, x)
send top PT.Actors(x, y, top)
send top PT.Actors(x, top, y)
K5> send top PT.Actors(null, null, x)
K5> send top PT.Actors(x, null, null)
K5> send top PT.Actors(1, null, x)
K5> send top PT.Actors(x, 0, y)
K5> send top PT.Actors(x, none, y)
K5> send top PT.Actors(x, some y, z)
K5> send top PT.Actors(\"x\", null, y)
send top PT.Lists([x, top], [null, x], none)
send top PT.Lists([], [], some x)
K5> send top PT.Lists([null], [], none)
K5> send top PT.Lists([x, null], [], none)
K5> send top PT.Lists([], [], some null)
K5> send top PT.Lists([], [], null)
K5> send top PT.Lists([], [], x)
K5> send top PT.Lists(x, [], none)
end
====
PT: The handled message's actor and what a constructor built are any actor
parent on PT.PK
send top PT.Give(this)
send top PT.Give(made)
send top PT.May(made)
send top PT.GiveAll([this, made, top, x])
K5> send top PT.Tell(this)
K5> send top PT.TellText(made)
K5> send top PT.TellMaybe(x)
K5> send top PT.TellMaybe(some top)
K5> send top PT.TellEither(@0 this)
end
====
PT: A parameter to which a statement goes is an actor, of whatever protocol
parent on PT.Many
send $11 PT.Tell(1)
send $12 PT.Tell(1)
send $13 PK.Note(1)
new n $11 PT.PK(1)
let x $12
K5> send $1 PT.Tell(1)
K5> send $5 PK.Note(1)
K5> send $16 PT.Tell(1)
K5> send $15 PT.Tell(1)
K5> new n $10 PT.PK(1)
K5> let x $3
end
====
PT: A parameter among values has the same type
parent on PT.Many
send top PT.Tell($1)
K5> send top PT.Tell($2)
K5> send top PT.Tell($3)
K5> send top PT.TellInt($1)
send top PT.TellInt($2)
send top PT.TellText($5)
K5> send top PT.TellText($6)
send top PT.TellBytes($6)
K5> send top PT.TellBytes($5)
K5> send top PT.TellBytes($7)
send top PT.TellBuffer($7)
K5> send top PT.TellBuffer($6)
send top PT.TellHandle($8)
K5> send top PT.TellHandle($9)
K5> send top PT.TellHandle($6)
send top PT.TellPair($10)
K5> send top PT.TellEither($10)
send top PT.TellMaybe($15)
K5> send top PT.TellMaybe($4)
K5> send top PT.Tell($14)
end
====
PT: A parameter inside of values
parent on PT.Many
send top PT.TellPair({$3, $15})
send top PT.TellPair({$3, some $4})
K5> send top PT.TellPair({$1, $15})
K5> send top PT.TellPair({$3, $4})
K5> send top PT.TellPair({$18, none})
send top PT.TellMaybe(some $4)
K5> send top PT.TellMaybe(some $15)
send top PT.TellEither(@0 $4)
send top PT.TellEither(@2 [@0 $4, @1 $5, @3 $10])
K5> send top PT.TellEither(@2 [@0 $4, @1 $6])
K5> send top PT.TellEither(@0 $0)
end
====
PT: An actor parameter has the same protocol, and may be null only where null may stand
parent on PT.Many
send top PT.Give($11)
K5> send top PT.Give($12)
K5> send top PT.Give($13)
send top PT.May($11)
send top PT.May($12)
K5> send top PT.May($13)
K5> send top PT.May($1)
send top PT.GiveAll($16)
K5> send top PT.GiveAll($17)
K5> send top PT.MayAll($16)
send top PT.MayAll($17)
send top PT.GiveAll([$11, $11])
K5> send top PT.GiveAll([$11, $12])
send top PT.MayAll([$11, $12, null])
K5> send top PT.MayAll([$13])
end
====
PT: Parameters among what is returned
parent on PT.Get
resolve ($1)
end
parent on PT.Get
K5> resolve ($2)
end
child on PT.Call
return ($1)
end
child on PT.Call
K5> return ($2)
end
child on PT.Want
resolve (this)
end
child on PT.Want
K5> resolve ($1)
end
parent on PT.Many
resolve k PT.Get ($1)
K5> resolve k PT.Get ($2)
resolve k PT.Want ($12)
resolve k PT.Want ($11)
K5> resolve k PT.Want ($13)
end
====
PT: A main has no parameters
parent main
K5 K6> send $1 PT.Tell(1)
K5 K6> send top PT.Tell($1)
K5 K6> let x $1
K5 K6> let x $0
K5 K6> new n top PT.PK($1)
K5 K6> resolve k PT.Get ($1)
K5 K6> resolve k PT.Look ($1)
K5 K6> resolve ($1)
K5 K6> return ($1)
K5 K6> send top PT.GiveAll([x, $1])
K5 K6> send top PT.TellPair({1, some $1})
end
====
PT: Where no types are, only a parameter that is not there does not fit
child on PT.Tell
K6> resolve (1, \"x\", none, {})
end
child on PT.Tell
K6> resolve ($1)
end
child on PT.Tell
K5 K6> resolve ($2)
end
child on PT.Tell
K5 K6> resolve ([1, {some $2}])
end
child on PT.Tell
K6> return (x, null)
end
child on PT.Tell
K5 K6> return (@7 $0)
end
child on PT.Tell
K6> resolve k PT.Look (5, 5, 5)
K6> resolve k PT.Flag (5)
K6> resolve k PT.Flag ($1)
K5 K6> resolve k PT.Flag ($2)
end
child main
K6> resolve (1)
K6> return (\"x\")
end
====
PT: Where types are, values are fitted, though the line may not stand there
parent main
K5 K6> new n top PT.Tell(\"x\")
K6> new n top PT.Tell(1)
end
parent on PT.Get
resolve (1)
K6> resolve (2)
K5 K6> resolve (\"x\")
K5 K6> resolve ()
end
child on PT.Call
K5 K6> return (\"x\")
K6> return (1)
return (2)
end
====
PT: A line breaks the rule once, though neither its actor nor its values fit
parent on PT.Flag
K5> send $1 PT.Tell(\"x\")
K5> send $2 PT.Tell($2)
end
";
