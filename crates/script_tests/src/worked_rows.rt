//! The worked scripts.

/// The files of the worked scripts. Each begins with `@ ` and its name, followed by its text.
pub const FILES: &str = "@ PW.ipdl
[NestedUpTo=inside_cpow]
sync protocol PW {
parent:
  [Nested=inside_sync] sync CallP() returns (int32_t r);
  [Nested=inside_cpow] async Poke();
  sync Base();
child:
  [Nested=inside_sync] sync CallC() returns (int32_t r);
  async Tell(int32_t n);
  async Give(PW w);
};
@ PQ.ipdl
protocol PQ { both: async Get() returns (int32_t r); parent: async Tell(int32_t n); };
@ PC.ipdl
protocol PC { parent: [Compress] async Up(int32_t n); [Compress=all] async Alls(int32_t n); async Mark(); [Compress] async Ask(int32_t n) returns (bool b); };
@ PR.ipdl
include protocol PK; protocol PR { manages PK; parent: async PK(); };
@ PK.ipdl
include protocol PR; protocol PK { manager PR or PK; manages PK; parent: async PK(); async Get() returns (int32_t r); async __delete__(); };
@ POwn.ipdl
include protocol PTmp; protocol POwn { manages PTmp; parent: async PTmp(); child: async Mark(nullable PTmp p); };
@ PTmp.ipdl
include protocol POwn; protocol PTmp { manager POwn; both: async Hi(); async __delete__(); };
@ PF.ipdl
protocol PF {
parent:
  async Flag(bool b);
};
@ PLz.ipdl
protocol PLz { parent: [LazySend] async Lz(int32_t n); async Now(); };
@ PM.ipdl
include protocol PN; [NestedUpTo=inside_sync] sync protocol PM { manages PN; parent: sync Ask(); child: async PN(); };
@ PN.ipdl
include protocol PM; [NestedUpTo=inside_sync] sync protocol PN { manager PM; child: [Nested=inside_sync] sync Ping(); async __delete__(); };
@ PGen.ipdl
include protocol PLeaf; [NestedUpTo=inside_sync] sync protocol PGen { manages PLeaf; parent: async PLeaf(); [Compress] async Up(int32_t n); };
@ PLeaf.ipdl
include protocol PGen; [NestedUpTo=inside_sync] sync protocol PLeaf { manager PGen; parent: [Nested=inside_sync] sync Ask(int32_t n) returns (int32_t r); async Get(int32_t n) returns (int32_t r); async __delete__(); child: [Nested=inside_sync] sync Back(int32_t n) returns (int32_t r); };
@ PZ.ipdl
protocol PZ {
parent:
  async Put(nsCString s);
};
";

/// The worked scripts, in the form of `line_rows`. The top is the protocol of one of the files.
pub const WORKED: &str = "PW: Both sides call at once
parent main
send top PW.CallC()
end
child main
send top PW.CallP()
end
parent on PW.CallP
return (10)
end
child on PW.CallC
return (20)
end
====
PW: A script that breaks four rules
parent main
K4> send top PW.CallP()
end
K2> child main
K5> send top PW.CallP(1)
K1> frob
====
PQ: An end that closes while promises are open
parent main
send top PQ.Get()
send top PQ.Get()
send top PQ.Get()
end
child main
send top PQ.Tell(1)
send top PQ.Tell(2)
close
end
====
PC: Messages that replace others
child main
send top PC.Up(1)
send top PC.Up(2)
send top PC.Mark()
send top PC.Up(3)
send top PC.Alls(1)
send top PC.Mark()
send top PC.Alls(2)
send top PC.Ask(1)
send top PC.Ask(2)
end
====
PW: A death under nested waits
parent main
send top PW.CallC()
end
child on PW.CallC
send top PW.CallP()
end
parent on PW.CallP
send top PW.CallC()
end
child on PW.CallC
die
end
====
PR: A tree of actors that is deleted
child main
new a top PR.PK()
new b a PK.PK()
new c b PK.PK()
send b PK.Get()
send a PK.__delete__()
end
parent on PK.Get
resolve (9)
end
====
PW: Four nested calls
parent main
send top PW.CallC()
end
child main
send top PW.Base()
end
child on PW.CallC
send top PW.CallP()
return (1)
end
parent on PW.CallP
send top PW.CallC()
return (2)
end
child on PW.CallC
send top PW.CallP()
return (3)
end
parent on PW.CallP
return (4)
end
====
POwn: Actors that are sent after they fell
child main
new t top POwn.PTmp()
send t PTmp.__delete__()
send t PTmp.Hi()
end
parent on POwn.PTmp
send made PTmp.Hi()
send top POwn.Mark(made)
end
====
PQ: One question
parent main
send top PQ.Get()
end
====
PF: No line
====
PQ: A resolver that is kept
child main
send top PQ.Get()
send top PQ.Tell(1)
end
parent on PQ.Get
keep k
end
parent on PQ.Tell
resolve k PQ.Get (5)
end
====
PLz: Messages that wait in an outbox
child main
send top PLz.Lz(1)
send top PLz.Lz(2)
send top PLz.Now()
send top PLz.Lz(3)
end
====
PM: A constructor that is overtaken
parent main
new n top PM.PN()
send n PN.Ping()
end
child main
send top PM.Ask()
end
====
PW: A send behind a close
child main
send top PW.Poke()
end
parent on PW.Poke
close
send top PW.Tell(1)
end
====
PW: A send to a name that holds nothing
child main
send x PW.Poke()
end
====
PW: A value that is a name that holds nothing
parent main
send top PW.Give(x)
end
====
PW: A close under a call
child main
send top PW.CallP()
end
parent on PW.CallP
send top PW.CallC()
return (1)
end
child on PW.CallC
close
return (2)
end
====
PW: A call inside of a message of the highest level
child main
send top PW.Poke()
end
parent on PW.Poke
send top PW.CallC()
end
====
PW: A call of too low a level
parent main
send top PW.CallC()
end
child on PW.CallC
send top PW.Base()
return (1)
end
====
PW: A nested call in a normal one
child main
send top PW.Base()
end
parent on PW.Base
send top PW.CallC()
end
====
PW: Calls too deep
parent main
send top PW.CallC()
end
child on PW.CallC
send top PW.CallP()
return (0)
end
parent on PW.CallP
send top PW.CallC()
return (0)
end
====
PW: Two messages
parent main
send top PW.Tell(5)
send top PW.Tell(6)
end
====
PW: A reply under a handler
parent main
send top PW.CallC()
end
child on PW.CallC
send top PW.Poke()
return (7)
end
parent on PW.Poke
send top PW.Tell(1)
end
====
PGen: A made script of 1 round and 1 actor
child main
new a1 top PGen.PLeaf()
send a1 PLeaf.Ask(48)
send a1 PLeaf.Get(48)
send a1 PLeaf.__delete__()
close
end
parent on PLeaf.Ask
send this PLeaf.Back($1)
return ($1)
end
parent on PLeaf.Get
resolve ($1)
end
child on PLeaf.Back
send top PGen.Up($1)
send top PGen.Up($1)
return ($1)
end
====
PGen: A made script of 3 rounds and 2 actors
child main
new a1 top PGen.PLeaf()
new a2 top PGen.PLeaf()
send a1 PLeaf.Ask(110)
send a1 PLeaf.Get(110)
send a2 PLeaf.Ask(127)
send a2 PLeaf.Get(127)
send a1 PLeaf.Ask(144)
send a1 PLeaf.Get(144)
send a1 PLeaf.__delete__()
send a2 PLeaf.__delete__()
close
end
parent on PLeaf.Ask
send this PLeaf.Back($1)
return ($1)
end
parent on PLeaf.Get
resolve ($1)
end
child on PLeaf.Back
send top PGen.Up($1)
send top PGen.Up($1)
return ($1)
end
";
