//! The rows of the tests of loading.

/// Rows of loads. Each row has its subject, the words, the path, the number of the read that fails
/// (or 0), the names that are read in their order, the result, and then each file after `@ `.
/// `====` separates rows.
pub const LOADS: &str = "The first name of the path that exists counts, and each key is read once.
one/PX.ipdl
one two
0
one/PX.ipdl one/PY.ipdl two/PY.ipdl 
PX.ipdl one/PX.ipdl 1
PY.ipdl two/PY.ipdl 0
@ one/PX.ipdl
include protocol PY;
protocol PX {
parent:
  async M();
};
@ two/PY.ipdl
include protocol PX;
protocol PY {
child:
  async N(PX p);
};
====

PA.ipdl
one . two
0
PA.ipdl one/H.ipdlh H.ipdlh 
PA.ipdl PA.ipdl 1
H.ipdlh H.ipdlh
@ PA.ipdl
include H;
protocol PA { };
@ two/H.ipdlh
include absent;
@ H.ipdlh
struct S { };
====
A key of a word is read under the word, also where the path has it.
a/PA.ipdl b/PB.ipdl
.
0
a/PA.ipdl b/PB.ipdl 
PA.ipdl a/PA.ipdl 1
PB.ipdl b/PB.ipdl
@ a/PA.ipdl
include protocol PB;
protocol PA { };
@ b/PB.ipdl
protocol PB { };
@ PB.ipdl
protocol PWrong { };
====
A directory that stands twice in the path is searched once, at its first place.
PA.ipdl
d d
0
PA.ipdl d/PB.ipdl 
PA.ipdl:1:18 A3
@ PA.ipdl
include protocol PB;
protocol PA { };
====

PA.ipdl
d . e d . e/
0
PA.ipdl d/PB.ipdl PB.ipdl e/PB.ipdl e//PB.ipdl d/H.ipdlh H.ipdlh 
PA.ipdl PA.ipdl 1 2
PB.ipdl e//PB.ipdl
H.ipdlh H.ipdlh
@ PA.ipdl
include protocol PB;
include H;
protocol PA { };
@ e//PB.ipdl
protocol PB { };
@ H.ipdlh
struct S { };
====
Keys come file by file and statement by statement; a quoted include names none, and a file may include itself.
PB.ipdl PA.ipdl
.
0
PB.ipdl PA.ipdl C.ipdlh D.ipdlh E.ipdlh PF.ipdl 
PB.ipdl PB.ipdl 2
PA.ipdl PA.ipdl 3 2 1
C.ipdlh C.ipdlh 4 5
D.ipdlh D.ipdlh 0 4
E.ipdlh E.ipdlh
PF.ipdl PF.ipdl
@ PA.ipdl
include D;
include C;
include protocol PA;
protocol PA { };
@ PB.ipdl
include C;
include \"D.ipdlh\";
protocol PB { };
@ C.ipdlh
include E;
include protocol PF;
@ D.ipdlh
include protocol PB;
include E;
@ E.ipdlh
@ PF.ipdl
protocol PF { };
====
A header may be a word, and a protocol may stand in namespaces.
x/y/H.ipdlh
.
0
x/y/H.ipdlh PA.ipdl 
H.ipdlh x/y/H.ipdlh 1
PA.ipdl PA.ipdl
@ x/y/H.ipdlh
include protocol PA;
@ PA.ipdl
namespace n { namespace m { protocol PA { }; } }
====
A word given twice counts once.
PA.ipdl PA.ipdl
.
0
PA.ipdl 
PA.ipdl PA.ipdl
@ PA.ipdl
protocol PA { };
====
Absent files: of a word at the file as a whole, and at each include that names them.
PNo.ipdl
.
0
PNo.ipdl 
PNo.ipdl:0:0 A3
====

PH.ipdl
.
0
PH.ipdl PNone.ipdl 
PH.ipdl:1:18 A3
@ PH.ipdl
include protocol PNone;
protocol PH {
};
====

PA.ipdl
.
0
PA.ipdl H.ipdlh PB.ipdl 
PA.ipdl:1:9 A3
PA.ipdl:3:11 A3
PB.ipdl:2:9 A3
@ PA.ipdl
include H;
include protocol PB;
include   H;
protocol PA { };
@ PB.ipdl
include \"x.h\";
include H;
protocol PB { };
====

PA.ipdl d/H.ipdlh
.
0
PA.ipdl d/H.ipdlh PB.ipdl 
PA.ipdl:1:9 A3
PA.ipdl:3:11 A3
d/H.ipdlh:0:0 A3
PB.ipdl:2:9 A3
@ PA.ipdl
include H;
include protocol PB;
include   H;
protocol PA { };
@ PB.ipdl
include \"x.h\";
include H;
protocol PB { };
====
A file without tokens or without a tree includes nothing.
PA.ipdl
.
0
PA.ipdl B.ipdlh C.ipdlh D.ipdlh 
B.ipdlh:2:1 A1
C.ipdlh:2:7 A2
D.ipdlh:1:1 A2
@ PA.ipdl
include B;
include C;
include D;
protocol PA { };
@ B.ipdlh
include E;
#if X
@ C.ipdlh
include E;
struct;
@ D.ipdlh
protocol D { };
====

PG.ipdl
.
0
PG.ipdl 
PG.ipdl:1:1 A1
@ PG.ipdl
/* open
====

PG.ipdl
.
0
PG.ipdl 
PG.ipdl:2:1 A1
@ PG.ipdl
protocol PG {
#if X
};
====

PH.ipdl
.
0
PH.ipdl 
PH.ipdl:2:1 A2
@ PH.ipdl
protocol PH
====

PE.ipdl
.
0
PE.ipdl 
PE.ipdl:1:1 A2
@ PE.ipdl
====

PE.ipdl
.
0
PE.ipdl 
PE.ipdl:2:1 A2
@ PE.ipdl
// only
====
A protocol bears its file's name, whatever its namespaces; all findings of all files are listed.
PH.ipdl
.
0
PH.ipdl 
PH.ipdl:1:10 A4
@ PH.ipdl
protocol PI {
};
====

p/PA.ipdl PB.ipdl
.
0
p/PA.ipdl PB.ipdl PC.ipdl PD.ipdl 
p/PA.ipdl:2:18 A3
p/PA.ipdl:4:10 A4
PB.ipdl:3:1 A2
PC.ipdl:1:18 A3
PC.ipdl:2:10 A4
@ p/PA.ipdl
include protocol PC;
include protocol PD;
namespace PA {
protocol PAA { };
}
@ PB.ipdl
include protocol PD;
protocol PB { }
@ PC.ipdl
include protocol PD;
protocol pc { };
====
The first read that fails ends the load, whatever was found before.
one/PX.ipdl
one two
1
one/PX.ipdl 
read fault
@ one/PX.ipdl
include protocol PY;
protocol PX {
parent:
  async M();
};
@ two/PY.ipdl
include protocol PX;
protocol PY {
child:
  async N(PX p);
};
====

one/PX.ipdl
one two
2
one/PX.ipdl one/PY.ipdl 
read fault
@ one/PX.ipdl
include protocol PY;
protocol PX {
parent:
  async M();
};
@ two/PY.ipdl
include protocol PX;
protocol PY {
child:
  async N(PX p);
};
====

one/PX.ipdl
one two
3
one/PX.ipdl one/PY.ipdl two/PY.ipdl 
read fault
@ one/PX.ipdl
include protocol PY;
protocol PX {
parent:
  async M();
};
@ two/PY.ipdl
include protocol PX;
protocol PY {
child:
  async N(PX p);
};
====

PNo.ipdl PH.ipdl
.
2
PNo.ipdl PH.ipdl 
read fault
";
