//! The rows of the tests of trees.

/// Rows of headers: a text, a line of `---`, and the lines of its tree. A line of `====` separates
/// rows.
pub const HEADER_TREES: &str = "
---
====
include protocol Q; include r; include \"x.h\";
---
include protocol Q 1:18
include header r 1:29
include quoted \"x.h\" 1:40
====
using a from \"b\";
using class a :: b < c::d > from \"e\";
[A] using struct f from \"g\";
---
using a 1:7
using a::b<c::d> 2:13
using f 3:18
attribute A 3:2
====
[A, B=c, C=\"d e\", D=struct] struct S { };
---
struct S 1:36
attribute A 1:2
attribute B 1:5 = c
attribute C 1:10 = \"d e\"
attribute D 1:19 = struct
====
struct S { int a;
b::c<d>[]?[]? e;
nullable P f;
nullable P[] g;
};
---
struct S 1:8
field a 1:16: int at 1:12
field e 2:15: b::c<d>[]?[]? at 2:1
field f 3:12: nullable P at 3:10
field g 4:14: nullable P[] at 4:10
====
struct S { UniquePtr<nullable UniquePtr<int[]>?>[] x;
nullable UniquePtr<P> y; };
---
struct S 1:8
field x 1:52: UniquePtr<nullable UniquePtr<int[] at 1:41>? at 1:31>[] at 1:12
field y 2:23: nullable UniquePtr<P at 2:20> at 2:10
====
[A] union U { int; nullable a<b>?; UniquePtr<P>; };
---
union U 1:11
attribute A 1:2
component int at 1:15
component nullable a<b>? at 1:29
component UniquePtr<P at 1:46> at 1:36
";

/// Rows of headers whose lists are in text order, whatever is between their items, and whose full
/// names have the namespaces.
pub const WHOLE_HEADERS: &str = "struct S { };
include a;
using b from \"c\";
union U { int; };
include d;
---
include header a 2:9
include header d 5:9
using b 3:7
struct S 1:8
union U 4:7
component int at 4:11
====
struct A { };
namespace n { struct B { };
namespace m { union C { int; }; }
struct D { }; }
namespace n { struct E { }; }
---
struct A 1:8
struct n::B 2:22
struct n::D 4:8
struct n::E 5:22
union n::m::C 3:21
component int at 3:25
";

/// Rows of protocol files.
pub const PROTOCOL_TREES: &str = "protocol P { };
---
async protocol P 1:10
====
[A] sync protocol P {
manager A or B; manages C; manager D; manages E;
};
---
sync protocol P 1:19
attribute A 1:2
manager A 2:9
manager B 2:14
manager D 2:36
manages C 2:25
manages E 2:47
====
async protocol P {
parent: async a();
child: both: sync b(int x) returns (bool y, [A] int z);
parent: [B=c] sync d(nullable Q p) returns ();
child: async e([D, E=f] int[] g, UniquePtr<h> i);
};
---
async protocol P 1:16
parent async a 2:15
both sync b 3:19
param x 3:25: int at 3:21
returns
return y 3:42: bool at 3:37
return z 3:53: int at 3:49
attribute A 3:46
parent sync d 4:20
attribute B 4:10 = c
param p 4:33: nullable Q at 4:31
returns
child async e 5:14
param g 5:31: int[] at 5:25
attribute D 5:17
attribute E 5:20 = f
param i 5:47: UniquePtr<h at 5:44> at 5:34
====
include protocol Q; struct A { };
namespace n { struct B { };
namespace m { union C { int; };
protocol P { parent: async a(); };
struct D { }; }
struct E { }; }
struct F { };
using g from \"h\";
---
include protocol Q 1:18
using g 8:7
struct A 1:28
struct n::B 2:22
struct n::m::D 5:8
struct n::E 6:8
struct F 7:8
union n::m::C 3:21
component int at 3:25
async protocol n::m::P 4:10
parent async a 4:28
";
