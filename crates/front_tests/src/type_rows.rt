//! The rows of the tests of the rules on types.

/// Programs with their findings of the rules on types, declarations and attributes. Each row has
/// its subject, the findings as `FILE:LINE:COLUMN RULE`, and the files. The first file is the
/// command's word.
pub const TYPES: &str = "B1: a type's name finds nothing
0:3:11 B1 
@ PA.ipdl
protocol PA {
parent:
  async M(foo x, int32_t y);
};
====
B1 of a return, of a field and of a component
0:1:12 B1 0:2:11 B1 0:5:22 B1 
@ PA.ipdl
struct S { foo x; };
union U { bar; int32_t; };
protocol PA {
child:
  async M() returns (baz x);
};
====
B1 inside UniquePtr, at the type inside; the place is behind `nullable`
0:3:21 B1 0:3:58 B1 
@ PA.ipdl
protocol PA {
parent:
  async M(UniquePtr<foo> a, UniquePtr<UniquePtr<nullable bar>>[]? b);
};
====
Every builtin type is found, by word and by full name

@ PA.ipdl
protocol PA {
parent:
  async A(bool a, char b, short c, int d, long e, float f, double g, int8_t h, uint8_t i, int16_t j, uint16_t k, int32_t l, uint32_t m, int64_t n, uint64_t o, intptr_t p, uintptr_t q, nsresult r, nsString s, nsCString t, ByteBuf u, Shmem v, FileDescriptor w);
  async B(mozilla::ipc::ByteBuf a, mozilla::ipc::Shmem b, mozilla::ipc::FileDescriptor c);
};
====
A bare Endpoint is unknown; with a protocol that is seen it is found
0:3:11 B1 0:3:62 B1 0:3:78 B1 
@ PA.ipdl
protocol PA {
parent:
  async M(Endpoint a, Endpoint<PA> b, ManagedEndpoint<PA> c, Endpoint<PB> d, foo<PA> e);
};
====
A using is found by its full and its short name
0:5:35 B1 0:5:40 B1 
@ PA.ipdl
using a::B from \"x.h\";
using c::D<e> from \"x.h\";
protocol PA {
parent:
  async M(B x, a::B y, c::D<e> z, D w, c::D v);
};
====
What a header includes is seen, and what a protocol file includes is not
0:5:27 B1 0:5:32 B1 
@ PA.ipdl
include h;
include protocol PB;
protocol PA {
parent:
  async M(S a, R b, PB c, Q d, PC e);
};
@ h.ipdlh
include g;
struct S { int32_t a; };
@ PB.ipdl
include i;
protocol PB { };
@ g.ipdlh
struct R { int32_t a; };
@ i.ipdlh
struct Q { int32_t a; };
====
B2: two structs of one short name
0:5:11 B2 
@ PA.ipdl
namespace a { struct S { int32_t x; }; }
namespace b { struct S { int32_t x; }; }
protocol PA {
parent:
  async M(S x, a::S y, b::S[] z);
};
====
B2 of a using that takes the short name of a builtin type
0:4:11 B2 0:4:46 B2 
@ PA.ipdl
using x::int32_t from \"x.h\";
protocol PA {
parent:
  async M(int32_t a, x::int32_t b, UniquePtr<int32_t> c);
};
====
Two usings of one full name are one declaration, also in two files

@ PA.ipdl
include h;
using a::B from \"x.h\";
using a::B from \"y.h\";
protocol PA {
parent:
  async M(B x);
};
@ h.ipdlh
using a::B from \"z.h\";
====
A using of a builtin type's name adds nothing

@ PA.ipdl
using int32_t from \"x.h\";
using mozilla::ipc::Shmem from \"x.h\";
protocol PA {
parent:
  async M(int32_t a, Shmem b);
};
====
A name that finds two is no unknown one, and no `nullable` on it is judged
0:5:20 B2 0:5:34 B1 
@ PA.ipdl
namespace a { struct S { int32_t x; }; }
namespace b { struct S { int32_t x; }; }
protocol PA {
parent:
  async M(nullable S x, nullable T y);
};
====
B3: a struct of itself, a union of itself alone
0:2:8 B3 0:3:7 B3 
@ PU.ipdl
union U { int32_t; U[]; };
struct S { S s; };
union V { V; };
protocol PU {
parent:
  async M(U u);
};
====
Without them nothing is broken

@ PU.ipdl
union U { int32_t; U[]; };
protocol PU {
parent:
  async M(U u);
};
====
Arrays, maybes and owned pointers of what is not defined are not
0:1:8 B3 0:2:8 B3 0:3:8 B3 0:4:8 B3 
@ PA.ipdl
struct A { A[] a; };
struct B { B? a; };
struct C { UniquePtr<C> a; };
struct D { int32_t x; UniquePtr<D?>[] a; };
protocol PA { };
====
A struct with one field that is not defined is not, whatever stands beside it
0:1:8 B3 0:2:8 B3 
@ PA.ipdl
struct S { int32_t x; T y; nsString z; };
struct T { S s; };
protocol PA { };
====
A union with one defined component is, and what rests on it

@ PA.ipdl
union U { S; V; nsString; };
struct S { U u; };
union V { S; };
struct R { V[] v; S s; UniquePtr<U> u; };
protocol PA { };
====
A ring of structs, and what leads to it
0:1:8 B3 0:2:8 B3 0:3:8 B3 0:4:8 B3 0:6:7 B3 
@ PA.ipdl
struct A { B b; };
struct B { C c; };
struct C { A a; };
struct D { A a; };
union E { A; B; bool; };
union F { A; D; };
protocol PA { };
====
Names that find nothing or two count as defined; so do actors, usings, endpoints
0:4:12 B1 0:4:19 B2 
@ PA.ipdl
using a::B from \"x.h\";
namespace a { struct S { int32_t x; }; }
namespace b { struct S { int32_t x; }; }
struct C { foo x; S y; B z; PA w; Endpoint<PA> v; };
protocol PA { };
====
An empty struct is defined, and definedness goes over files

@ PA.ipdl
include h;
struct S { T t; };
protocol PA { };
@ h.ipdlh
include g;
struct T { E e; R r; };
struct E { };
@ g.ipdlh
include h;
union R { T; E; };
====
B4: a struct and a union of one full name, at the later one
0:2:7 B4 
@ PA.ipdl
struct S { int32_t x; };
union S { int32_t; };
protocol PA { };
====
B4 by place, not by list: the union stands first
0:2:8 B4 
@ PA.ipdl
union S { int32_t; };
struct S { int32_t x; };
protocol PA { };
====
One short name in two namespaces is no repeat; one full name in two namespaces' parts is
0:3:21 B4 
@ PA.ipdl
namespace a { struct S { int32_t x; }; }
namespace b { struct S { int32_t x; }; }
namespace a { union S { int32_t; }; }
protocol PA { };
====
Two usings are none; a using behind a struct is, and a struct behind a using
0:3:8 B4 0:5:7 B4 0:6:7 B4 
@ PA.ipdl
using A from \"x.h\";
using A from \"y.h\";
struct A { int32_t x; };
struct B { int32_t x; };
using B from \"x.h\";
using A from \"z.h\";
protocol PA { };
====
A protocol repeats a struct, and a struct behind it the protocol
0:2:10 B4 
@ PA.ipdl
struct PA { int32_t x; };
protocol PA { };
====
A struct behind the protocol
0:2:7 B4 
@ PA.ipdl
protocol PA { };
union PA { int32_t; };
====
Three of one name: the second and the third
0:2:8 B4 0:3:8 B4 
@ PA.ipdl
struct S { };
struct S { };
struct S { };
protocol PA { };
====
B4: a builtin's word as own name, in whatever namespace; also Endpoint; not of a using
0:3:8 B4 0:4:21 B4 0:4:50 B4 0:5:8 B4 
@ PA.ipdl
using int32_t from \"x.h\";
using a::nsString from \"x.h\";
struct bool { };
namespace n { union ByteBuf { int32_t; }; struct Endpoint { }; }
struct ManagedEndpoint { };
struct Bool { };
protocol PA { };
====
B4 in a header, and the same names in two files are no repeats
1:2:7 B4 
@ PA.ipdl
include h;
struct S { };
protocol PA { };
@ h.ipdlh
struct S { };
union S { int32_t; };
====
B5: nullable on a builtin, a struct, a union, a using
0:6:20 B5 0:6:40 B5 0:6:54 B5 0:6:70 B5 
@ PA.ipdl
using a::B from \"x.h\";
struct S { };
union U { int32_t; };
protocol PA {
parent:
  async M(nullable int32_t a, nullable S b, nullable U[] c, nullable B? d, nullable PA e);
};
====
Nullable concerns the base: an array of nullable actors is fine

@ PA.ipdl
protocol PA {
parent:
  async M(nullable PA[] a, nullable PA? b, nullable PA[][]? c);
};
====
B5 on UniquePtr and on an endpoint
0:3:20 B5 0:3:72 B5 0:3:107 B5 
@ PA.ipdl
protocol PA {
parent:
  async M(nullable UniquePtr<PA> a, UniquePtr<nullable PA> b, nullable Endpoint<PA> c, UniquePtr<nullable int32_t> d);
};
====
B5 in fields, components and returns
0:1:21 B5 0:2:20 B5 0:5:31 B5 
@ PA.ipdl
struct S { nullable int32_t x; nullable PA y; };
union U { nullable bool; nullable PA; };
protocol PA {
parent:
  async M() returns (nullable S s, nullable PA p);
};
====
B6: a field with the name of an earlier one
0:1:40 B6 0:1:48 B6 0:1:56 B6 
@ PA.ipdl
struct S { int32_t a; bool b; nsString a; bool a; bool b; };
protocol PA { };
====
Fields of two structs may share names

@ PA.ipdl
struct S { int32_t a; bool b; };
struct T { int32_t a; bool b; bool A; };
protocol PA { };
====
B7: a name twice in one list, whatever its value
0:1:10 B7 0:1:15 B7 0:3:7 B7 0:3:25 B7 0:3:52 B7 
@ PA.ipdl
[A, B=x, A=y, B] protocol PA {
parent:
  [C, C] async M([D, E, D] int32_t a) returns ([F, F] bool b);
};
====
B7 of a using, a struct, a union; two lists may share names
0:1:5 B7 0:2:5 B7 0:3:8 B7 
@ PA.ipdl
[A, A] using a::B from \"x.h\";
[A, A] struct S { };
[A, B, A] union U { int32_t; };
[A, B] struct T { };
protocol PA { };
====
B7: values that are not listed, where the attribute has effect
0:1:2 B7 0:3:4 B7 0:4:4 B7 0:5:4 B7 0:6:4 B7 0:7:4 B7 
@ PA.ipdl
[NestedUpTo=foo] protocol PA {
parent:
  [Nested=foo] async A();
  [Nested] async B();
  [Compress=last] async C();
  [Nested=\"inside_sync\"] async D();
  [Compress=\"all\"] async E();
};
====
Listed values

@ PA.ipdl
[NestedUpTo=not] protocol PA {
parent:
  [Nested=not] async A();
  [Compress] async B();
  [Compress=all] async C();
  [Nested=not, Compress=all] async D();
};
====
An attribute without effect may have any value

@ PA.ipdl
[Nested=foo, Compress=bar, Other=sync, Quoted=\"x\"] protocol PA {
parent:
  [NestedUpTo=foo, LazySend=x, Priority=high] async A([Nested=foo] int32_t a);
};
[NestedUpTo=foo] struct S { };
====
Of a repeated attribute the first counts, and each later one is B7 once
0:3:4 B7 0:3:14 B7 
@ PA.ipdl
[NestedUpTo=inside_sync] sync protocol PA {
parent:
  [Nested=x, Nested=inside_sync] async A();
}; 
====
Findings of two files, in the order of the reach
0:4:11 B1 1:1:12 B1 1:1:25 B6 
@ PA.ipdl
include h;
protocol PA {
parent:
  async M(x a);
};
@ h.ipdlh
struct S { y a; int32_t a; };
";

/// The number of these programs.
pub const TYPES_COUNT: &str = "42";
