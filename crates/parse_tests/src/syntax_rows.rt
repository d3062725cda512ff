//! The rows of the tests of faults of the grammar.

/// Rows `ANSWER | TEXT` of headers.
pub const HEADER_ROWS: &str = "tree | 
0 at 1:1 | protocol P { };
tree | struct S { };
3 at 1:5 | [A] protocol P { };
2 at 1:10 | include x
2 at 1:14 | using struct class a from \"b\";
3 at 1:14 | using a from b;
6 at 1:14 | using a<b::c , d> from \"e\";
1 at 1:7 | using \"a\" from \"b\";
3 at 1:4 | [A=;] struct S { };
1 at 1:2 | [] struct S { };
3 at 1:4 | [A,] struct S { };
3 at 1:5 | [A] include x;
3 at 1:5 | [A] namespace n { }
3 at 1:5 | [A] [B] struct S { };
1 at 1:2 | [\"a\"]
2 at 1:4 | [A B]
tree | struct S { int x; a::b<c::d>[]?[]? y; nullable P z; };
10 at 1:21 | struct S { int[]?[]?[] y; };
9 at 1:20 | struct S { int[]?[]] y; };
10 at 1:21 | struct S { int[]?[]?? y; };
4 at 1:16 | struct S { int nullable x; };
4 at 1:21 | struct S { nullable nullable P x; };
5 at 1:18 | struct S { int x };
3 at 1:12 | struct S { [A] int x; };
tree | struct S { UniquePtr<UniquePtr<UniquePtr<UniquePtr<nullable int>[]>?>[]?[]?>? x; };
11 at 1:52 | struct S { UniquePtr<UniquePtr<UniquePtr<UniquePtr<UniquePtr<int>>>>> x; };
4 at 1:22 | struct S { UniquePtr x; };
6 at 1:26 | struct S { UniquePtr<int x> y; };
12 at 1:31 | struct S { UniquePtr<int[]?[]?[]> y; };
6 at 1:16 | struct S { a<b <c>> x; };
5 at 1:15 | struct S { a::; };
5 at 1:15 | struct S { a::struct x; };
9 at 1:20 | struct S { a::b<c> <d> x; };
3 at 1:11 | union U { };
tree | union U { int; a<b>?; };
4 at 1:15 | union U { int x; };
1 at 1:8 | struct struct { };
4 at 1:14 | struct S { } union
2 at 1:10 | struct S ;
3 at 1:15 | namespace a { protocol P { }; }
4 at 1:17 | namespace a { } }
3 at 1:15 | namespace a { include x; }
tree | namespace a { namespace a { namespace a { namespace a { namespace a { namespace a { namespace a { namespace a { namespace a { namespace a { namespace a { namespace a { namespace a { namespace a { namespace a { namespace a {  } } } } } } } } } } } } } } } }
48 at 1:225 | namespace a { namespace a { namespace a { namespace a { namespace a { namespace a { namespace a { namespace a { namespace a { namespace a { namespace a { namespace a { namespace a { namespace a { namespace a { namespace a { namespace a { } } } } } } } } } } } } } } } } } ";

/// Rows `ANSWER | TEXT` of protocol files.
pub const PROTOCOL_ROWS: &str = "tree | protocol P { };
0 at 1:1 | 
5 at 1:17 | protocol P { }; protocol Q { };
tree | sync protocol P { };
tree | async protocol P { };
1 at 1:6 | sync sync protocol P { };
1 at 1:10 | protocol { };
4 at 1:15 | protocol P { }
5 at 1:17 | protocol P { }; ;
1 at 1:10 | protocol parent { };
5 at 1:14 | struct S { };
3 at 1:4 | [A]
tree | include protocol Q; include r; include \"x.h\"; protocol P { };
1 at 1:9 | include ; protocol P { };
2 at 1:18 | include protocol \"x\"; protocol P { };
2 at 1:11 | include a , b; protocol P { };
tree | using a::b from \"c.h\"; using class a<b::c> from \"c.h\"; using struct d from \"e\"; protocol P { };
tree | protocol P { }; struct S { }; using a from \"b\"; include c; namespace n { }
tree | [A] using a from \"b\"; [A=b, C=\"d\", E=struct] struct S { int x; }; [F] union U { int; }; [G] protocol P { };
tree | [A] sync protocol P { };
tree | namespace a { struct S { }; namespace b { protocol P { }; union U { int; }; } struct T { }; } struct V { }; include x;
8 at 1:30 | namespace a { protocol P { };
3 at 1:15 | namespace a { using b from \"c\"; }
8 at 1:31 | namespace a { protocol P { }; protocol Q { }; }
9 at 1:33 | namespace a { protocol P { }; } sync protocol Q { };
8 at 1:31 | protocol P { }; namespace n { protocol Q { }; }
tree | namespace a { namespace b { } protocol P { }; }
2 at 1:13 | namespace a :: b { protocol P { }; }
4 at 1:16 | namespace a { }
4 at 1:17 | namespace n { } ;
tree | namespace a { namespace a { namespace a { namespace a { namespace a { namespace a { namespace a { namespace a { namespace a { namespace a { namespace a { namespace a { namespace a { namespace a { namespace a { namespace a { protocol P { }; } } } } } } } } } } } } } } } }
48 at 1:225 | namespace a { namespace a { namespace a { namespace a { namespace a { namespace a { namespace a { namespace a { namespace a { namespace a { namespace a { namespace a { namespace a { namespace a { namespace a { namespace a { namespace a { protocol P { }; } } } } } } } } } } } } } } } } } 
tree | protocol P { manager A or B; manages C; manager D; parent: async m(); child: both: sync n(int x) returns (int y, [A] int z); parent: };
10 at 1:33 | protocol P { parent: async m(); manager A; };
5 at 1:24 | protocol P { manager A , B; };
5 at 1:24 | protocol P { manages A or B; };
4 at 1:22 | protocol P { manager ; };
3 at 1:14 | protocol P { async m(); };
5 at 1:22 | protocol P { parent: m(); };
9 at 1:34 | protocol P { parent: async m(int ); };
11 at 1:36 | protocol P { parent: async m(int a,); };
18 at 1:55 | protocol P { parent: async m([A] int a, nullable b c) return; };
10 at 1:39 | protocol P { parent: sync m() returns ; };
12 at 1:42 | protocol P { parent: sync m() returns () returns (); };
tree | protocol P { parent: [A] async m(); [B=c] sync n(); };
8 at 1:26 | protocol P { parent: [A] both: };
4 at 1:21 | protocol P { parent async m(); };
6 at 1:28 | protocol P { parent: async sync(); };
8 at 1:28 | protocol P { both: async m(,); };
10 at 1:34 | protocol P { both: async m(int a int b); };";
