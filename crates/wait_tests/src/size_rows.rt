//! Rows of programs at the limit of 4,096 bytes.
use crate::rows::Row;

/// Types of 12, 28, 60, 124, 252, 508, 1,020, 2,044 and 4,092 bytes: a struct takes four bytes besides its
/// fields.
pub const TYPES: &str = "struct B0 { int64_t a; };
struct B1 { B0 a; B0 b; };
struct B2 { B1 a; B1 b; };
struct B3 { B2 a; B2 b; };
struct B4 { B3 a; B3 b; };
struct B5 { B4 a; B4 b; };
struct B6 { B5 a; B5 b; };
struct B7 { B6 a; B6 b; };
struct B8 { B7 a; B7 b; };
";

/// Messages of one protocol `PS`, after those types, and which of them take at most 4,096 bytes.
pub const ROWS: &[Row] = &[
    Row {
        says: "4,096 bytes of structs and a number",
        top: "PS",
        text: "child: [Nested=inside_sync] sync C(B8 b, int32_t n);",
        lines: "child waits PS.Ask takes PS.C\n",
    },
    Row {
        says: "4,100 bytes of structs and a number",
        top: "PS",
        text: "child: [Nested=inside_sync] sync C(B8 b, int64_t n);",
        lines: "",
    },
    Row {
        says: "4,096 bytes with an array, a maybe, a text and a small number in place of large ones",
        top: "PS",
        text: "child: [Nested=inside_sync] sync C(B7 b, B6 c, B5 d, B4 e, B3 f, B2 g, B1 h, B0 r, B0 s, B8[] i, B8? j, UniquePtr<B8> k, nsString l, int8_t m, int16_t n, bool o, double p);",
        lines: "child waits PS.Ask takes PS.C\n",
    },
    Row {
        says: "4,100 bytes of the same and one number more",
        top: "PS",
        text: "child: [Nested=inside_sync] sync C(B7 b, B6 c, B5 d, B4 e, B3 f, B2 g, B1 h, B0 r, B0 s, B8[] i, B8? j, UniquePtr<B8> k, nsString l, int8_t m, int16_t n, bool o, double p, float q);",
        lines: "",
    },
    Row {
        says: "a union whose first component is too large, and the second not",
        top: "PS",
        text: "child: [Nested=inside_sync] sync C(B7 b, First u); [Nested=inside_sync] sync D(B8 b, First u);",
        lines: "child waits PS.Ask takes PS.C\n",
    },
    Row {
        says: "a union whose last component is the least",
        top: "PS",
        text: "child: [Nested=inside_sync] sync C(B7 a, B6 b, B5 c, B4 d, B3 e, B2 f, B1 g, Last u, B0 h, B0 i);",
        lines: "child waits PS.Ask takes PS.C\n",
    },
    Row {
        says: "types that hold themselves through a union, in an array and bare",
        top: "PS",
        text: "child: [Nested=inside_sync] sync C(Tree t, Knot k);",
        lines: "child waits PS.Ask takes PS.C\n",
    },
    Row {
        says: "a struct of 4,096 bytes, and one of 4,100",
        top: "PS",
        text: "child: [Nested=inside_sync] sync C(Whole w); [Nested=inside_sync] sync D(Over o);",
        lines: "child waits PS.Ask takes PS.C\n",
    },
    Row {
        says: "a call of 4,100 bytes is no call",
        top: "PS",
        text: "parent: sync Large(B8 b, double d); child: [Nested=inside_sync] sync C();",
        lines: "child waits PS.Ask takes PS.C\n",
    },
];

/// The further types of the rows.
pub const MORE_TYPES: &str = "union First { B8; int32_t; };
union Last { B8; B7; bool; };
struct Tree { int32_t n; Knot more; };
union Knot { Tree[]; Tree; bool; };
struct Whole { B7 a; B6 b; B5 c; B4 d; B3 e; B2 f; B1 g; B0 h; B0 i; B0 j; int64_t k; int32_t l; int32_t m; int32_t n; };
struct Over { B8 a; B0[] b; };
";

/// The parameters of a constructor, whose new id takes four more bytes.
pub const CONSTRUCTORS: &[Row] = &[
    Row {
        says: "4,096 bytes with the new id",
        top: "PM",
        text: "B8 b",
        lines: "child waits PM.Ask takes PN.Ping\n",
    },
    Row {
        says: "4,100 bytes with the new id",
        top: "PM",
        text: "B8 b, int8_t n",
        lines: "",
    },
];
