//! The rows of the tests of tokens.

/// Rows: a text, a line of `---`, and the lines of its answer. A line of `====` separates rows.
/// They have texts without tokens, faults, the longest piece, comments, lines and columns, and a
/// protocol.
pub const TOKEN_ROWS: &str = "
---
1:1 end
====
 \t
---
1:3 end
====
// only
---
1:8 end
====
//
---
1:3 end
====
/* a
 b */
---
2:6 end
====
/**/
---
1:5 end
====
/***/
---
1:6 end
====
a // b

---
1:1 Word a
2:1 end
====
/* open
---
OpenComment at 1:1 of 7
====
/*/
---
OpenComment at 1:1 of 7
====
protocol PG {
#if X
};
---
BadByte at 2:1 of 7
====
x /
---
BadByte at 1:3 of 7
====
a
 */
---
BadByte at 2:2 of 7
====
a 1b
---
BadByte at 1:3 of 7
====
\"in line\" \"
---
OpenString at 1:11 of 7
====
\"a
b\"
---
OpenString at 1:1 of 7
====
a::b:c
---
1:1 Word a
1:2 Mark ::
1:4 Word b
1:5 Mark :
1:6 Word c
1:7 end
====
:::
---
1:1 Mark ::
1:3 Mark :
1:4 end
====
asyncx async_ async Async
---
1:1 Word asyncx
1:8 Word async_
1:15 Reserved async
1:21 Word Async
1:26 end
====
_9Zz/**/a
---
1:1 Word _9Zz
1:9 Word a
1:10 end
====
/* a /* b */ c
---
1:14 Word c
1:15 end
====
\"/*\" '
---
BadByte at 1:6 of 7
====
\"//\"x
---
1:1 Quoted \"//\"
1:5 Word x
1:6 end
====
// \"
\"\"
---
2:1 Quoted \"\"
2:3 end
====
a\r
\tb
---
1:1 Word a
2:2 Word b
2:3 end
====


/*
*/ a
---
4:4 Word a
4:5 end
====
include protocol PA;
protocol PB {
  [Nested=inside_sync] async Ping(x[] y);
};

---
1:1 Reserved include
1:9 Reserved protocol
1:18 Word PA
1:20 Mark ;
2:1 Reserved protocol
2:10 Word PB
2:13 Mark {
3:3 Mark [
3:4 Word Nested
3:10 Mark =
3:11 Word inside_sync
3:22 Mark ]
3:24 Reserved async
3:30 Word Ping
3:34 Mark (
3:35 Word x
3:36 Mark [
3:37 Mark ]
3:39 Word y
3:40 Mark )
3:41 Mark ;
4:1 Mark }
4:2 Mark ;
5:1 end
====
<>,?
---
1:1 Mark <
1:2 Mark >
1:3 Mark ,
1:4 Mark ?
1:5 end
";
