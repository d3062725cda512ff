//! The rows of the tests of the text of a sync list.

/// Rows: a text, a line of `---`, and the lines of its answer. A line of `====` separates rows.
/// They have texts without sections, sections, values, and lines that continue values.
pub const SYNC_ROWS: &str = "
---
====



---
====
 \t\r
---
====
# a
; b
  # c
\t;d
---
====
x
---
line 1
====
x = y
---
line 1
====
 x
---
line 1
====
\x0c
---
line 1
====

#
=
---
line 3
====
[PL::B]
---
1 PL B empty
====
[PL::B] \t\r

---
1 PL B empty
====
\r
[_1::M_2]\r

---
2 _1 M_2 empty
====
[a::b]
[a::c]
[b::b]
---
1 a b empty
2 a c empty
3 b b empty
====
[a::b]
[a::b]
---
line 2
====
[a::b]
x=

# c
[a::b] 
---
line 5
====
 [a::b]
---
line 1
====
[a::b]
 [a::c]
---
line 2
====
[a::b]x
---
line 1
====
[a::b] # c
---
line 1
====
[a::b]\x0c
---
line 1
====
[ a::b]
---
line 1
====
[a :: b]
---
line 1
====
[a:b]
---
line 1
====
[a::b::c]
---
line 1
====
[::b]
---
line 1
====
[a::]
---
line 1
====
[a::1]
---
line 1
====
[a]
---
line 1
====
[a::b
---
line 1
====
[sync::b]
---
line 1
====
[a::async]
---
line 1
====
[syncs::Async]
---
1 syncs Async empty
====
[a::b]
description = why
---
1 a b described
====
[a::b]
description:why
---
1 a b described
====
[a::b]
description\t \t=x
---
1 a b described
====
[a::b]
description =
---
1 a b empty
====
[a::b]
description = \t\r

---
1 a b empty
====
[a::b]
description==
---
1 a b described
====
[a::b]
description=;
---
1 a b described
====
[a::b]
description=\x0c
---
1 a b described
====
[a::b]
Description = x
sync: y
---
1 a b empty
====
[a::b]
description
---
line 2
====
[a::b]
other words = x
---
line 2
====
[a::b]
2 = x
---
line 2
====
[a::b]
= x
---
line 2
====
[a::b]
 description = x
---
line 2
====
[a::b]
description =
description = x
---
1 a b described
====
[a::b]
description = x
description =
---
1 a b described
====
[a::b]
description =
[a::c]
description = x
---
1 a b empty
3 a c described
====
[a::b]
description =
 why
---
1 a b described
====
[a::b]
description =
\t= [
---
1 a b described
====
[a::b]
description =
 [a::b]
---
1 a b described
====
[a::b]
other =
 x
 y
---
1 a b empty
====
[a::b]
description =
 x
 y
 z
---
1 a b described
====
[a::b]
description = x

 y
---
line 4
====
[a::b]
description = x
 # c
 y
---
line 4
====
[a::b]
description = x
 y
;
 z
---
line 5
====
[a::b]
description =
  ;
[a::c]
x=
 y
 z
description=
---
1 a b empty
4 a c empty
";
