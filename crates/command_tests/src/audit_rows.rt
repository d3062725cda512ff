//! Rows of calls of `audit`.

/// Calls of the command that audits a text, in the form of `call_rows`: the worked ones by name, and
/// others. Each also has `RACE`, after its own files.
pub const AUDITS: &str = "audit-legal
audit race.ids PW.ipdl t.txt
0
@ legal 12
@ @ t.txt
parent call 1/1 to 2147483647 PW.CallC()
child call -1/-1 to 2147483647 PW.CallP()
parent deliver request -1
child deliver request 1
child take 1 at 2147483647 PW.CallC()
child return 1
  answer 1 ok (20)
parent deliver reply 1
parent resume 1 ok (20)
parent take -1 at 2147483647 PW.CallP()
parent return -1
  answer -1 ok (10)
child deliver reply -1
child resume -1 ok (10)
finished
====
audit-wrong-value
audit race.ids PW.ipdl t.txt
9
@ @ t.txt:9: C2 no such step
@ t.txt
parent call 1/1 to 2147483647 PW.CallC()
child call -1/-1 to 2147483647 PW.CallP()
parent deliver request -1
child deliver request 1
child take 1 at 2147483647 PW.CallC()
child return 1
  answer 1 ok (20)
parent deliver reply 1
parent resume 1 ok (21)
parent take -1 at 2147483647 PW.CallP()
parent return -1
  answer -1 ok (10)
child deliver reply -1
child resume -1 ok (10)
finished
====
audit-deferred-take
audit race.ids PW.ipdl t.txt
9
@ @ t.txt:5: C2 no such step
@ t.txt
parent call 1/1 to 2147483647 PW.CallC()
child call -1/-1 to 2147483647 PW.CallP()
parent deliver request -1
child deliver request 1
parent take -1 at 2147483647 PW.CallP()
child return 1
  answer 1 ok (20)
parent deliver reply 1
parent resume 1 ok (20)
parent take -1 at 2147483647 PW.CallP()
parent return -1
  answer -1 ok (10)
child deliver reply -1
child resume -1 ok (10)
finished
====
audit-cut
audit race.ids PW.ipdl t.txt
9
@ @ t.txt:15: C1 ends too early
@ t.txt
parent call 1/1 to 2147483647 PW.CallC()
child call -1/-1 to 2147483647 PW.CallP()
parent deliver request -1
child deliver request 1
child take 1 at 2147483647 PW.CallC()
child return 1
  answer 1 ok (20)
parent deliver reply 1
parent resume 1 ok (20)
parent take -1 at 2147483647 PW.CallP()
parent return -1
  answer -1 ok (10)
child deliver reply -1
child resume -1 ok (10)
====
audit-empty
audit race.ids PW.ipdl t.txt
9
@ @ t.txt:1: C1 ends too early
@ t.txt
====
the parent is spent
audit --limit 1 race.ids PW.ipdl t.txt
0
@ legal 2
@ @ t.txt
parent call 1/1 to 2147483647 PW.CallC()
child call -1/-1 to 2147483647 PW.CallP()
spent parent
====
and so is the child
audit --limit 1 race.ids PW.ipdl t.txt
0
@ legal 2
@ @ t.txt
parent call 1/1 to 2147483647 PW.CallC()
child call -1/-1 to 2147483647 PW.CallP()
spent child
====
nobody is spent
audit race.ids PW.ipdl t.txt
9
@ @ t.txt:3: C2 no such step
@ t.txt
parent call 1/1 to 2147483647 PW.CallC()
child call -1/-1 to 2147483647 PW.CallP()
spent parent
====
an effect of another value
audit race.ids PW.ipdl t.txt
9
@ @ t.txt:7: C2 no such step
@ t.txt
parent call 1/1 to 2147483647 PW.CallC()
child call -1/-1 to 2147483647 PW.CallP()
parent deliver request -1
child deliver request 1
child take 1 at 2147483647 PW.CallC()
child return 1
  answer 1 ok (21)
parent deliver reply 1
parent resume 1 ok (20)
parent take -1 at 2147483647 PW.CallP()
parent return -1
  answer -1 ok (10)
child deliver reply -1
child resume -1 ok (10)
finished
====
an event without its effect
audit race.ids PW.ipdl t.txt
9
@ @ t.txt:7: C2 no such step
@ t.txt
parent call 1/1 to 2147483647 PW.CallC()
child call -1/-1 to 2147483647 PW.CallP()
parent deliver request -1
child deliver request 1
child take 1 at 2147483647 PW.CallC()
child return 1
parent deliver reply 1
parent resume 1 ok (20)
parent take -1 at 2147483647 PW.CallP()
parent return -1
  answer -1 ok (10)
child deliver reply -1
child resume -1 ok (10)
finished
====
a death that no run without a stop has
audit race.ids PW.ipdl t.txt
9
@ @ t.txt:1: C2 no such step
@ t.txt
parent die
====
a line behind a whole text
audit race.ids PW.ipdl t.txt
9
@ @ t.txt:16: C2 no such step
@ t.txt
parent call 1/1 to 2147483647 PW.CallC()
child call -1/-1 to 2147483647 PW.CallP()
parent deliver request -1
child deliver request 1
child take 1 at 2147483647 PW.CallC()
child return 1
  answer 1 ok (20)
parent deliver reply 1
parent resume 1 ok (20)
parent take -1 at 2147483647 PW.CallP()
parent return -1
  answer -1 ok (10)
child deliver reply -1
child resume -1 ok (10)
finished
finished
====
no text
audit race.ids PW.ipdl t.txt
9
@ @ t.txt:0: absent
====
a bad script comes before the text
audit bad.ids PW.ipdl t.txt
7
@ @ bad.ids:1:1: K1 not a statement
@ bad.ids
nonsense
====
no script
audit none.ids PW.ipdl t.txt
7
@ @ none.ids:0:0: K9 script too large or absent
====
the report comes before the script
audit none.ids PF.ipdl t.txt
1
@ @ PF.ipdl:3:14: B1 unknown type
@ PF.ipdl
protocol PF {
parent:
  async Flag(Bool b);
};
====
no word for the text
audit race.ids PW.ipdl
2
@ @ usage
====
no limit
audit --limit 0 race.ids PW.ipdl t.txt
2
@ @ usage
";
