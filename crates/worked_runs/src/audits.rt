//! Rows of audits.

/// The script of the audited runs: both ends call each other at the same time.
pub const RACE_SCRIPT: &str = "parent main
send top PW.CallC()
end
child main
send top PW.CallP()
end
parent on PW.CallP
return (10)
end
child on PW.CallC
return (20)
end
";

/// Audits. Each row has its name, its limit and what the audit reports; and then the text. `====`
/// separates two rows.
pub const AUDITS: &str = "whole 10000 legal 12
parent call 1/1 to 2147483647 PW.CallC()
child call -1/-1 to 2147483647 PW.CallP()
parent deliver request -1
child deliver request 1
child take 1 at 2147483647 PW.CallC()
child return 1
  answer 1 ok (20)
parent deliver reply 1
parent resume 1 ok (20)
parent take -1 at 2147483647 PW.CallP()
parent return -1
  answer -1 ok (10)
child deliver reply -1
child resume -1 ok (10)
finished
====
wrong-value 10000 no step 9
parent call 1/1 to 2147483647 PW.CallC()
child call -1/-1 to 2147483647 PW.CallP()
parent deliver request -1
child deliver request 1
child take 1 at 2147483647 PW.CallC()
child return 1
  answer 1 ok (20)
parent deliver reply 1
parent resume 1 ok (21)
parent take -1 at 2147483647 PW.CallP()
parent return -1
  answer -1 ok (10)
child deliver reply -1
child resume -1 ok (10)
finished
====
deferred-take 10000 no step 5
parent call 1/1 to 2147483647 PW.CallC()
child call -1/-1 to 2147483647 PW.CallP()
parent deliver request -1
child deliver request 1
parent take -1 at 2147483647 PW.CallP()
child return 1
  answer 1 ok (20)
parent deliver reply 1
parent resume 1 ok (20)
parent take -1 at 2147483647 PW.CallP()
parent return -1
  answer -1 ok (10)
child deliver reply -1
child resume -1 ok (10)
finished
====
cut 10000 early 15
parent call 1/1 to 2147483647 PW.CallC()
child call -1/-1 to 2147483647 PW.CallP()
parent deliver request -1
child deliver request 1
child take 1 at 2147483647 PW.CallC()
child return 1
  answer 1 ok (20)
parent deliver reply 1
parent resume 1 ok (20)
parent take -1 at 2147483647 PW.CallP()
parent return -1
  answer -1 ok (10)
child deliver reply -1
child resume -1 ok (10)
====
empty 10000 early 1
====
swapped-deliveries 10000 legal 12
parent call 1/1 to 2147483647 PW.CallC()
child call -1/-1 to 2147483647 PW.CallP()
child deliver request 1
parent deliver request -1
child take 1 at 2147483647 PW.CallC()
child return 1
  answer 1 ok (20)
parent deliver reply 1
parent resume 1 ok (20)
parent take -1 at 2147483647 PW.CallP()
parent return -1
  answer -1 ok (10)
child deliver reply -1
child resume -1 ok (10)
finished
====
effect-left-out 10000 no step 7
parent call 1/1 to 2147483647 PW.CallC()
child call -1/-1 to 2147483647 PW.CallP()
parent deliver request -1
child deliver request 1
child take 1 at 2147483647 PW.CallC()
child return 1
parent deliver reply 1
parent resume 1 ok (20)
finished
====
cut-before-an-effect 10000 early 7
parent call 1/1 to 2147483647 PW.CallC()
child call -1/-1 to 2147483647 PW.CallP()
parent deliver request -1
child deliver request 1
child take 1 at 2147483647 PW.CallC()
child return 1
====
finished-with-work-left 10000 no step 3
parent call 1/1 to 2147483647 PW.CallC()
child call -1/-1 to 2147483647 PW.CallP()
finished
====
no-such-line 10000 no step 2
parent call 1/1 to 2147483647 PW.CallC()
nobody calls
child call -1/-1 to 2147483647 PW.CallP()
====
spent-parent 1 legal 2
parent call 1/1 to 2147483647 PW.CallC()
child call -1/-1 to 2147483647 PW.CallP()
spent parent
====
spent-child 1 legal 2
parent call 1/1 to 2147483647 PW.CallC()
child call -1/-1 to 2147483647 PW.CallP()
spent child
====
spent-of-the-other-side 1 no step 2
parent call 1/1 to 2147483647 PW.CallC()
spent child
====
spent-below-the-limit 2 no step 3
parent call 1/1 to 2147483647 PW.CallC()
child call -1/-1 to 2147483647 PW.CallP()
spent parent
====
a-line-behind-the-last 1 no step 4
parent call 1/1 to 2147483647 PW.CallC()
child call -1/-1 to 2147483647 PW.CallP()
spent parent
spent child
====
finished-with-a-delivery-left 10000 no step 13
parent call 1/1 to 2147483647 PW.CallC()
child call -1/-1 to 2147483647 PW.CallP()
parent deliver request -1
child deliver request 1
child take 1 at 2147483647 PW.CallC()
child return 1
  answer 1 ok (20)
parent deliver reply 1
parent resume 1 ok (20)
parent take -1 at 2147483647 PW.CallP()
parent return -1
  answer -1 ok (10)
finished
====
finished-with-an-own-step-left 10000 no step 14
parent call 1/1 to 2147483647 PW.CallC()
child call -1/-1 to 2147483647 PW.CallP()
parent deliver request -1
child deliver request 1
child take 1 at 2147483647 PW.CallC()
child return 1
  answer 1 ok (20)
parent deliver reply 1
parent resume 1 ok (20)
parent take -1 at 2147483647 PW.CallP()
parent return -1
  answer -1 ok (10)
child deliver reply -1
finished
====
finished-for-spent 1 no step 3
parent call 1/1 to 2147483647 PW.CallC()
child call -1/-1 to 2147483647 PW.CallP()
finished
====
whole-at-the-limit 6 legal 12
parent call 1/1 to 2147483647 PW.CallC()
child call -1/-1 to 2147483647 PW.CallP()
parent deliver request -1
child deliver request 1
child take 1 at 2147483647 PW.CallC()
child return 1
  answer 1 ok (20)
parent deliver reply 1
parent resume 1 ok (20)
parent take -1 at 2147483647 PW.CallP()
parent return -1
  answer -1 ok (10)
child deliver reply -1
child resume -1 ok (10)
finished
====
spent-for-finished 6 no step 15
parent call 1/1 to 2147483647 PW.CallC()
child call -1/-1 to 2147483647 PW.CallP()
parent deliver request -1
child deliver request 1
child take 1 at 2147483647 PW.CallC()
child return 1
  answer 1 ok (20)
parent deliver reply 1
parent resume 1 ok (20)
parent take -1 at 2147483647 PW.CallP()
parent return -1
  answer -1 ok (10)
child deliver reply -1
child resume -1 ok (10)
spent parent
====
one-event-more-than-the-limit 5 no step 11
parent call 1/1 to 2147483647 PW.CallC()
child call -1/-1 to 2147483647 PW.CallP()
parent deliver request -1
child deliver request 1
child take 1 at 2147483647 PW.CallC()
child return 1
  answer 1 ok (20)
parent deliver reply 1
parent resume 1 ok (20)
parent take -1 at 2147483647 PW.CallP()
parent return -1
  answer -1 ok (10)
child deliver reply -1
child resume -1 ok (10)
finished
====
spent-where-the-other-side-may-go-on 3 legal 4
parent call 1/1 to 2147483647 PW.CallC()
child call -1/-1 to 2147483647 PW.CallP()
child deliver request 1
child take 1 at 2147483647 PW.CallC()
spent child
====
spent-of-a-side-below-the-limit 3 no step 5
parent call 1/1 to 2147483647 PW.CallC()
child call -1/-1 to 2147483647 PW.CallP()
child deliver request 1
child take 1 at 2147483647 PW.CallC()
spent parent
====
spent-with-nothing-left 1 no step 2
parent call 1/1 to 2147483647 PW.CallC()
spent parent
====
blank-line-behind-the-last 10000 no step 16
parent call 1/1 to 2147483647 PW.CallC()
child call -1/-1 to 2147483647 PW.CallP()
parent deliver request -1
child deliver request 1
child take 1 at 2147483647 PW.CallC()
child return 1
  answer 1 ok (20)
parent deliver reply 1
parent resume 1 ok (20)
parent take -1 at 2147483647 PW.CallP()
parent return -1
  answer -1 ok (10)
child deliver reply -1
child resume -1 ok (10)
finished

====
carriage-return 10000 no step 1
parent call 1/1 to 2147483647 PW.CallC()\r
child call -1/-1 to 2147483647 PW.CallP()
====
delivery-of-nothing 10000 no step 1
child deliver request 1
parent call 1/1 to 2147483647 PW.CallC()
====
own-step-that-is-not-there 10000 no step 3
parent call 1/1 to 2147483647 PW.CallC()
child call -1/-1 to 2147483647 PW.CallP()
parent resume 1 ok (20)
====
packet-of-the-other-side 10000 no step 3
parent call 1/1 to 2147483647 PW.CallC()
child call -1/-1 to 2147483647 PW.CallP()
parent deliver request 1
====
effect-at-the-beginning 10000 no step 1
  answer 1 ok (20)
parent call 1/1 to 2147483647 PW.CallC()
";
