//! The runs of two ends that call each other at once.

/// What each of the five ways prints, in the order of their words, without the last line. Each begins with `====` and its
/// word. They are worked out from the rules of docs/scripts.md, and not by the program.
pub const FIVE_WAYS: &str = "==== PCPCCCPPPPCC
parent call 1/1 to 2147483647 PW.CallC()
child call -1/-1 to 2147483647 PW.CallP()
parent deliver request -1
child deliver request 1
child take 1 at 2147483647 PW.CallC()
child return 1
  answer 1 ok (20)
parent deliver reply 1
parent resume 1 ok (20)
parent take -1 at 2147483647 PW.CallP()
parent return -1
  answer -1 ok (10)
child deliver reply -1
child resume -1 ok (10)
==== PcCCPPCPPPCC
parent call 1/1 to 2147483647 PW.CallC()
child deliver request 1
child take 1 at 2147483647 PW.CallC()
child return 1
  answer 1 ok (20)
parent deliver reply 1
parent resume 1 ok (20)
child call -1/-1 to 2147483647 PW.CallP()
parent deliver request -1
parent take -1 at 2147483647 PW.CallP()
parent return -1
  answer -1 ok (10)
child deliver reply -1
child resume -1 ok (10)
==== PcCCPCpPPPCC
parent call 1/1 to 2147483647 PW.CallC()
child deliver request 1
child take 1 at 2147483647 PW.CallC()
child return 1
  answer 1 ok (20)
parent deliver reply 1
child call -1/-1 to 2147483647 PW.CallP()
parent deliver request -1
parent resume 1 ok (20)
parent take -1 at 2147483647 PW.CallP()
parent return -1
  answer -1 ok (10)
child deliver reply -1
child resume -1 ok (10)
==== CpPPPCCCCCPP
child call -1/-1 to 2147483647 PW.CallP()
parent deliver request -1
parent take -1 at 2147483647 PW.CallP()
parent return -1
  answer -1 ok (10)
parent call 1/1 to 2147483647 PW.CallC()
child deliver reply -1
child resume -1 ok (10)
child deliver request 1
child take 1 at 2147483647 PW.CallC()
child return 1
  answer 1 ok (20)
parent deliver reply 1
parent resume 1 ok (20)
==== CpPPPCcCCCPP
child call -1/-1 to 2147483647 PW.CallP()
parent deliver request -1
parent take -1 at 2147483647 PW.CallP()
parent return -1
  answer -1 ok (10)
parent call 1/1 to 2147483647 PW.CallC()
child deliver reply -1
child deliver request 1
child resume -1 ok (10)
child take 1 at 2147483647 PW.CallC()
child return 1
  answer 1 ok (20)
parent deliver reply 1
parent resume 1 ok (20)
";

/// Worked runs that no option ends early, with the number of the ways of their scripts.
pub const WORKED: &str = "both-call-at-once 5
two-tells 3
kept-resolver 4
four-nested-calls 5
overtaken-constructor 21
drops 37
lazy-outbox 55";
