//! Rows of relays.

/// Relays. Each row has the form of a worked run; a row without a script has that of the audited runs.
/// It prints the lines of the parent and then those of the child, worked out from the rules. `====`
/// separates two rows.
pub const RELAYS: &str = "each-serves-first PW.ipdl PC 10000 -
parent on PW.CallP
send top PW.CallC()
return (10)
end
child on PW.CallC
send top PW.CallP()
return (20)
end
----
finished
====
dead-at-once PW.ipdl PC 10000 child:0
----
parent call 1/1 to 2147483647 PW.CallC()
parent deliver broken
  fails 1
parent resume 1 fault ChannelClosed
parent shut AbnormalShutdown
  fall 2147483647 AbnormalShutdown
child die
finished
====
dead-after-call PW.ipdl PC 10000 child:1
----
parent call 1/1 to 2147483647 PW.CallC()
parent deliver request -1
parent deliver broken
  fails 1
parent resume 1 fault ChannelClosed
parent take -1 at 2147483647 PW.CallP()
parent return -1
parent shut AbnormalShutdown
  fall 2147483647 AbnormalShutdown
child call -1/-1 to 2147483647 PW.CallP()
child die
finished
====
dead-after-delivery PW.ipdl PC 10000 child:2
----
parent call 1/1 to 2147483647 PW.CallC()
parent deliver request -1
parent deliver broken
  fails 1
parent resume 1 fault ChannelClosed
parent take -1 at 2147483647 PW.CallP()
parent return -1
parent shut AbnormalShutdown
  fall 2147483647 AbnormalShutdown
child call -1/-1 to 2147483647 PW.CallP()
child deliver request 1
child die
finished
====
dead-after-take PW.ipdl PC 10000 child:3
----
parent call 1/1 to 2147483647 PW.CallC()
parent deliver request -1
parent deliver broken
  fails 1
parent resume 1 fault ChannelClosed
parent take -1 at 2147483647 PW.CallP()
parent return -1
parent shut AbnormalShutdown
  fall 2147483647 AbnormalShutdown
child call -1/-1 to 2147483647 PW.CallP()
child deliver request 1
child take 1 at 2147483647 PW.CallC()
child die
finished
====
dead-after-return PW.ipdl PC 10000 child:4
----
parent call 1/1 to 2147483647 PW.CallC()
parent deliver request -1
parent deliver reply 1
parent resume 1 ok (20)
parent take -1 at 2147483647 PW.CallP()
parent return -1
  answer -1 ok (10)
parent deliver broken
parent shut AbnormalShutdown
  fall 2147483647 AbnormalShutdown
child call -1/-1 to 2147483647 PW.CallP()
child deliver request 1
child take 1 at 2147483647 PW.CallC()
child return 1
  answer 1 ok (20)
child die
finished
====
dead-after-reply PW.ipdl PC 10000 child:5
----
parent call 1/1 to 2147483647 PW.CallC()
parent deliver request -1
parent deliver reply 1
parent resume 1 ok (20)
parent take -1 at 2147483647 PW.CallP()
parent return -1
  answer -1 ok (10)
parent deliver broken
parent shut AbnormalShutdown
  fall 2147483647 AbnormalShutdown
child call -1/-1 to 2147483647 PW.CallP()
child deliver request 1
child take 1 at 2147483647 PW.CallC()
child return 1
  answer 1 ok (20)
child deliver reply -1
child die
finished
====
dead-after-all PW.ipdl PC 10000 child:6
----
parent call 1/1 to 2147483647 PW.CallC()
parent deliver request -1
parent deliver reply 1
parent resume 1 ok (20)
parent take -1 at 2147483647 PW.CallP()
parent return -1
  answer -1 ok (10)
parent deliver broken
parent shut AbnormalShutdown
  fall 2147483647 AbnormalShutdown
child call -1/-1 to 2147483647 PW.CallP()
child deliver request 1
child take 1 at 2147483647 PW.CallC()
child return 1
  answer 1 ok (20)
child deliver reply -1
child resume -1 ok (10)
child die
finished
====
never-dead PW.ipdl PC 10000 child:7
----
parent call 1/1 to 2147483647 PW.CallC()
parent deliver request -1
parent deliver reply 1
parent resume 1 ok (20)
parent take -1 at 2147483647 PW.CallP()
parent return -1
  answer -1 ok (10)
child call -1/-1 to 2147483647 PW.CallP()
child deliver request 1
child take 1 at 2147483647 PW.CallC()
child return 1
  answer 1 ok (20)
child deliver reply -1
child resume -1 ok (10)
finished
";
