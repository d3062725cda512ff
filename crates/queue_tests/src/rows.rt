//! Relays, with what each half prints.

/// Relays. Each row has its name, the name of its script and the death of an end; and then what it
/// prints, the lines of the parent before those of the child, worked out from the rules. `====`
/// separates two rows.
pub const RELAYS: &str = "two-tells tells -
parent send 1 to 2147483647 PW.Tell(5)
parent send 2 to 2147483647 PW.Tell(6)
child deliver request 1
child take 1 at 2147483647 PW.Tell(5)
child return 1
child deliver request 2
child take 2 at 2147483647 PW.Tell(6)
child return 2
finished
====
race race -
parent call 1/1 to 2147483647 PW.CallC()
parent deliver request -1
parent deliver reply 1
parent resume 1 ok (20)
parent take -1 at 2147483647 PW.CallP()
parent return -1
  answer -1 ok (10)
child call -1/-1 to 2147483647 PW.CallP()
child deliver request 1
child take 1 at 2147483647 PW.CallC()
child return 1
  answer 1 ok (20)
child deliver reply -1
child resume -1 ok (10)
finished
====
calls-both-ways calls -
parent send 1 to 2147483647 PW.Tell(5)
parent call 2/2 to 2147483647 PW.CallC()
parent deliver request -1
parent deliver reply 2
parent resume 2 ok (20)
parent take -1 at 2147483647 PW.CallP()
parent return -1
  answer -1 ok (10)
parent send 3 to 2147483647 PW.Tell(6)
parent call 4/4 to 2147483647 PW.CallC()
parent deliver request -2
parent deliver reply 4
parent resume 4 ok (21)
parent take -2 at 2147483647 PW.CallP()
parent return -2
  answer -2 ok (11)
child call -1/-1 to 2147483647 PW.CallP()
child deliver request 1
child deliver request 2
child take 2 at 2147483647 PW.CallC()
child return 2
  answer 2 ok (20)
child deliver reply -1
child resume -1 ok (10)
child take 1 at 2147483647 PW.Tell(5)
child return 1
child call -2/-2 to 2147483647 PW.CallP()
child deliver request 3
child deliver request 4
child take 4 at 2147483647 PW.CallC()
child return 4
  answer 4 ok (21)
child deliver reply -2
child resume -2 ok (11)
child take 3 at 2147483647 PW.Tell(6)
child return 3
finished
====
calls-with-values values -
parent call 1/1 to 2147483647 PHub.Call(7)
parent deliver request -1
parent deliver request -2
parent take -2 at 2147483647 PHub.PTab(null)
  built 4 PTab
parent return -2
  answer -2 ok (true)
parent deliver reply 1
parent resume 1 ok (#4)
parent take -1 at 2147483647 PHub.Wait(@1 5)
parent return -1
  answer -1 ok (@1 5)
child call -1/-1 to 2147483647 PHub.Wait(@1 5)
child deliver request 1
child take 1 at 2147483647 PHub.Call(7)
child call -2/1 to 2147483647 PHub.PTab(null)
  built 4 PTab
child deliver reply -2
child resume -2 ok (true)
child return 1
  answer 1 ok (#4)
child deliver reply -1
child resume -1 ok (@1 5)
finished
====
nested-call nested -
parent call 1/1 to 2147483647 PW.CallC()
parent deliver request -1
parent take -1 at 2147483647 PW.CallP()
parent return -1
  answer -1 ok (10)
parent deliver reply 1
parent resume 1 ok (20)
child deliver request 1
child take 1 at 2147483647 PW.CallC()
child call -1/1 to 2147483647 PW.CallP()
child deliver reply -1
child resume -1 ok (10)
child return 1
  answer 1 ok (20)
finished
====
nested-twice nested-twice -
parent deliver request -1
parent take -1 at 2147483647 PW.CallP()
parent call 1/-1 to 2147483647 PW.CallC()
parent deliver request -2
parent take -2 at 2147483647 PW.CallP()
parent return -2
  answer -2 ok (3)
parent deliver reply 1
parent resume 1 ok (2)
parent return -1
  answer -1 ok (1)
child call -1/-1 to 2147483647 PW.CallP()
child deliver request 1
child take 1 at 2147483647 PW.CallC()
child call -2/-1 to 2147483647 PW.CallP()
child deliver reply -2
child resume -2 ok (3)
child return 1
  answer 1 ok (2)
child deliver reply -1
child resume -1 ok (1)
finished
====
parent-closes parent-closes -
parent call 1/1 to 2147483647 PW.CallC()
parent deliver reply 1
parent resume 1 ok (20)
parent close
  fall 2147483647 NormalShutdown
child deliver request 1
child take 1 at 2147483647 PW.CallC()
child return 1
  answer 1 ok (20)
child deliver goodbye
child shut NormalShutdown
  fall 2147483647 NormalShutdown
finished
====
child-closes child-closes -
parent deliver request -1
parent take -1 at 2147483647 PW.CallP()
parent return -1
  answer -1 ok (10)
parent deliver goodbye
parent shut NormalShutdown
  fall 2147483647 NormalShutdown
child call -1/-1 to 2147483647 PW.CallP()
child deliver reply -1
child resume -1 ok (10)
child close
  fall 2147483647 NormalShutdown
finished
====
handler-closes handler-closes -
parent call 1/1 to 2147483647 PW.CallC()
parent deliver goodbye
  fails 1
parent resume 1 fault ChannelClosed
parent shut NormalShutdown
  fall 2147483647 NormalShutdown
child deliver request 1
child take 1 at 2147483647 PW.CallC()
child close
  fall 2147483647 NormalShutdown
child return 1
finished
====
both-close both-close -
parent send 1 to 2147483647 PW.Tell(5)
parent send 2 to 2147483647 PW.Tell(6)
parent close
  fall 2147483647 NormalShutdown
child send -1 to 2147483647 PW.Poke()
child close
  fall 2147483647 NormalShutdown
finished
====
calls-back calls-back -
finished
====
tells-back tells-back -
finished
====
parent-dead-0 race parent:0
parent die
child call -1/-1 to 2147483647 PW.CallP()
child deliver broken
  fails -1
child resume -1 fault ChannelClosed
child shut AbnormalShutdown
  fall 2147483647 AbnormalShutdown
finished
====
parent-dead-1 race parent:1
parent call 1/1 to 2147483647 PW.CallC()
parent die
child call -1/-1 to 2147483647 PW.CallP()
child deliver request 1
child take 1 at 2147483647 PW.CallC()
child return 1
  answer 1 ok (20)
child deliver broken
  fails -1
child resume -1 fault ChannelClosed
child shut AbnormalShutdown
  fall 2147483647 AbnormalShutdown
finished
====
parent-dead-2 race parent:2
parent call 1/1 to 2147483647 PW.CallC()
parent deliver request -1
parent die
child call -1/-1 to 2147483647 PW.CallP()
child deliver request 1
child take 1 at 2147483647 PW.CallC()
child return 1
  answer 1 ok (20)
child deliver broken
  fails -1
child resume -1 fault ChannelClosed
child shut AbnormalShutdown
  fall 2147483647 AbnormalShutdown
finished
====
parent-dead-3 race parent:3
parent call 1/1 to 2147483647 PW.CallC()
parent deliver request -1
parent deliver reply 1
parent die
child call -1/-1 to 2147483647 PW.CallP()
child deliver request 1
child take 1 at 2147483647 PW.CallC()
child return 1
  answer 1 ok (20)
child deliver broken
  fails -1
child resume -1 fault ChannelClosed
child shut AbnormalShutdown
  fall 2147483647 AbnormalShutdown
finished
====
parent-dead-4 race parent:4
parent call 1/1 to 2147483647 PW.CallC()
parent deliver request -1
parent deliver reply 1
parent resume 1 ok (20)
parent die
child call -1/-1 to 2147483647 PW.CallP()
child deliver request 1
child take 1 at 2147483647 PW.CallC()
child return 1
  answer 1 ok (20)
child deliver broken
  fails -1
child resume -1 fault ChannelClosed
child shut AbnormalShutdown
  fall 2147483647 AbnormalShutdown
finished
====
parent-dead-5 race parent:5
parent call 1/1 to 2147483647 PW.CallC()
parent deliver request -1
parent deliver reply 1
parent resume 1 ok (20)
parent take -1 at 2147483647 PW.CallP()
parent die
child call -1/-1 to 2147483647 PW.CallP()
child deliver request 1
child take 1 at 2147483647 PW.CallC()
child return 1
  answer 1 ok (20)
child deliver broken
  fails -1
child resume -1 fault ChannelClosed
child shut AbnormalShutdown
  fall 2147483647 AbnormalShutdown
finished
====
parent-dead-6 race parent:6
parent call 1/1 to 2147483647 PW.CallC()
parent deliver request -1
parent deliver reply 1
parent resume 1 ok (20)
parent take -1 at 2147483647 PW.CallP()
parent return -1
  answer -1 ok (10)
parent die
child call -1/-1 to 2147483647 PW.CallP()
child deliver request 1
child take 1 at 2147483647 PW.CallC()
child return 1
  answer 1 ok (20)
child deliver reply -1
child resume -1 ok (10)
child deliver broken
child shut AbnormalShutdown
  fall 2147483647 AbnormalShutdown
finished
====
parent-dead-7 race parent:7
parent call 1/1 to 2147483647 PW.CallC()
parent deliver request -1
parent deliver reply 1
parent resume 1 ok (20)
parent take -1 at 2147483647 PW.CallP()
parent return -1
  answer -1 ok (10)
child call -1/-1 to 2147483647 PW.CallP()
child deliver request 1
child take 1 at 2147483647 PW.CallC()
child return 1
  answer 1 ok (20)
child deliver reply -1
child resume -1 ok (10)
finished
====
child-dead-0 nested child:0
parent call 1/1 to 2147483647 PW.CallC()
parent deliver broken
  fails 1
parent resume 1 fault ChannelClosed
parent shut AbnormalShutdown
  fall 2147483647 AbnormalShutdown
child die
finished
====
child-dead-1 nested child:1
parent call 1/1 to 2147483647 PW.CallC()
parent deliver broken
  fails 1
parent resume 1 fault ChannelClosed
parent shut AbnormalShutdown
  fall 2147483647 AbnormalShutdown
child deliver request 1
child die
finished
====
child-dead-2 nested child:2
parent call 1/1 to 2147483647 PW.CallC()
parent deliver broken
  fails 1
parent resume 1 fault ChannelClosed
parent shut AbnormalShutdown
  fall 2147483647 AbnormalShutdown
child deliver request 1
child take 1 at 2147483647 PW.CallC()
child die
finished
====
child-dead-3 nested child:3
parent call 1/1 to 2147483647 PW.CallC()
parent deliver request -1
parent take -1 at 2147483647 PW.CallP()
parent return -1
  answer -1 ok (10)
parent deliver broken
  fails 1
parent resume 1 fault ChannelClosed
parent shut AbnormalShutdown
  fall 2147483647 AbnormalShutdown
child deliver request 1
child take 1 at 2147483647 PW.CallC()
child call -1/1 to 2147483647 PW.CallP()
child die
finished
====
child-dead-4 nested child:4
parent call 1/1 to 2147483647 PW.CallC()
parent deliver request -1
parent take -1 at 2147483647 PW.CallP()
parent return -1
  answer -1 ok (10)
parent deliver broken
  fails 1
parent resume 1 fault ChannelClosed
parent shut AbnormalShutdown
  fall 2147483647 AbnormalShutdown
child deliver request 1
child take 1 at 2147483647 PW.CallC()
child call -1/1 to 2147483647 PW.CallP()
child deliver reply -1
child die
finished
====
child-dead-5 nested child:5
parent call 1/1 to 2147483647 PW.CallC()
parent deliver request -1
parent take -1 at 2147483647 PW.CallP()
parent return -1
  answer -1 ok (10)
parent deliver broken
  fails 1
parent resume 1 fault ChannelClosed
parent shut AbnormalShutdown
  fall 2147483647 AbnormalShutdown
child deliver request 1
child take 1 at 2147483647 PW.CallC()
child call -1/1 to 2147483647 PW.CallP()
child deliver reply -1
child resume -1 ok (10)
child die
finished
====
child-dead-6 nested child:6
parent call 1/1 to 2147483647 PW.CallC()
parent deliver request -1
parent take -1 at 2147483647 PW.CallP()
parent return -1
  answer -1 ok (10)
parent deliver reply 1
parent resume 1 ok (20)
parent deliver broken
parent shut AbnormalShutdown
  fall 2147483647 AbnormalShutdown
child deliver request 1
child take 1 at 2147483647 PW.CallC()
child call -1/1 to 2147483647 PW.CallP()
child deliver reply -1
child resume -1 ok (10)
child return 1
  answer 1 ok (20)
child die
finished
====
child-dead-7 nested child:7
parent call 1/1 to 2147483647 PW.CallC()
parent deliver request -1
parent take -1 at 2147483647 PW.CallP()
parent return -1
  answer -1 ok (10)
parent deliver reply 1
parent resume 1 ok (20)
child deliver request 1
child take 1 at 2147483647 PW.CallC()
child call -1/1 to 2147483647 PW.CallP()
child deliver reply -1
child resume -1 ok (10)
child return 1
  answer 1 ok (20)
finished
";

/// A relay: its name, the name of its script, the death of an end, and what it prints.
#[derive(Clone, Copy)]
pub struct Row<'a> {
    /// The name of the row.
    pub name: &'a str,
    /// The name of its script.
    pub script: &'a str,
    /// The death of an end, or `-`.
    pub death: &'a str,
    /// What it prints.
    pub printed: &'a str,
}

/// Returns the row that a text spells, or `None` if it is not a row.
pub fn row_of(text: &str) -> Option<Row<'_>> {
    let (head, printed) = text.split_once("\n")?;
    let (name, head) = head.split_once(" ")?;
    let (script, death) = head.split_once(" ")?;
    Some(Row {
        name,
        script,
        death,
        printed,
    })
}

/// Returns the row of the table with this name, if there is one.
pub fn row_named(name: &str) -> Option<Row<'static>> {
    for text in RELAYS.split("====\n") {
        let row = row_of(text)?;
        if row.name == name {
            return Some(row);
        }
    }
    None
}
