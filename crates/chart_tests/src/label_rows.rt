//! Lines with the labels of their rows.

/// Each row: a line, and after ` | ` the side of the page on which its label is, how it is colored, and its words.
pub const LABELS: &str =
    "parent send 1 to 2147483647 PHub.Note(#4) | left plain send 1 PHub.Note(#4)
child send -1 to 4 PTab.Get() | right plain send -1 #4 PTab.Get()
child send -1 to -4 PTab.Get() | right plain send -1 #-4 PTab.Get()
parent call 1/1 to 2147483647 PHub.Call(7) | left plain call 1 PHub.Call(7)
child call -2/1 to 2147483647 PHub.Wait(@1 7) | right plain call -2 PHub.Wait(@1 7)
parent call 3/-1 to 4 PTab.Ping() | left plain call 3 #4 PTab.Ping()
parent refused InCall PHub.Note | left trouble refused InCall PHub.Note
child refused Closed close | right trouble refused Closed close
parent refused Closed resolve | left trouble refused Closed resolve
child refused DeadValue reject | right trouble refused DeadValue reject
child resolve 1 () | right plain resolve 1 ()
parent reject -1 | left plain reject -1
child keep 1 later | right plain keep 1 later
child let t 4 | right plain let t 4
parent close | left plain close
child die | right trouble die
parent deliver request -1 | left plain deliver request -1
child deliver reply -1 | right plain deliver reply -1
child deliver goodbye | right plain deliver goodbye
child deliver broken | right trouble deliver broken
parent take -1 at 4 PTab.Get() | left plain take -1 #4 PTab.Get()
parent take -2 at 2147483647 PHub.Wait(@1 7) | left plain take -2 PHub.Wait(@1 7)
child drop 1 at 4 PTab.Ping for 4 | right trouble drop 1 at 4 PTab.Ping for 4
parent take reply 1 | left plain take reply 1
child shut NormalShutdown | right plain shut NormalShutdown
child shut AbnormalShutdown | right plain shut AbnormalShutdown
parent return -1 | left plain return -1
parent resume 1 ok () | left plain resume 1 ok ()
parent resume 1 fault ChannelClosed | left trouble resume 1 fault ChannelClosed
child flush 2 | right plain flush 2
  built 4 PTab | left effect built 4 PTab
  replaced -1 | left trouble replaced -1
  answer -1 ok () | left effect answer -1 ok ()
  answer -1 fault ActorDestroyed | left trouble answer -1 fault ActorDestroyed
  fails 1 | left trouble fails 1
  settle 1 resolved () | left effect settle 1 resolved ()
  settle 1 rejected ResolverDestroyed | left trouble settle 1 rejected ResolverDestroyed
  fall 4 Deletion | left trouble fall 4 Deletion";

/// The number of rows.
pub const LABELS_COUNT: &str = "38";
