//! Rows on the law Prefix.

/// Lists of lines that the law Prefix does not hold of. Each row: its name, the file of its protocol, and
/// whether each law holds of it, in the order Prefix, Living, Waits, Settled, Fallen; on the next line
/// what breaks the laws that do not hold; and then its lines. `====` is between two rows.
pub const PREFIX: &str = "POwn-02-a POwn.ipdl nyyyy
Prefix: deliver
parent send 1 to 2147483647 POwn.Mark(null)
child deliver request 1
child take 1 at 2147483647 POwn.Mark(null)
child return 1
parent deliver request -1
====
PLz-01-c PLz.ipdl nyyyy
Prefix: take again
child send -1 to 2147483647 PLz.Lz(21)
child flush 1
parent deliver request -1
parent let b 4
child send -2 to 2147483647 PLz.Now()
parent deliver request -2
parent take -1 at 2147483647 PLz.Lz(21)
parent take -1 at 2147483647 PLz.Lz(21)
====
PR-01-d PR.ipdl nnyyy
Prefix: deliver + take of no request; Living: built by no constructor
child send 1 to 2147483647 PR.PK()
  built 4 PK
parent deliver request -1
parent take -1 at 2147483647 PR.PK()
  built 4 PK
child send -2 to 4 PK.PK()
  built 8 PK
====
PQ-01-a PQ.ipdl nyyyy
Prefix: take of what was not delivered
child send -1 to 2147483647 PQ.Tell(28)
child send -2 to 2147483647 PQ.Get()
parent take -1 at 2147483647 PQ.Tell(28)
parent deliver request -1
child send -3 to 2147483647 PQ.Tell(10)
parent deliver request -2
child send -4 to 2147483647 PQ.Get()
====
PC-03-d PC.ipdl nyyyy
Prefix: take of what was replaced
child let a 4
child send -1 to 2147483647 PC.Ask(88)
child send -2 to 2147483647 PC.Ask(96)
parent deliver request -1
parent take -1 at 2147483647 PC.Ask(88)
parent keep -1 a
parent deliver request -2
parent resolve -1 (true)
child deliver reply -1
child take reply -1
  settle -1 resolved (true)
child send -3 to 2147483647 PC.Ask(47)
parent return -1
parent deliver request -3
  replaced -2
  answer -2 fault ResolverDestroyed
child deliver reply -2
parent take -2 at 2147483647 PC.Ask(96)
parent keep -3 b
parent resolve -3 (true)
child deliver reply -3
====
PC-01-e PC.ipdl nyyyy
Prefix: take reply again
child send -1 to 2147483647 PC.Ask(24)
parent deliver request -1
parent take -1 at 2147483647 PC.Ask(24)
parent resolve -1 (false)
child deliver reply -1
child take reply -1
  settle -1 resolved (false)
child take reply -1
====
PC-01-f PC.ipdl nyyyy
Prefix: take reply of what was not delivered
child send -1 to 2147483647 PC.Ask(24)
parent deliver request -1
parent take -1 at 2147483647 PC.Ask(24)
parent resolve -1 (false)
child take reply -1
  settle -1 resolved (false)
child deliver reply -1
====
PLz-01-b PLz.ipdl nyyyy
Prefix: take with another message
child send -1 to 2147483647 PLz.Lz(21)
child flush 1
parent deliver request -1
parent let b 4
child send -2 to 2147483647 PLz.Now()
parent deliver request -2
parent take -2 at 2147483647 PLz.Lz(21)
====
PM-02-d PM.ipdl nyyyy
Prefix: take with another route
child call -1/-1 to 2147483647 PM.Ask()
parent deliver request -1
parent send 1 to 2147483647 PM.PN()
  built 6 PN
parent take -1 at 6 PM.Ask()
parent refused NestedInNormal PN.Ping
child deliver request 1
parent refused NestedInNormal PN.Ping
parent refused NestedInNormal PN.Ping
parent refused NestedInNormal PN.Ping
parent refused NestedInNormal PN.Ping
====
PQ-01-c PQ.ipdl nyyyy
Prefix: take with other values
child send -1 to 2147483647 PQ.Tell(30)
child send -2 to 2147483647 PQ.Get()
parent deliver request -1
parent take -1 at 2147483647 PQ.Tell(28)
child send -3 to 2147483647 PQ.Tell(10)
parent deliver request -2
child send -4 to 2147483647 PQ.Get()
";

/// The number of rows.
pub const PREFIX_COUNT: &str = "10";
