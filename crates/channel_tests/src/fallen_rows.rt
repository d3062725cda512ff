//! Rows on the law Fallen.

/// Lists of lines that the law Fallen does not hold of, in the same form.
pub const FALLEN: &str = "PR-03-b PR.ipdl ynyyn
Living: built by no constructor; Fallen: built under a fallen one
child send -1 to 2147483647 PR.PK()
  built 4 PK
child send -2 to 4 PK.PK()
  built 8 PK
child send -3 to 4 PK.Get()
child send -4 to 4 PK.PK()
  built 12 PK
child send -5 to 12 PK.Get()
parent deliver request -1
parent deliver request -2
parent take -1 at 2147483647 PR.PK()
  built 4 PK
child send -6 to 4 PK.__delete__()
  fall 8 AncestorDeletion
  settle -5 rejected ActorDestroyed
  fall 12 AncestorDeletion
  settle -3 rejected ActorDestroyed
  fall 4 Deletion
  built 16 PK
parent deliver request -3
child send -8 to 16 PK.__delete__()
  fall 16 Deletion
parent deliver request -4
====
PR-04-b PR.ipdl yyyyn
Fallen: fall beside the deleted
child send -1 to 2147483647 PR.PK()
  built 4 PK
parent deliver request -1
child send -2 to 4 PK.__delete__()
  fall 4 Deletion
parent deliver request -2
child send -3 to 2147483647 PR.PK()
  built 8 PK
child send -4 to 8 PK.PK()
  built 12 PK
parent deliver request -3
parent deliver request -4
child send -5 to 2147483647 PR.PK()
  built 16 PK
parent take -1 at 2147483647 PR.PK()
  built 4 PK
parent deliver request -5
child send -6 to 16 PK.Get()
parent deliver request -6
child send -7 to 8 PK.PK()
  built 20 PK
parent deliver request -7
child send -8 to 16 PK.__delete__()
  fall 12 AncestorDeletion
  settle -6 rejected ActorDestroyed
  fall 16 Deletion
parent deliver request -8
child send -9 to 8 PK.__delete__()
  fall 20 AncestorDeletion
  fall 8 Deletion
====
POwn-01-d POwn.ipdl yyyyn
Fallen: fall elsewhere
child send -1 to 2147483647 POwn.PTmp()
  built 4 PTmp
parent deliver request -1
parent take -1 at 2147483647 POwn.PTmp()
  built 4 PTmp
  fall 4 AncestorDeletion
child send -2 to 4 PTmp.Hi()
parent deliver request -2
====
POwn-03-d POwn.ipdl yyyyn
Fallen: fall of one that does not live
child close
  fall 2147483647 NormalShutdown
parent deliver goodbye
parent shut NormalShutdown
  fall 2147483647 NormalShutdown
  fall 2147483647 NormalShutdown
child let a 4
child refused Closed PTmp.__delete__
child let a 2147483647
====
PR-02-b PR.ipdl yyyyn
Fallen: manager first
child send -1 to 2147483647 PR.PK()
  built 4 PK
parent deliver request -1
parent take -1 at 2147483647 PR.PK()
  built 4 PK
child send -2 to 4 PK.Get()
parent return -1
child refused DeadActor PR.PK
child send -3 to 4 PK.PK()
  built 8 PK
child send -4 to 4 PK.__delete__()
  settle -2 rejected ActorDestroyed
  fall 4 Deletion
====
POwn-03-a POwn.ipdl yyyyn
Fallen: over
child close
parent deliver goodbye
parent shut NormalShutdown
  fall 2147483647 NormalShutdown
child let a 4
child refused Closed PTmp.__delete__
child let a 2147483647
====
POwn-03-b POwn.ipdl yyyyn
Fallen: reason in a closing
child close
  fall 2147483647 AbnormalShutdown
parent deliver goodbye
parent shut NormalShutdown
  fall 2147483647 NormalShutdown
child let a 4
child refused Closed PTmp.__delete__
child let a 2147483647
====
PR-02-f PR.ipdl yyyyn
Fallen: reason in a delete
child send -1 to 2147483647 PR.PK()
  built 4 PK
parent deliver request -1
parent take -1 at 2147483647 PR.PK()
  built 4 PK
child send -2 to 4 PK.Get()
parent return -1
child refused DeadActor PR.PK
child send -3 to 4 PK.PK()
  built 8 PK
child send -4 to 2147483647 PK.__delete__()
  fall 8 AncestorDeletion
  settle -2 rejected ActorDestroyed
  fall 4 Deletion
====
POwn-04-c POwn.ipdl yyyyn
Fallen: younger sibling first
child send -1 to 2147483647 POwn.PTmp()
  built 4 PTmp
child send -2 to 2147483647 POwn.PTmp()
  built 8 PTmp
parent close
  fall 2147483647 NormalShutdown
child deliver goodbye
child shut NormalShutdown
  fall 8 NormalShutdown
  fall 4 NormalShutdown
  fall 2147483647 NormalShutdown
child let a 0
child refused Closed close
parent refused Closed close
";

/// The number of rows.
pub const FALLEN_COUNT: &str = "9";
