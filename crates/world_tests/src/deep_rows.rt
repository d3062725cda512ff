//! A row of calls nested as deep as they can be.

/// A worked run of calls nested as deep as they can be, in the form of `worked_runs::RUNS`.
pub const DEEP: &str = "refused-too-deep PW.ipdl P 10000 -
parent main
send top PW.CallC()
end
child on PW.CallC
send top PW.CallP()
return (0)
end
parent on PW.CallP
send top PW.CallC()
return (0)
end
----
parent call 1/1 to 2147483647 PW.CallC()
child deliver request 1
child take 1 at 2147483647 PW.CallC()
child call -1/1 to 2147483647 PW.CallP()
parent deliver request -1
parent take -1 at 2147483647 PW.CallP()
parent call 2/1 to 2147483647 PW.CallC()
child deliver request 2
child take 2 at 2147483647 PW.CallC()
child call -2/1 to 2147483647 PW.CallP()
parent deliver request -2
parent take -2 at 2147483647 PW.CallP()
parent call 3/1 to 2147483647 PW.CallC()
child deliver request 3
child take 3 at 2147483647 PW.CallC()
child call -3/1 to 2147483647 PW.CallP()
parent deliver request -3
parent take -3 at 2147483647 PW.CallP()
parent call 4/1 to 2147483647 PW.CallC()
child deliver request 4
child take 4 at 2147483647 PW.CallC()
child call -4/1 to 2147483647 PW.CallP()
parent deliver request -4
parent take -4 at 2147483647 PW.CallP()
parent call 5/1 to 2147483647 PW.CallC()
child deliver request 5
child take 5 at 2147483647 PW.CallC()
child call -5/1 to 2147483647 PW.CallP()
parent deliver request -5
parent take -5 at 2147483647 PW.CallP()
parent call 6/1 to 2147483647 PW.CallC()
child deliver request 6
child take 6 at 2147483647 PW.CallC()
child call -6/1 to 2147483647 PW.CallP()
parent deliver request -6
parent take -6 at 2147483647 PW.CallP()
parent call 7/1 to 2147483647 PW.CallC()
child deliver request 7
child take 7 at 2147483647 PW.CallC()
child call -7/1 to 2147483647 PW.CallP()
parent deliver request -7
parent take -7 at 2147483647 PW.CallP()
parent call 8/1 to 2147483647 PW.CallC()
child deliver request 8
child take 8 at 2147483647 PW.CallC()
child call -8/1 to 2147483647 PW.CallP()
parent deliver request -8
parent take -8 at 2147483647 PW.CallP()
parent call 9/1 to 2147483647 PW.CallC()
child deliver request 9
child take 9 at 2147483647 PW.CallC()
child call -9/1 to 2147483647 PW.CallP()
parent deliver request -9
parent take -9 at 2147483647 PW.CallP()
parent call 10/1 to 2147483647 PW.CallC()
child deliver request 10
child take 10 at 2147483647 PW.CallC()
child call -10/1 to 2147483647 PW.CallP()
parent deliver request -10
parent take -10 at 2147483647 PW.CallP()
parent call 11/1 to 2147483647 PW.CallC()
child deliver request 11
child take 11 at 2147483647 PW.CallC()
child call -11/1 to 2147483647 PW.CallP()
parent deliver request -11
parent take -11 at 2147483647 PW.CallP()
parent call 12/1 to 2147483647 PW.CallC()
child deliver request 12
child take 12 at 2147483647 PW.CallC()
child call -12/1 to 2147483647 PW.CallP()
parent deliver request -12
parent take -12 at 2147483647 PW.CallP()
parent call 13/1 to 2147483647 PW.CallC()
child deliver request 13
child take 13 at 2147483647 PW.CallC()
child call -13/1 to 2147483647 PW.CallP()
parent deliver request -13
parent take -13 at 2147483647 PW.CallP()
parent call 14/1 to 2147483647 PW.CallC()
child deliver request 14
child take 14 at 2147483647 PW.CallC()
child call -14/1 to 2147483647 PW.CallP()
parent deliver request -14
parent take -14 at 2147483647 PW.CallP()
parent call 15/1 to 2147483647 PW.CallC()
child deliver request 15
child take 15 at 2147483647 PW.CallC()
child call -15/1 to 2147483647 PW.CallP()
parent deliver request -15
parent take -15 at 2147483647 PW.CallP()
parent call 16/1 to 2147483647 PW.CallC()
child deliver request 16
child take 16 at 2147483647 PW.CallC()
child call -16/1 to 2147483647 PW.CallP()
parent deliver request -16
parent take -16 at 2147483647 PW.CallP()
parent call 17/1 to 2147483647 PW.CallC()
child deliver request 17
child take 17 at 2147483647 PW.CallC()
child call -17/1 to 2147483647 PW.CallP()
parent deliver request -17
parent take -17 at 2147483647 PW.CallP()
parent call 18/1 to 2147483647 PW.CallC()
child deliver request 18
child take 18 at 2147483647 PW.CallC()
child call -18/1 to 2147483647 PW.CallP()
parent deliver request -18
parent take -18 at 2147483647 PW.CallP()
parent call 19/1 to 2147483647 PW.CallC()
child deliver request 19
child take 19 at 2147483647 PW.CallC()
child call -19/1 to 2147483647 PW.CallP()
parent deliver request -19
parent take -19 at 2147483647 PW.CallP()
parent call 20/1 to 2147483647 PW.CallC()
child deliver request 20
child take 20 at 2147483647 PW.CallC()
child call -20/1 to 2147483647 PW.CallP()
parent deliver request -20
parent take -20 at 2147483647 PW.CallP()
parent call 21/1 to 2147483647 PW.CallC()
child deliver request 21
child take 21 at 2147483647 PW.CallC()
child call -21/1 to 2147483647 PW.CallP()
parent deliver request -21
parent take -21 at 2147483647 PW.CallP()
parent call 22/1 to 2147483647 PW.CallC()
child deliver request 22
child take 22 at 2147483647 PW.CallC()
child call -22/1 to 2147483647 PW.CallP()
parent deliver request -22
parent take -22 at 2147483647 PW.CallP()
parent call 23/1 to 2147483647 PW.CallC()
child deliver request 23
child take 23 at 2147483647 PW.CallC()
child call -23/1 to 2147483647 PW.CallP()
parent deliver request -23
parent take -23 at 2147483647 PW.CallP()
parent call 24/1 to 2147483647 PW.CallC()
child deliver request 24
child take 24 at 2147483647 PW.CallC()
child call -24/1 to 2147483647 PW.CallP()
parent deliver request -24
parent take -24 at 2147483647 PW.CallP()
parent call 25/1 to 2147483647 PW.CallC()
child deliver request 25
child take 25 at 2147483647 PW.CallC()
child call -25/1 to 2147483647 PW.CallP()
parent deliver request -25
parent take -25 at 2147483647 PW.CallP()
parent call 26/1 to 2147483647 PW.CallC()
child deliver request 26
child take 26 at 2147483647 PW.CallC()
child call -26/1 to 2147483647 PW.CallP()
parent deliver request -26
parent take -26 at 2147483647 PW.CallP()
parent call 27/1 to 2147483647 PW.CallC()
child deliver request 27
child take 27 at 2147483647 PW.CallC()
child call -27/1 to 2147483647 PW.CallP()
parent deliver request -27
parent take -27 at 2147483647 PW.CallP()
parent call 28/1 to 2147483647 PW.CallC()
child deliver request 28
child take 28 at 2147483647 PW.CallC()
child call -28/1 to 2147483647 PW.CallP()
parent deliver request -28
parent take -28 at 2147483647 PW.CallP()
parent call 29/1 to 2147483647 PW.CallC()
child deliver request 29
child take 29 at 2147483647 PW.CallC()
child call -29/1 to 2147483647 PW.CallP()
parent deliver request -29
parent take -29 at 2147483647 PW.CallP()
parent call 30/1 to 2147483647 PW.CallC()
child deliver request 30
child take 30 at 2147483647 PW.CallC()
child call -30/1 to 2147483647 PW.CallP()
parent deliver request -30
parent take -30 at 2147483647 PW.CallP()
parent call 31/1 to 2147483647 PW.CallC()
child deliver request 31
child take 31 at 2147483647 PW.CallC()
child call -31/1 to 2147483647 PW.CallP()
parent deliver request -31
parent take -31 at 2147483647 PW.CallP()
parent call 32/1 to 2147483647 PW.CallC()
child deliver request 32
child take 32 at 2147483647 PW.CallC()
child refused TooDeep PW.CallP
child return 32
  answer 32 ok (0)
parent deliver reply 32
parent resume 32 ok (0)
parent return -31
  answer -31 ok (0)
child deliver reply -31
child resume -31 ok (0)
child return 31
  answer 31 ok (0)
parent deliver reply 31
parent resume 31 ok (0)
parent return -30
  answer -30 ok (0)
child deliver reply -30
child resume -30 ok (0)
child return 30
  answer 30 ok (0)
parent deliver reply 30
parent resume 30 ok (0)
parent return -29
  answer -29 ok (0)
child deliver reply -29
child resume -29 ok (0)
child return 29
  answer 29 ok (0)
parent deliver reply 29
parent resume 29 ok (0)
parent return -28
  answer -28 ok (0)
child deliver reply -28
child resume -28 ok (0)
child return 28
  answer 28 ok (0)
parent deliver reply 28
parent resume 28 ok (0)
parent return -27
  answer -27 ok (0)
child deliver reply -27
child resume -27 ok (0)
child return 27
  answer 27 ok (0)
parent deliver reply 27
parent resume 27 ok (0)
parent return -26
  answer -26 ok (0)
child deliver reply -26
child resume -26 ok (0)
child return 26
  answer 26 ok (0)
parent deliver reply 26
parent resume 26 ok (0)
parent return -25
  answer -25 ok (0)
child deliver reply -25
child resume -25 ok (0)
child return 25
  answer 25 ok (0)
parent deliver reply 25
parent resume 25 ok (0)
parent return -24
  answer -24 ok (0)
child deliver reply -24
child resume -24 ok (0)
child return 24
  answer 24 ok (0)
parent deliver reply 24
parent resume 24 ok (0)
parent return -23
  answer -23 ok (0)
child deliver reply -23
child resume -23 ok (0)
child return 23
  answer 23 ok (0)
parent deliver reply 23
parent resume 23 ok (0)
parent return -22
  answer -22 ok (0)
child deliver reply -22
child resume -22 ok (0)
child return 22
  answer 22 ok (0)
parent deliver reply 22
parent resume 22 ok (0)
parent return -21
  answer -21 ok (0)
child deliver reply -21
child resume -21 ok (0)
child return 21
  answer 21 ok (0)
parent deliver reply 21
parent resume 21 ok (0)
parent return -20
  answer -20 ok (0)
child deliver reply -20
child resume -20 ok (0)
child return 20
  answer 20 ok (0)
parent deliver reply 20
parent resume 20 ok (0)
parent return -19
  answer -19 ok (0)
child deliver reply -19
child resume -19 ok (0)
child return 19
  answer 19 ok (0)
parent deliver reply 19
parent resume 19 ok (0)
parent return -18
  answer -18 ok (0)
child deliver reply -18
child resume -18 ok (0)
child return 18
  answer 18 ok (0)
parent deliver reply 18
parent resume 18 ok (0)
parent return -17
  answer -17 ok (0)
child deliver reply -17
child resume -17 ok (0)
child return 17
  answer 17 ok (0)
parent deliver reply 17
parent resume 17 ok (0)
parent return -16
  answer -16 ok (0)
child deliver reply -16
child resume -16 ok (0)
child return 16
  answer 16 ok (0)
parent deliver reply 16
parent resume 16 ok (0)
parent return -15
  answer -15 ok (0)
child deliver reply -15
child resume -15 ok (0)
child return 15
  answer 15 ok (0)
parent deliver reply 15
parent resume 15 ok (0)
parent return -14
  answer -14 ok (0)
child deliver reply -14
child resume -14 ok (0)
child return 14
  answer 14 ok (0)
parent deliver reply 14
parent resume 14 ok (0)
parent return -13
  answer -13 ok (0)
child deliver reply -13
child resume -13 ok (0)
child return 13
  answer 13 ok (0)
parent deliver reply 13
parent resume 13 ok (0)
parent return -12
  answer -12 ok (0)
child deliver reply -12
child resume -12 ok (0)
child return 12
  answer 12 ok (0)
parent deliver reply 12
parent resume 12 ok (0)
parent return -11
  answer -11 ok (0)
child deliver reply -11
child resume -11 ok (0)
child return 11
  answer 11 ok (0)
parent deliver reply 11
parent resume 11 ok (0)
parent return -10
  answer -10 ok (0)
child deliver reply -10
child resume -10 ok (0)
child return 10
  answer 10 ok (0)
parent deliver reply 10
parent resume 10 ok (0)
parent return -9
  answer -9 ok (0)
child deliver reply -9
child resume -9 ok (0)
child return 9
  answer 9 ok (0)
parent deliver reply 9
parent resume 9 ok (0)
parent return -8
  answer -8 ok (0)
child deliver reply -8
child resume -8 ok (0)
child return 8
  answer 8 ok (0)
parent deliver reply 8
parent resume 8 ok (0)
parent return -7
  answer -7 ok (0)
child deliver reply -7
child resume -7 ok (0)
child return 7
  answer 7 ok (0)
parent deliver reply 7
parent resume 7 ok (0)
parent return -6
  answer -6 ok (0)
child deliver reply -6
child resume -6 ok (0)
child return 6
  answer 6 ok (0)
parent deliver reply 6
parent resume 6 ok (0)
parent return -5
  answer -5 ok (0)
child deliver reply -5
child resume -5 ok (0)
child return 5
  answer 5 ok (0)
parent deliver reply 5
parent resume 5 ok (0)
parent return -4
  answer -4 ok (0)
child deliver reply -4
child resume -4 ok (0)
child return 4
  answer 4 ok (0)
parent deliver reply 4
parent resume 4 ok (0)
parent return -3
  answer -3 ok (0)
child deliver reply -3
child resume -3 ok (0)
child return 3
  answer 3 ok (0)
parent deliver reply 3
parent resume 3 ok (0)
parent return -2
  answer -2 ok (0)
child deliver reply -2
child resume -2 ok (0)
child return 2
  answer 2 ok (0)
parent deliver reply 2
parent resume 2 ok (0)
parent return -1
  answer -1 ok (0)
child deliver reply -1
child resume -1 ok (0)
child return 1
  answer 1 ok (0)
parent deliver reply 1
parent resume 1 ok (0)
finished
";
