//! Rows of calls of `explore`.

/// Calls of the command that lists the ways of a script, in the form of `call_rows`: the worked ones by name, and others. Each
/// also has `RACE`, after its own files.
pub const EXPLORATIONS: &str = "explore-both-call
explore race.ids PW.ipdl
0
@ finished PCPCCCPPPPCC
finished PcCCPPCPPPCC
finished PcCCPCpPPPCC
finished CpPPPCCCCCPP
finished CpPPPCcCCCPP
5 ways
@ ====
explore-both-call-five-ways
explore --ways 5 race.ids PW.ipdl
0
@ finished PCPCCCPPPPCC
finished PcCCPPCPPPCC
finished PcCCPCpPPPCC
finished CpPPPCCCCCPP
finished CpPPPCcCCCPP
5 ways
@ ====
explore-both-call-four-ways
explore --ways 4 race.ids PW.ipdl
5
@ finished PCPCCCPPPPCC
finished PcCCPPCPPPCC
finished PcCCPCpPPPCC
finished CpPPPCCCCCPP
4 ways and more
@ ====
explore-both-call-limit-3
explore --limit 3 race.ids PW.ipdl
0
@ spent child PCPCCC
spent child PCCCC
spent child PcCCPPC
spent child PcCCPC
spent child PcCCC
spent parent CpPPP
spent parent CpPPCP
spent parent CpPPCCP
8 ways
@ ====
a script that does nothing has one way, without a letter
explore none.ids PW.ipdl
0
@ finished
1 way
@ @ none.ids
====
one way of several
explore --ways 1 race.ids PW.ipdl
5
@ finished PCPCCCPPPPCC
1 way and more
@ ====
a bad script
explore bad.ids PW.ipdl
7
@ @ bad.ids:1:1: K1 not a statement
@ bad.ids
nonsense
====
no script
explore absent.ids PW.ipdl
7
@ @ absent.ids:0:0: K9 script too large or absent
====
the report comes before the script
explore absent.ids PF.ipdl
1
@ @ PF.ipdl:3:14: B1 unknown type
@ PF.ipdl
protocol PF {
parent:
  async Flag(Bool b);
};
====
no way is no number of ways
explore --ways 0 race.ids PW.ipdl
2
@ @ usage
====
a death
explore --die child:9 race.ids PW.ipdl
2
@ @ usage
";
