//! The ways of worked scripts.

/// Worked scripts, each by the name of its worked run, with the limit of events, the most ways, and the whole text of the
/// exploration. `====` separates two rows. The texts at the limits from 1 to 5 are worked out from the rules of
/// docs/scripts.md, and not by the program.
pub const EXPLORATIONS: &str = "two-tells 10000 1000
finished PPCCCCCC
finished PPCCcCCC
finished PPCcCCCC
3 ways
====
two-tells 10000 3
finished PPCCCCCC
finished PPCCcCCC
finished PPCcCCCC
3 ways
====
two-tells 10000 2
finished PPCCCCCC
finished PPCCcCCC
2 ways and more
====
two-tells 1 1000
spent parent PP
spent parent PCP
spent child PCC
3 ways
====
two-tells 2 1000
spent child PPCCC
spent child PPCcC
spent child PCCC
3 ways
====
both-call-at-once 10000 1000
finished PCPCCCPPPPCC
finished PcCCPPCPPPCC
finished PcCCPCpPPPCC
finished CpPPPCCCCCPP
finished CpPPPCcCCCPP
5 ways
====
both-call-at-once 10000 5
finished PCPCCCPPPPCC
finished PcCCPPCPPPCC
finished PcCCPCpPPPCC
finished CpPPPCCCCCPP
finished CpPPPCcCCCPP
5 ways
====
both-call-at-once 10000 4
finished PCPCCCPPPPCC
finished PcCCPPCPPPCC
finished PcCCPCpPPPCC
finished CpPPPCCCCCPP
4 ways and more
====
both-call-at-once 10000 1
finished PCPCCCPPPPCC
1 way and more
====
both-call-at-once 1 1000
spent parent PCP
spent child PCC
spent child PcC
spent parent CpP
4 ways
====
both-call-at-once 2 1000
spent child PCPCC
spent child PCCC
spent child PcCC
spent parent CpPP
4 ways
====
both-call-at-once 3 1000
spent child PCPCCC
spent child PCCCC
spent child PcCCPPC
spent child PcCCPC
spent child PcCCC
spent parent CpPPP
spent parent CpPPCP
spent parent CpPPCCP
8 ways
====
both-call-at-once 4 1000
spent parent PCPCCCPPP
spent parent PcCCPPCPP
spent parent PcCCPCpPP
spent child CpPPPCCCC
spent child CpPPPCcCC
5 ways
====
both-call-at-once 5 1000
spent parent PCPCCCPPPP
spent parent PcCCPPCPPP
spent parent PcCCPCpPPP
spent child CpPPPCCCCC
spent child CpPPPCcCCC
5 ways
====
both-call-at-once 3 8
spent child PCPCCC
spent child PCCCC
spent child PcCCPPC
spent child PcCCPC
spent child PcCCC
spent parent CpPPP
spent parent CpPPCP
spent parent CpPPCCP
8 ways
====
both-call-at-once 3 7
spent child PCPCCC
spent child PCCCC
spent child PcCCPPC
spent child PcCCPC
spent child PcCCC
spent parent CpPPP
spent parent CpPPCP
7 ways and more
====
both-call-at-once 6 1000
finished PCPCCCPPPPCC
finished PcCCPPCPPPCC
finished PcCCPCpPPPCC
finished CpPPPCCCCCPP
finished CpPPPCcCCCPP
5 ways
====
kept-resolver 10000 1000
finished CPPPPCPPPPCC
finished CPPPCpPPPPCC
finished CPPCpPPPPPCC
finished CPCpPPPPPPCC
4 ways
====
kept-resolver 10000 3
finished CPPPPCPPPPCC
finished CPPPCpPPPPCC
finished CPPCpPPPPPCC
3 ways and more
====
four-nested-calls 10000 1000
finished PCPCCCPPPCCCPPPCCCPPPCCCPPPPCC
finished PcCCPPPCCCPPPCCCPPPCCCPPCPPPCC
finished PcCCPPPCCCPPPCCCPPPCCCPCpPPPCC
finished CpPPPCCCCCPPPCCCPPPCCCPPPCCCPP
finished CpPPPCcCCCPPPCCCPPPCCCPPPCCCPP
5 ways
====
overtaken-constructor 10000 1000
finished PPCPCCCPPPPCCCC
finished PPcCCCPCCCPPPPCC
finished PPcCCcCCPPCPPPCC
finished PPcCCcCCPCpPPPCC
finished PPcCcCCCPPCPPPCC
finished PPcCcCCCPCpPPPCC
finished PPccCCCCPPCPPPCC
finished PPccCCCCPCpPPPCC
finished PCCpPPPCCCCCCCPP
finished PCCpPPPCCCcCCCPP
finished PCCpPPPCCcCCCCPP
finished PCCpPPPCcCCCCCPP
finished PcCCCpPPPCCCCCPP
finished PcCCCpPPPCcCCCPP
finished CpPPPPCCCCCCCCPP
finished CpPPPPCCCCcCCCPP
finished CpPPPPCCCcCCCCPP
finished CpPPPPCcCCCCCCPP
finished CpPPPPCcCCcCCCPP
finished CpPPPPCcCcCCCCPP
finished CpPPPPCccCCCCCPP
21 ways
====
drops 10000 1000
finished CPPPPPCPPPCCCCCC
finished CPPPPPCPPPCCcCCC
finished CPPPPPCPPPcCCCCC
finished CPPPPPCPPPcCcCCC
finished CPPPPPCPPPccCCCC
finished CPPPPPcCCCPPPCCCC
finished CPPPPPcCCCPPPcCCC
finished CPPPPPcCCcCCCPPPC
finished CPPPPPcCcCCCCPPPC
finished CPPPPPccCCCCCPPPC
finished CPPPPCCCCCCCpPPP
finished CPPPPCCCpPPPcCCC
finished CPPPPCpPPPcCCCCC
finished CPPPPCpPPPcCcCCC
finished CPPPPCpPPPccCCCC
finished CPPPPcCCCCCCCpPPP
finished CPPPPcCCCpPPPcCCC
finished CPPPPcCCcCCCCpPPP
finished CPPPPcCcCCCCCpPPP
finished CPPPPccCCCCCCpPPP
finished CPPPCCCCpPPPPCCC
finished CPPPCCCpPPPPcCCC
finished CPPPCpPPPPcCCCCC
finished CPPPCpPPPPcCcCCC
finished CPPPCpPPPPccCCCC
finished CPPPcCCCCpPPPPCCC
finished CPPPcCCCpPPPPcCCC
finished CPPCCpPPPPPCCCCC
finished CPPCCpPPPPPCcCCC
finished CPPCpPPPPPcCCCCC
finished CPPCpPPPPPcCcCCC
finished CPPCpPPPPPccCCCC
finished CPCCpPPPPPPCCCCC
finished CPCCpPPPPPPCcCCC
finished CPCpPPPPPPcCCCCC
finished CPCpPPPPPPcCcCCC
finished CPCpPPPPPPccCCCC
37 ways
====
drops 10000 36
finished CPPPPPCPPPCCCCCC
finished CPPPPPCPPPCCcCCC
finished CPPPPPCPPPcCCCCC
finished CPPPPPCPPPcCcCCC
finished CPPPPPCPPPccCCCC
finished CPPPPPcCCCPPPCCCC
finished CPPPPPcCCCPPPcCCC
finished CPPPPPcCCcCCCPPPC
finished CPPPPPcCcCCCCPPPC
finished CPPPPPccCCCCCPPPC
finished CPPPPCCCCCCCpPPP
finished CPPPPCCCpPPPcCCC
finished CPPPPCpPPPcCCCCC
finished CPPPPCpPPPcCcCCC
finished CPPPPCpPPPccCCCC
finished CPPPPcCCCCCCCpPPP
finished CPPPPcCCCpPPPcCCC
finished CPPPPcCCcCCCCpPPP
finished CPPPPcCcCCCCCpPPP
finished CPPPPccCCCCCCpPPP
finished CPPPCCCCpPPPPCCC
finished CPPPCCCpPPPPcCCC
finished CPPPCpPPPPcCCCCC
finished CPPPCpPPPPcCcCCC
finished CPPPCpPPPPccCCCC
finished CPPPcCCCCpPPPPCCC
finished CPPPcCCCpPPPPcCCC
finished CPPCCpPPPPPCCCCC
finished CPPCCpPPPPPCcCCC
finished CPPCpPPPPPcCCCCC
finished CPPCpPPPPPcCcCCC
finished CPPCpPPPPPccCCCC
finished CPCCpPPPPPPCCCCC
finished CPCCpPPPPPPCcCCC
finished CPCpPPPPPPcCCCCC
finished CPCpPPPPPPcCcCCC
36 ways and more
====
lazy-outbox 10000 1000
finished CCCPPPPPPPPPCCPPP
finished CCCPPPPPPPPCCpPPP
finished CCCPPPPPPPCCpPPPP
finished CCCPPPPPCCpPPPPPP
finished CCCPPPPPCCpPPpPPP
finished CCCPPPPPCCpPpPPPP
finished CCCPPPPPCCppPPPPP
finished CCCPPPPCCpPPPPPPP
finished CCCPPPPCCpPPPpPPP
finished CCCPPPPCCpPPpPPPP
finished CCCPPPPCCpPpPPPPP
finished CCCPPPPCCppPPPPPP
finished CCCPPCCpPPPPPPPPP
finished CCCPPCCpPPPPPpPPP
finished CCCPPCCpPPPPpPPPP
finished CCCPPCCpPPpPPPPPP
finished CCCPPCCpPPpPPpPPP
finished CCCPPCCpPPpPpPPPP
finished CCCPPCCpPPppPPPPP
finished CCCPPCCpPpPPPPPPP
finished CCCPPCCpPpPPPpPPP
finished CCCPPCCpPpPPpPPPP
finished CCCPPCCpPpPpPPPPP
finished CCCPPCCpPppPPPPPP
finished CCCPPCCppPPPPPPPP
finished CCCPPCCppPPPPpPPP
finished CCCPPCCppPPPpPPPP
finished CCCPPCCppPPpPPPPP
finished CCCPPCCppPpPPPPPP
finished CCCPPCCpppPPPPPPP
finished CCCPCCpPPPPPPPPPP
finished CCCPCCpPPPPPPpPPP
finished CCCPCCpPPPPPpPPPP
finished CCCPCCpPPPpPPPPPP
finished CCCPCCpPPPpPPpPPP
finished CCCPCCpPPPpPpPPPP
finished CCCPCCpPPPppPPPPP
finished CCCPCCpPPpPPPPPPP
finished CCCPCCpPPpPPPpPPP
finished CCCPCCpPPpPPpPPPP
finished CCCPCCpPPpPpPPPPP
finished CCCPCCpPPppPPPPPP
finished CCCPCCpPpPPPPPPPP
finished CCCPCCpPpPPPPpPPP
finished CCCPCCpPpPPPpPPPP
finished CCCPCCpPpPPpPPPPP
finished CCCPCCpPpPpPPPPPP
finished CCCPCCpPppPPPPPPP
finished CCCPCCppPPPPPPPPP
finished CCCPCCppPPPPPpPPP
finished CCCPCCppPPPPpPPPP
finished CCCPCCppPPPpPPPPP
finished CCCPCCppPPpPPPPPP
finished CCCPCCppPpPPPPPPP
finished CCCPCCpppPPPPPPPP
55 ways
";
