//! Tests of the rules on sync lists.

use super::given::{files, note, program, show};
use findings::sort_findings;
use ipdl_syntax::Program;
use std::alloc::Global;
use std::test::Fail;
use sync_list::{ListFault, add_of_list, read_list};

/// The files of the programs, each with its name after `@ `, and then its text. A message of `PT`
/// is sync and async; two protocols of `two` have messages of one name.
const FILES: &str = "@ PL.ipdl
sync protocol PL {
parent:
  sync A();
  sync B();
  async C();
};
@ PN.ipdl
namespace mozilla {
namespace dom {
[NestedUpTo=inside_sync] sync protocol PN {
both:
  [Nested=inside_sync] sync S();
parent:
  async T();
};
}
}
@ PA.ipdl
protocol PA {
child:
  async A();
  async B() returns (bool b);
};
@ H.ipdlh
@ PQ.ipdl
namespace x { namespace y { sync protocol PQ { parent:
  sync S();
}; } }
@ PT.ipdl
sync protocol PT {
parent:
  sync M();
  async M();
};
@ two/PA.ipdl
sync protocol PA {
parent:
  sync A();
};
@ two/PB.ipdl
sync protocol PB {
parent:




  sync A();
  async B();
};
";

/// Rows of lists. The first line of each has the files of the program and the findings, and the
/// list follows. `====` separates rows, and a comment on the next rows follows `#`.
const LISTS: &str = "# The worked case.
====
PL.ipdl: 0:3:8 S1 1:1:1 S4 1:3:1 S2 1:5:1 S3 
[PL::B]
description =
[PL::C]
description = why
[PL::D]
description = gone

====
# No section: each sync message is unlisted, async ones are not.
====
PL.ipdl: 0:3:8 S1 0:4:8 S1 

====
PL.ipdl: 0:3:8 S1 0:4:8 S1 
# nothing
; listed
  

====
PA.ipdl: 

====
# All is well.
====
PL.ipdl: 
[PL::A]
description = a
[PL::B]
description = b

====
PL.ipdl: 
[PL::B]
description: b

[PL::A]
description: a

====
PL.ipdl: 
[PL::A]\r
description = a\r
[PL::B]  \r
description\t:b\r

====
# Descriptions: in a line that goes on; in a later line; of another word; of blanks.
====
PL.ipdl: 
[PL::A]
description =
  a
[PL::B]
description =
description = b

====
PL.ipdl: 1:4:1 S4 
[PL::A]
description = a
description =
[PL::B]
bug = 1

====
PL.ipdl: 1:1:1 S4 1:4:1 S4 
[PL::A]
bug =
  description = a
[PL::B]
description = \t

====
PL.ipdl: 1:1:1 S4 
[PL::A]
[PL::B]
description = b

====
# S2 and S3, each with and without S4.
====
PL.ipdl: 1:5:1 S2 
[PL::A]
description = a
[PL::B]
description = b
[PL::C]
description = c

====
PL.ipdl: 1:5:1 S2 1:5:1 S4 1:6:1 S3 1:6:1 S4 
[PL::A]
description = a
[PL::B]
description = b
[PL::C]
[PL::c]

====
PA.ipdl: 1:1:1 S2 
[PA::A]
description = a

====
PA.ipdl: 1:1:1 S3 
[PA::C]
description = c

====
# A protocol that is not read: no S2 and no S3, but S4.
====
PA.ipdl: 
[PX::A]
description = a

====
PA.ipdl: 1:1:1 S4 
[PX::A]

====
# The short name counts, whatever the namespaces; a nested sync message counts too.
====
PN.ipdl: 0:5:29 S1 

====
PN.ipdl: 
[PN::S]
description = s

====
PN.ipdl: 0:5:29 S1 1:1:1 S2 
[PN::T]
description = t

====
PN.ipdl: 0:5:29 S1 
[mozilla::S]
description = s

====
# Two files: the list is the file behind both, and a section counts for its protocol alone.
====
PL.ipdl PA.ipdl: 0:4:8 S1 2:1:1 S2 
[PA::A]
description = a
[PL::A]
description = a

====
PA.ipdl PL.ipdl: 2:3:1 S4 2:4:1 S3 
[PL::A]
description = a
[PL::B]
[PA::C]
description = c

====
PN.ipdl PL.ipdl: 0:5:29 S1 1:3:8 S1 1:4:8 S1 2:1:1 S3 2:3:1 S3 
[PL::S]
description = s
[PN::A]
description = a

====
# Findings on one section, and a description behind its word in the next line.
====
PL.ipdl: 1:4:1 S4 
[PL::A]
description=
 a
[PL::B]
other = b
====
PL.ipdl: 0:3:8 S1 0:4:8 S1 1:1:1 S3 1:1:1 S4 1:2:1 S2 1:2:1 S4 
[PL::D]
[PL::C]
====
# A protocol that is not read, among others.
====
PL.ipdl: 
[PX::C]
description=x
[PL::A]
description=x
[PL::B]
description=x
====
PL.ipdl: 1:1:1 S4 
[PX::D]
[PL::A]
description=x
[PL::B]
description=x
====
# The short name counts, behind a header.
====
H.ipdlh PQ.ipdl: 1:2:8 S1 

====
H.ipdlh PQ.ipdl: 
[PQ::S]
description=x
====
H.ipdlh PQ.ipdl: 1:2:8 S1 2:1:1 S3 
[PQ::T]
description=x
====
H.ipdlh PQ.ipdl: 1:2:8 S1 
[y::S]
description=x
====
# A message that is both sync and async.
====
PT.ipdl: 0:3:8 S1 

====
PT.ipdl: 1:1:1 S2 
[PT::M]
description=x
====
# Two protocols with a message of one name.
====
two/PA.ipdl two/PB.ipdl: 1:7:8 S1 
[PA::A]
description=x
====
two/PA.ipdl two/PB.ipdl: 0:3:8 S1 
[PB::A]
description=x
====
two/PA.ipdl two/PB.ipdl: 2:5:1 S3 
[PB::A]
description=x
[PA::A]
description=x
[PA::B]
description=x
====
two/PA.ipdl two/PB.ipdl: 2:2:1 S2 2:4:1 S4 

[PB::B]
description=x
[PB::A]
[PA::A]
description:
 d
====
two/PA.ipdl two/PB.ipdl: 
# PA
[PB::A]
description: x

[PA::A]
description: y
  z
";

/// Rows of lists with a program of no file, in the same form. The list is file 0, and there is no
/// protocol.
const ALONE: &str = ": 0:1:1 S4 \n[P::M]\n====\n: \n[P::M]\ndescription=x";

/// Texts that are not lists, each after the number of its first line that is not of the format (A2
/// at column 1 of the line).
const BAD_LISTS: &str = "1
x

====
3
[PL::A]
description = a
[PL::A]

====
1
description = a
[PL::A]

====
3
# c

 [PL::A]

====
3
[PL::A]
# c
 goes on

====
4
[PL::A]
description = a
# c
 goes on

====
4
[PL::A]
description = a

 goes on

====
2
[PL::A]
 goes on

====
1
[PL::sync]

====
1
[PL::A] # c

====
1
[a::b::c]

====
2
[PL::A]
description
";

/// Returns the findings of a program and a list, each as `FILE:LINE:COLUMN RULE` and a space.
fn show_findings(alloc: Global, program: &Program, text: &str) -> Result<String, Fail> {
    if text.len() > 1_048_576 || program.len() > 4096 {
        return Err("a list or a program that is too large".into());
    }
    let list = read_list(alloc, text.as_bytes()).map_err(|_| "no list")?;
    let mut found = Vec::new(alloc);
    add_of_list(alloc, program, &list, &mut found)?;
    Ok(show(alloc, &sort_findings(found))?)
}

/// Returns the program of these files. Each file is a word.
fn program_of(alloc: Global, words: &str) -> Result<Program, Fail> {
    if words.is_empty() {
        Ok(Program::from_vec(Vec::new(alloc)))
    } else {
        program(alloc, files(alloc, FILES, 0)?, words)
    }
}

/// Records the row of a list if it has other findings than expected.
fn check(alloc: Global, row: &str, wrong: &mut String) -> Result<(), Fail> {
    let (head, list) = row.split_once("\n").ok_or("a row without its list")?;
    let (words, wanted) = head.split_once(": ").ok_or("a row without its findings")?;
    let program = program_of(alloc, words)?;
    let found = show_findings(alloc, &program, list)?;
    Ok(note(row, found.as_str(), wanted, wrong)?)
}

/// Returns the rows of a table whose lists have other findings than expected. A row that begins
/// with `#` is a comment.
fn wrong_lists(alloc: Global, table: &str) -> Result<String, Fail> {
    let mut wrong = String::new(alloc);
    for row in table.split("\n====\n") {
        if !row.starts_with("#") {
            check(alloc, row, &mut wrong)?;
        }
    }
    Ok(wrong)
}

/// Returns the number of the first line of a text that is not of the format, or 0.
fn bad_line(alloc: Global, text: &str) -> u32 {
    if text.len() > 1_048_576 {
        return 0;
    }
    match read_list(alloc, text.as_bytes()) {
        Err(ListFault::Line(line)) => line,
        _ => 0,
    }
}

/// Returns the rows of a table whose texts have another first line that is not of the format than
/// expected.
fn wrong_lines(alloc: Global, table: &str) -> Result<String, Fail> {
    let mut wrong = String::new(alloc);
    for row in table.split("\n====\n") {
        let (line, list) = row.split_once("\n").ok_or("a row without its list")?;
        let found = bad_line(alloc, list);
        if found != line.parse::<u32>()? {
            writeln!(wrong, "{row}: {found}")?;
        }
    }
    Ok(wrong)
}

#[test]
fn lists(rt: HostRuntime) -> Result<(), Fail> {
    let alloc = rt.alloc();
    assert_eq!(rt; wrong_lists(alloc, LISTS)?.as_str(), "");
    assert_eq!(rt; wrong_lists(alloc, ALONE)?.as_str(), "");
    assert_eq!(rt; wrong_lines(alloc, BAD_LISTS)?.as_str(), "");
    Ok(())
}
