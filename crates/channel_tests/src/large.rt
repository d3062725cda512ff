//! A test of the laws on a long history.
use super::chains::waiting;
use super::given::laws;
use history_of_text::{history_of, schema_of};
use std::alloc::{AllocError, Global};
use std::test::Fail;

/// The number of times that the parent asks the child, which does not answer.
const ROUNDS: u32 = 667;

/// Appends the lines of a question that is settled.
fn push_round(n: u32, out: &mut String) -> Result<(), AllocError> {
    write!(
        out,
        "parent send {n} to 2147483647 PQ.Get()
child deliver request {n}
child take {n} at 2147483647 PQ.Get()
child return {n}
  answer {n} fault ResolverDestroyed
parent deliver reply {n}
parent take reply {n}
  settle {n} rejected ResolverDestroyed
"
    )
}

/// The lines of a closing.
const CLOSING: &str = "parent close
  fall 2147483647 NormalShutdown
child deliver goodbye
child shut NormalShutdown
  fall 2147483647 NormalShutdown
";

/// The lines of that many questions, each settled before the next, and of a closing: some 2,000
/// events of each end.
fn lines(alloc: Global) -> Result<String, AllocError> {
    let mut text = String::new(alloc);
    for round in 0..ROUNDS {
        push_round(round + 1, &mut text)?;
    }
    text.push_str(CLOSING)?;
    Ok(text)
}

/// Which laws hold of the long history, and which calls wait after it.
fn shown(alloc: Global) -> Result<String, Fail> {
    let schema = schema_of(alloc, "PQ.ipdl")?;
    let history = history_of(alloc, &schema, lines(alloc)?.as_str())?;
    let mut shown = laws(alloc, &schema, &history)?;
    let calls = waiting(alloc, &schema, &history, history.lines().len())?;
    write!(shown, " {calls}")?;
    Ok(shown)
}

/// The laws of a long history are decided in a test's time.
#[test]
fn long_history(rt: HostRuntime) -> Result<(), Fail> {
    assert_eq!(rt; shown(rt.alloc())?.as_str(), "yyyyy nobody");
    Ok(())
}
