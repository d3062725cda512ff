//! Parses the tokens of a file by the grammar of its kind.

ghost use Rattle.std.specs.Prelude.{◌≡◌, ℕ, ◌-◌, ◌≤◌, length, IfOk, IfErr};
ghost use Rattle.ipdl_syntax.specs.Program.{Tree};
ghost use Rattle.ipdl_parse.specs.Faults.{IsFault, IsFaultAt};
ghost use Rattle.ipdl_parse.specs.Trees.{IsOnlyTree};

use grammar_laws::one_tree;
use ipdl_base::{Place, Token};
use ipdl_syntax::{FileKind, Unit};
use std::alloc::Global;
use tree_reader::{TreeRefusal, read_file};

/// Why tokens were not parsed.
#[derive(Clone, Copy, Debug, PartialEq, Eq)]
pub enum SyntaxFault {
    /// The tokens have no tree. `index` is the number of tokens of their longest prefix with which
    /// some file of this kind begins. `place` is that of the token after this prefix, or that of
    /// the end.
    Fault { index: usize, place: Place },
    /// Memory ran out.
    NoMemory,
}

/// Returns the tree of a file's tokens by the grammar of its kind (docs/grammar.md). `end` is the
/// place of the text's end. The tokens have this tree and no other, up to where its boxes lie.
///
/// If they have no tree, the error is `SyntaxFault::Fault` at the first token with which no file of
/// this kind continues, or at the end if some file begins with all of the tokens. The error may be
/// `SyntaxFault::NoMemory` for any tokens, also for tokens that have no tree.
pub fn parse(
    alloc: Global,
    tokens: &[Token],
    end: Place,
    kind: FileKind,
) -> Result<Unit, SyntaxFault>
    ensures tree { IfOk result (Tree kind tokens.now) }
    ensures only { IfOk result (IsOnlyTree kind tokens.now) }
    ensures fault { IfErr result (IsFault kind tokens.now end) }
{
    one_tree();
    match read_file(alloc, tokens, kind) {
        Ok(unit) => Ok(unit),
        Err(TreeRefusal::Left(left)) => Err(fault(tokens, end, left)),
        Err(TreeRefusal::NoMemory) => Err(SyntaxFault::NoMemory),
    }
}

/// Returns the fault at the first of the last `left` tokens, or at the end if `left` is 0.
fn fault(tokens: &[Token], end: Place, left: usize) -> SyntaxFault
    requires { left ≤ length tokens.now }
    ensures { IsFaultAt tokens.now end (length tokens.now - left) result }
{
    let index = tokens.len() - left;
    match tokens.get(index) {
        Some(token) => SyntaxFault::Fault {
            index,
            place: token.place(),
        },
        None => SyntaxFault::Fault { index, place: end },
    }
}
