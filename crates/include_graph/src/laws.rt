//! The law of the reach.

ghost use Rattle.include_graph.specs.Laws.{OneReach};

use grammar_laws::one_tree;
use ipdl_lex::one_answer;

/// The law of the reach: the same files, words and path have at most one reach.
pub fn one_reach()
    ensures { OneReach }
{
    one_tree();
    one_answer();
}
