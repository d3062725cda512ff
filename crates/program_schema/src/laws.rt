//! The laws of the schema of a program.

ghost use Rattle.program_schema.specs.Laws.{OneSchema, CleanIsSound};

/// The law of the one schema: a program has at most one schema, up to where boxes lie.
pub fn one_schema()
    ensures { OneSchema }
{}

/// The law of soundness: the schema of a program that breaks no rule is sound. The parts that take
/// a schema depend on nothing else.
pub fn clean_is_sound()
    ensures { CleanIsSound }
{}
