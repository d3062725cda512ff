//! The law that a program that breaks no rule has a schema.

ghost use Rattle.schema_existence.specs.Laws.{CleanProgramsHaveSchemas};

/// The law of schemas: a program that breaks no rule on types, messages and managers has a schema.
pub fn clean_programs_have_schemas()
    ensures { CleanProgramsHaveSchemas }
{}
