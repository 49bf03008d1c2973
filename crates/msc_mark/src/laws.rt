//! A law of marks, over the definitions alone. The function has no code: a caller calls it for the
//! law.

ghost use Rattle.msc_mark.specs.Statements.{CommentsAreThoseOfStatements};

/// The comments that marks are read from are those of the statements of a draft's events, event by
/// event. The marks of a text are those in these comments, each with the number of its event, and
/// the first faulty comment is the first of these.
pub fn comments_are_those_of_statements()
    ensures { CommentsAreThoseOfStatements }
{}
