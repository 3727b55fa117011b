ghost use Rattle.straight_lift.specs.Laws.{ExpressionIsLifted, StatementsAreLifted, StatementIsLifted, BodiesGive, BodiesDontMatter, StatementsAreSilent, NumbersStay};

/// Law: what the statements that are written for a typed expression show is backed by the expression, and
/// they show all that it shows; behind them worlds stand for each other again, and what is written for the
/// value stands for it, there and later, where nothing that it read is written. What the expression's marks
/// don't say that it wrote is in the program's memory what it was.
pub fn lifted_expression()
    ensures { ExpressionIsLifted }
{}

/// Law: the same of typed statements: where the function gives back a number, so does the crate's.
pub fn lifted_statements()
    ensures { StatementsAreLifted }
{}

/// Law: without a unit of their budget statements of a crate show nothing.
pub fn silent_statements()
    ensures { StatementsAreSilent }
{}

/// Law: the same of one typed statement, as the body of a function.
pub fn lifted_statement()
    ensures { StatementIsLifted }
{}

/// Law: a typed body of a function with a scalar result that ends with a `return` comes to its end only by
/// giving back a value.
pub fn bodies_give()
    ensures { BodiesGive }
{}

/// Law: what is written for a typed statement runs the same whatever the bodies of the crate's own functions
/// do, since it calls none of them.
pub fn bodies_dont_matter()
    ensures { BodiesDontMatter }
{}

/// Law: the numbers of temporaries that a statement takes don't depend on any name, so that a table without
/// temporaries tells how many there will be.
pub fn numbers_stay()
    ensures { NumbersStay }
{}
