//! Laws of scopes. The functions do nothing: their contracts are the laws.

ghost use Rattle.cx_scope.specs.Laws.{ScopesBegin, ScopesEnd};

/// Law: `enter` behind all declarations so far begins a scope, and `back` to their number and `enter` at where the scope around it
/// began end it (ISO C99, 6.2.1p4).
pub fn scopes_begin_and_end()
    ensures begin { ScopesBegin }
    ensures end { ScopesEnd }
{}
