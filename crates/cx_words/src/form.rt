/// Which declarators may stand at a place (ISO C99, 6.7.5 and 6.7.6).
#[derive(Clone, Copy)]
pub enum Form {
    /// One with a name, as in a declaration or of a member.
    Named,
    /// One without, as in a type name.
    Abstract,
    /// Either, as in a parameter. A typedef name in parentheses is a list of parameters there (6.7.5.3p11).
    Parameter,
}
