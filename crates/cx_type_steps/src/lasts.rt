//! Whether a part of a list of members is its last one (ISO C99, 6.7.2.1p2), and a parameter the only one.

ghost use Rattle.std.specs.Prelude.{◌≡◌, ◌&&◌, ◌+◌, ◌<◌, length, map, drop};
ghost use Rattle.cx_rules.specs.Pieces.{no_more_decls, no_more_declarators, is_single};
ghost use Rattle.cx_tree.specs.Views.{member_decl_view, member_decls as member_decl_trees, member_declarator_view, member_declarators as member_declarator_trees, param_view, params as param_trees};

use cx_tree::{MemberDecl, MemberDeclarator, Param};

/// Whether no declaration stands behind one of a list of members.
pub fn ends_decls(list: &[MemberDecl], index: usize) -> bool
    requires { index < length list.now }
    ensures { result ≡ no_more_decls (member_decl_trees (map member_decl_view (drop (index + 1) list.now))) }
{
    list[index + 1..].is_empty()
}

/// Whether a list that is the last one has no declarator behind one.
pub fn ends_declarators(is_last: bool, list: &[MemberDeclarator], index: usize) -> bool
    requires { index < length list.now }
    ensures { result ≡ (is_last && no_more_declarators (member_declarator_trees (map member_declarator_view (drop (index + 1) list.now)))) }
{
    is_last && list[index + 1..].is_empty()
}

/// Whether there is one parameter alone, without `...` (ISO C99, 6.7.5.3p10).
pub fn is_single(params: &[Param], variadic: bool) -> bool
    ensures { result ≡ is_single (param_trees (map param_view params.now)) variadic }
{
    match params {
        [_] => !variadic,
        _ => false,
    }
}
