//! The depth of specifiers and type names (ISO C99, 6.7.2, 6.7.6).

ghost use Rattle.std.specs.Prelude.{◌≡◌, min, ◌-◌, ◌^◌, map, option_map};
ghost use Rattle.cx_tree.specs.Depth as depth;
ghost use Rattle.cx_tree.specs.Views.{enumerator_view, member_decl_view, member_declarator_view, member_declarators, option_enumerators, option_members, spec_view, specs, type_name_view};

use crate::depths::above::above_two;
use crate::depths::declarators::declarator_depth;
use crate::depths::exprs::option_depth;
use cr_base::Items;
use cx_tree::{Enumerator, MemberDecl, MemberDeclarator, Spec, TypeName};

#[cycle(tree_depths)]
pub fn type_name_depth(name: &TypeName) -> u64
    ensures { result ≡ min (depth.type_name_depth (type_name_view name.now)) (2 ^ 64 - 1) }
{
    above_two(
        specs_depth(name.specs.as_slice()),
        declarator_depth(name.declarator.get()),
    )
}

#[cycle(tree_depths)]
pub fn specs_depth(list: &[Spec]) -> u64
    ensures { result ≡ min (depth.specs_depth (specs (map spec_view list.now))) (2 ^ 64 - 1) }
{
    let mut deepest = 0u64;
    for spec in list {
        deepest = deepest.max(spec_depth(spec));
    }
    deepest
}

#[cycle(tree_depths)]
fn spec_depth(spec: &Spec) -> u64
    ensures { result ≡ min (depth.spec_depth (spec_view spec.now)) (2 ^ 64 - 1) }
{
    match spec {
        Spec::Key { .. } | Spec::Typedef { .. } => 1,
        Spec::Record { members, .. } => members_depth(members).saturating_add(1),
        Spec::Enum { list, .. } => enumerators_depth(list).saturating_add(1),
    }
}

#[cycle(tree_depths)]
fn members_depth(members: &Option<Items<MemberDecl>>) -> u64
    ensures { result ≡ min (depth.members_depth (option_members (option_map (map member_decl_view) members.now))) (2 ^ 64 - 1) }
{
    let Some(list) = members else {
        return 0;
    };
    let mut deepest = 0u64;
    for decl in list.as_slice() {
        deepest = deepest.max(member_decl_depth(decl));
    }
    deepest
}

#[cycle(tree_depths)]
fn member_decl_depth(decl: &MemberDecl) -> u64
    ensures { result ≡ min (depth.member_decl_depth (member_decl_view decl.now)) (2 ^ 64 - 1) }
{
    above_two(
        specs_depth(decl.specs.as_slice()),
        member_declarators_depth(decl.list.as_slice()),
    )
}

#[cycle(tree_depths)]
fn member_declarators_depth(list: &[MemberDeclarator]) -> u64
    ensures { result ≡ min (depth.member_declarators_depth (member_declarators (map member_declarator_view list.now))) (2 ^ 64 - 1) }
{
    let mut deepest = 0u64;
    for declarator in list {
        deepest = deepest.max(member_declarator_depth(declarator));
    }
    deepest
}

#[cycle(tree_depths)]
fn member_declarator_depth(declarator: &MemberDeclarator) -> u64
    ensures { result ≡ min (depth.member_declarator_depth (member_declarator_view declarator.now)) (2 ^ 64 - 1) }
{
    above_two(
        declarator_depth(declarator.declarator.get()),
        option_depth(&declarator.width),
    )
}

#[cycle(tree_depths)]
fn enumerators_depth(list: &Option<Items<Enumerator>>) -> u64
    ensures { result ≡ min (depth.enumerator_list_depth (option_enumerators (option_map (map enumerator_view) list.now))) (2 ^ 64 - 1) }
{
    let Some(list) = list else {
        return 0;
    };
    let mut deepest = 0u64;
    for enumerator in list.as_slice() {
        deepest = deepest.max(enumerator_depth(enumerator));
    }
    deepest
}

#[cycle(tree_depths)]
fn enumerator_depth(enumerator: &Enumerator) -> u64
    ensures { result ≡ min (depth.enumerator_depth (enumerator_view enumerator.now)) (2 ^ 64 - 1) }
{
    option_depth(&enumerator.value).saturating_add(1)
}
