//! The objects to which zero bytes are copied, in the order of the text, behind others. Each is refused only for want of memory.

ghost use Rattle.std.specs.Prelude.{◌≡◌, ◌++◌, ◌&&◌, not, filter, map, option_map, IfOk, OnOk};
ghost use Rattle.build_flow_nodes.specs.Parts as parts;
ghost use Rattle.cx_core.specs.Views.{stmts_of, view_puts, view_stmt};
ghost use Rattle.whole_temporaries.specs.Types.{names_of, type_among, zeroed_inside};

use crate::types::{is_copied, leaves_bits};
use cr_base::{Items, Memory};
use cx_core::{CoreObject, CoreStmt, Put, StmtForm};
use rs_items::NameMap;
use std::alloc::Global;

/// The names and the objects of a program.
#[derive(Clone, Copy)]
pub(crate) struct Program<'a> {
    pub(crate) names: &'a NameMap,
    pub(crate) objects: &'a [CoreObject],
}

// The program has a bit-field member.
#[tactic(auto, unfolding(crate::specs::Types::names_of))]
fn has_bits(names: &NameMap) -> bool
    ensures { result ≡ (names_of names.now).has_bits }
{
    names.bits()
}

// Those of these objects that aren't scalars.
fn push_copied(
    alloc: Global,
    of: &Program<'_>,
    numbers: &[u32],
    zeroed: &mut Items<u32>,
) -> Result<(), Memory>
    ensures { OnOk result (zeroed.new ≡ zeroed.old ++ filter (λ number. parts.is_copied (names_of of.now.names.now) (type_among of.now.objects.now number)) numbers.now) }
{
    for number in numbers {
        if is_copied(alloc, of.names, of.objects, *number)? {
            zeroed.push(*number)?;
        }
    }
    Ok(())
}

// In a program with a bit-field member those of the objects of a block that aren't scalars.
fn push_begun(
    alloc: Global,
    of: &Program<'_>,
    numbers: &[u32],
    zeroed: &mut Items<u32>,
) -> Result<(), Memory>
    ensures { OnOk result (zeroed.new ≡ zeroed.old ++ parts.zeroed_of (names_of of.now.names.now) (type_among of.now.objects.now) numbers.now) }
{
    if has_bits(of.names) {
        push_copied(alloc, of, numbers, zeroed)
    } else {
        Ok(())
    }
}

// In another program an initialiser leaves bits of an object that isn't a scalar.
fn is_left(
    alloc: Global,
    of: &Program<'_>,
    number: u32,
    puts: &Option<Items<Put>>,
) -> Result<bool, Memory>
    ensures { IfOk result (λ is. is ≡ (not (names_of of.now.names.now).has_bits && (parts.is_copied (names_of of.now.names.now) (type_among of.now.objects.now number)
        && parts.leaves_bits_of (names_of of.now.names.now) (type_among of.now.objects.now number) (option_map view_puts puts.now)))) }
{
    if has_bits(of.names) {
        return Ok(false);
    }
    if is_copied(alloc, of.names, of.objects, number)? {
        return leaves_bits(of.names, of.objects, number, puts);
    }
    Ok(false)
}

fn push_declared(
    alloc: Global,
    of: &Program<'_>,
    number: u32,
    puts: &Option<Items<Put>>,
    zeroed: &mut Items<u32>,
) -> Result<(), Memory>
    ensures { OnOk result (zeroed.new ≡ zeroed.old ++ parts.zeroed_at (names_of of.now.names.now) (type_among of.now.objects.now) number (option_map view_puts puts.now)) }
{
    if is_left(alloc, of, number, puts)? {
        zeroed.push(number)
    } else {
        Ok(())
    }
}

/// Those of a statement.
#[cycle(zeroing)]
pub(crate) fn stmt_zeroed(
    alloc: Global,
    s: &CoreStmt,
    of: &Program<'_>,
    zeroed: &mut Items<u32>,
) -> Result<(), Memory>
    ensures { OnOk result (zeroed.new ≡ zeroed.old ++ parts.zeroed_in (names_of of.now.names.now) (type_among of.now.objects.now) (view_stmt s.now)) }
{
    push_begun(alloc, of, s.objects.as_slice(), zeroed)?;
    form_zeroed(alloc, s, of, zeroed)
}

// Those inside an open statement.
#[cycle(zeroing)]
fn form_zeroed(
    alloc: Global,
    s: &CoreStmt,
    of: &Program<'_>,
    zeroed: &mut Items<u32>,
) -> Result<(), Memory>
    ensures { OnOk result (zeroed.new ≡ zeroed.old ++ zeroed_inside (names_of of.now.names.now) (type_among of.now.objects.now) (view_stmt s.now)) }
{
    match &s.form {
        StmtForm::Label(_, body) => stmt_zeroed(alloc, body.get(), of, zeroed),
        StmtForm::Case(_, body) => stmt_zeroed(alloc, body.get(), of, zeroed),
        StmtForm::Default(body) => stmt_zeroed(alloc, body.get(), of, zeroed),
        StmtForm::Switch(_, body) => stmt_zeroed(alloc, body.get(), of, zeroed),
        StmtForm::While(_, body) => stmt_zeroed(alloc, body.get(), of, zeroed),
        StmtForm::Do(body, _) => stmt_zeroed(alloc, body.get(), of, zeroed),
        StmtForm::Block(stmts) => list_zeroed(alloc, stmts.as_slice(), of, zeroed),
        StmtForm::If(_, first, second) => {
            stmt_zeroed(alloc, first.get(), of, zeroed)?;
            match second {
                Some(other) => stmt_zeroed(alloc, other.get(), of, zeroed),
                None => Ok(()),
            }
        }
        StmtForm::For { first, body, .. } => {
            list_zeroed(alloc, first.as_slice(), of, zeroed)?;
            stmt_zeroed(alloc, body.get(), of, zeroed)
        }
        StmtForm::Begin(number, puts) => push_declared(alloc, of, *number, puts, zeroed),
        StmtForm::Expr(_)
        | StmtForm::Goto(_)
        | StmtForm::Continue
        | StmtForm::Break
        | StmtForm::Return(_) => Ok(()),
    }
}

// Those of the statements of a list.
#[cycle(zeroing)]
fn list_zeroed(
    alloc: Global,
    stmts: &[CoreStmt],
    of: &Program<'_>,
    zeroed: &mut Items<u32>,
) -> Result<(), Memory>
    ensures { OnOk result (zeroed.new ≡ zeroed.old ++ parts.zeroed_among (names_of of.now.names.now) (type_among of.now.objects.now) (stmts_of (map view_stmt stmts.now))) }
{
    for one in stmts {
        stmt_zeroed(alloc, one, of, zeroed)?;
    }
    Ok(())
}
