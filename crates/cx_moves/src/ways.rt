//! Ways into statements (ISO C99, 6.8.1, 6.8.4.2 and 6.8.6.1).

ghost use Rattle.std.specs.Prelude.{◌≡◌, [], map, List, Option, Some, option_map, IfOk};
ghost use Rattle.std.specs.Option.{option_copied};
ghost use Rattle.cx_core.specs.Trees as tree;
ghost use Rattle.cx_core.specs.Views.{otherwise_of, stmts_of, view_stmt};
ghost use Rattle.cx_mean.specs.Paths as path;
ghost use Rattle.cx_mean.specs.Paths.{CWay};
ghost use Rattle.cx_moves.specs.declared.ways.Opened.{Opened};
ghost use Rattle.cx_moves.specs.Ways.{IsInside, IsWay, form_of, is_aimed_at, is_of_case, is_of_default, is_of_label, no_expr, opening, passes, view_rest, view_target, view_way, way_in_else};

use cr_base::{Boxed, Int, Items, Memory, Name};
use cx_core::{CoreStmt, StmtForm};

/// What is left of an open statement behind the part of it that runs.
#[derive(Clone, Copy)]
pub enum Rest<'a> {
    Nothing,
    /// The statements that follow in a block.
    Statements(&'a [CoreStmt]),
    /// Those that follow in the first part of a `for`.
    Firsts(&'a [CoreStmt]),
    /// The end of a turn of a loop.
    Turn,
}

/// What a jump leads to.
#[derive(Clone, Copy)]
pub enum Target<'t> {
    /// The statement with this label.
    Label(&'t Name),
    /// The `case` of this value.
    Case(&'t Int),
    /// `default`.
    Default,
}

/// A statement that a way opens, and what is then left of it.
#[derive(Clone, Copy)]
pub struct Opened<'a> {
    pub stmt: &'a CoreStmt,
    pub rest: Rest<'a>,
}

/// Where a way inside an open statement ends, and what is then left of that statement.
#[derive(Clone, Copy)]
pub struct Inside<'a> {
    pub target: &'a CoreStmt,
    pub rest: Rest<'a>,
}

fn is_label(target: Target<'_>, own: &Name) -> bool
    ensures { result ≡ is_of_label (view_target target.entry) own.now }
{
    match target {
        Target::Label(name) => name.bytes() == own.bytes(),
        Target::Case(_) => false,
        Target::Default => false,
    }
}

fn is_case(target: Target<'_>, own: &Int) -> bool
    ensures { result ≡ is_of_case (view_target target.entry) own.now }
{
    match target {
        Target::Label(_) => false,
        Target::Case(value) => *value == *own,
        Target::Default => false,
    }
}

fn is_default(target: Target<'_>) -> bool
    ensures { result ≡ is_of_default (view_target target.entry) }
{
    matches!(target, Target::Default)
}

// Whether a jump out of a `switch` that stands around another one leads into that.
fn passes_switch(target: Target<'_>) -> bool
    ensures { result ≡ passes (view_target target.entry) }
{
    matches!(target, Target::Label(_))
}

// Whether a statement is what a jump leads to.
fn is_target(stmt: &CoreStmt, target: Target<'_>) -> bool
    ensures { result ≡ is_aimed_at (view_target target.entry) (form_of (view_stmt stmt.now)) }
{
    match &stmt.form {
        StmtForm::Label(name, _) => is_label(target, name),
        StmtForm::Case(value, _) => is_case(target, value),
        StmtForm::Default(_) => is_default(target),
        _ => false,
    }
}

/// The way from a statement on to what a jump leads to: the statement where it ends, if it is there, and those that
/// it opens, the innermost first.
///
/// # Errors
///
/// `Memory` for want of memory.
#[cycle(ways)]
pub fn way_to<'a>(
    stmt: &'a CoreStmt,
    target: Target<'_>,
    way: &mut Items<Opened<'a>>,
) -> Result<Option<&'a CoreStmt>, Memory>
    requires { way.old ≡ [] }
    ensures { IfOk result (λ found. IsWay (option_copied found) way.new (path.way_to (view_target target.entry) (view_stmt stmt.now))) }
{
    if is_target(stmt, target) {
        return Ok(Some(stmt));
    }
    match way_in(stmt, target, way) {
        Ok(Some(inside)) => through(stmt, inside, way),
        Ok(None) => Ok(None),
        Err(memory) => Err(memory),
    }
}

// A statement is opened on the way.
fn through<'a>(
    stmt: &'a CoreStmt,
    inside: Inside<'a>,
    way: &mut Items<Opened<'a>>,
) -> Result<Option<&'a CoreStmt>, Memory>
    ensures { IfOk result (λ found. IsWay (option_copied found) way.new (Some (opening (record { stmt = stmt.entry; rest = inside.entry.rest }) (view_way inside.entry.target.now way.old)))) }
{
    match way.push(Opened {
        stmt,
        rest: inside.rest,
    }) {
        Ok(()) => Ok(Some(inside.target)),
        Err(memory) => Err(memory),
    }
}

// The way to a statement from one around it, of which this is then left.
#[cycle(ways)]
fn way_behind<'a>(
    body: &'a CoreStmt,
    rest: Rest<'a>,
    target: Target<'_>,
    way: &mut Items<Opened<'a>>,
) -> Result<Option<Inside<'a>>, Memory>
    requires { way.old ≡ [] }
    ensures { IfOk result (λ found. IsInside found way.new (option_map (λ to. record { rest = view_rest rest.entry; way = to }) (path.way_to (view_target target.entry) (view_stmt body.now)))) }
{
    match way_to(body, target, way) {
        Ok(Some(target)) => Ok(Some(Inside { target, rest })),
        Ok(None) => Ok(None),
        Err(memory) => Err(memory),
    }
}

/// The way inside an open statement.
///
/// # Errors
///
/// `Memory` for want of memory.
#[cycle(ways)]
pub fn way_in<'a>(
    stmt: &'a CoreStmt,
    target: Target<'_>,
    way: &mut Items<Opened<'a>>,
) -> Result<Option<Inside<'a>>, Memory>
    requires { way.old ≡ [] }
    ensures { IfOk result (λ found. IsInside found way.new (path.way_in (view_target target.entry) (form_of (view_stmt stmt.now)))) }
{
    match &stmt.form {
        StmtForm::Label(_, body) | StmtForm::Case(_, body) | StmtForm::Default(body) => {
            way_behind(body.get(), Rest::Nothing, target, way)
        }
        StmtForm::Block(stmts) => way_among(stmts.as_slice(), target, way),
        StmtForm::If(_, body, otherwise) => match way_to(body.get(), target, way) {
            Ok(Some(target)) => Ok(Some(Inside {
                target,
                rest: Rest::Nothing,
            })),
            Ok(None) => way_in_else(otherwise, target, way),
            Err(memory) => Err(memory),
        },
        StmtForm::Switch(_, body) => way_in_switch(body.get(), target, way),
        StmtForm::While(_, body) | StmtForm::Do(body, _) | StmtForm::For { body, .. } => {
            way_behind(body.get(), Rest::Turn, target, way)
        }
        StmtForm::Expr(_)
        | StmtForm::Goto(_)
        | StmtForm::Continue
        | StmtForm::Break
        | StmtForm::Return(_)
        | StmtForm::Begin(_, _) => Ok(None),
    }
}

#[cycle(ways)]
fn way_in_switch<'a>(
    body: &'a CoreStmt,
    target: Target<'_>,
    way: &mut Items<Opened<'a>>,
) -> Result<Option<Inside<'a>>, Memory>
    requires { way.old ≡ [] }
    ensures { IfOk result (λ found. IsInside found way.new (path.way_in (view_target target.entry) (tree.switch no_expr (view_stmt body.now)))) }
{
    if !passes_switch(target) {
        return Ok(None);
    }
    way_behind(body, Rest::Nothing, target, way)
}

#[cycle(ways)]
fn way_in_else<'a>(
    otherwise: &'a Option<Boxed<CoreStmt>>,
    target: Target<'_>,
    way: &mut Items<Opened<'a>>,
) -> Result<Option<Inside<'a>>, Memory>
    requires { way.old ≡ [] }
    ensures { IfOk result (λ found. IsInside found way.new (way_in_else (view_target target.entry) (otherwise_of (option_map view_stmt otherwise.now)))) }
{
    match otherwise {
        Some(body) => way_behind(body.get(), Rest::Nothing, target, way),
        None => Ok(None),
    }
}

#[cycle(ways)]
fn way_among<'a>(
    stmts: &'a [CoreStmt],
    target: Target<'_>,
    way: &mut Items<Opened<'a>>,
) -> Result<Option<Inside<'a>>, Memory>
    requires { way.old ≡ [] }
    ensures { IfOk result (λ found. IsInside found way.new (path.way_in (view_target target.entry) (tree.block (stmts_of (map view_stmt stmts.now))))) }
{
    let mut index = 0;
    for stmt in stmts {
        index += 1;
        match way_to(stmt, target, way) {
            Ok(Some(found)) => {
                return Ok(Some(Inside {
                    target: found,
                    rest: Rest::Statements(&stmts[index..]),
                }));
            }
            Ok(None) => {}
            Err(memory) => return Err(memory),
        }
    }
    Ok(None)
}
