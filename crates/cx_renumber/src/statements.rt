//! Statements with the numbers of the program.

ghost use Rattle.std.specs.Prelude.{◌≡◌, map, IfOk, option_map};
ghost use Rattle.cx_core.specs.Trees.{stmt, label, case, default, block, expression, if_then, switch, while, do_while, for_loop, goto, returns, begin};
ghost use Rattle.cx_core.specs.Views.{otherwise_of, stmts_of, view_expr, view_puts, view_stmt};
ghost use Rattle.cx_renumber.specs.Numbers.{expr_there, puts_there, stmt_there, stmts_there, else_there};
ghost use Rattle.cx_renumber.specs.Views.{holding, view_numbers};

use crate::expressions::{expr_there, puts_there};
use crate::numbers::{Numbers, let_go};
use cr_base::{Boxed, Int, Items, Memory, Name};
use cx_core::{CoreExpr, CoreStmt, Put, StmtForm};
use std::alloc::Global;

/// A statement (ISO C99, 6.8). Refused only for want of memory.
#[cycle(there)]
pub fn stmt_there(
    alloc: Global,
    numbers: &Numbers,
    one: &CoreStmt,
) -> Result<Boxed<CoreStmt>, Memory>
    ensures { IfOk result (λ made. view_stmt made ≡ stmt_there (view_numbers numbers.now) (view_stmt one.now)) }
{
    match &one.form {
        StmtForm::Label(name, inner) => label_there(
            alloc,
            numbers,
            one,
            name,
            inner,
            stmt_there(alloc, numbers, inner.get()),
        ),
        StmtForm::Case(value, inner) => case_there(
            alloc,
            numbers,
            one,
            *value,
            inner,
            stmt_there(alloc, numbers, inner.get()),
        ),
        StmtForm::Default(inner) => default_there(
            alloc,
            numbers,
            one,
            inner,
            stmt_there(alloc, numbers, inner.get()),
        ),
        StmtForm::Block(all) => block_there(
            alloc,
            numbers,
            one,
            all,
            stmts_there(alloc, numbers, all.as_slice()),
        ),
        StmtForm::Expr(value) => expression_there(alloc, numbers, one, value),
        StmtForm::If(test, first, second) => if_there(
            alloc,
            numbers,
            one,
            test,
            first,
            stmt_there(alloc, numbers, first.get()),
            second,
            else_there(alloc, numbers, second),
        ),
        StmtForm::Switch(on, body) => switch_there(
            alloc,
            numbers,
            one,
            on,
            body,
            stmt_there(alloc, numbers, body.get()),
        ),
        StmtForm::While(test, body) => while_there(
            alloc,
            numbers,
            one,
            test,
            body,
            stmt_there(alloc, numbers, body.get()),
        ),
        StmtForm::Do(body, test) => do_there(
            alloc,
            numbers,
            one,
            body,
            stmt_there(alloc, numbers, body.get()),
            test,
        ),
        StmtForm::For {
            first,
            test,
            next,
            body,
        } => for_there(
            alloc,
            numbers,
            one,
            first,
            stmts_there(alloc, numbers, first.as_slice()),
            test,
            next,
            body,
            stmt_there(alloc, numbers, body.get()),
        ),
        StmtForm::Goto(name) => goto_there(alloc, numbers, one, name),
        StmtForm::Continue => made(alloc, numbers, one, StmtForm::Continue),
        StmtForm::Break => made(alloc, numbers, one, StmtForm::Break),
        StmtForm::Return(value) => return_there(alloc, numbers, one, value),
        StmtForm::Begin(number, puts) => begin_there(alloc, numbers, one, *number, puts),
    }
}

// A statement of this form in the place of another, whose block holds the same objects.
fn made(
    alloc: Global,
    numbers: &Numbers,
    one: &CoreStmt,
    form: StmtForm,
) -> Result<Boxed<CoreStmt>, Memory>
    ensures { IfOk result (λ made. view_stmt made ≡ holding (map (view_numbers numbers.now).object_for one.now.objects)
        (view_stmt (record { place = one.now.place; objects = one.now.objects; form = form }))) }
{
    match numbers.objects_for(alloc, one.objects.as_slice()) {
        Ok(objects) => Boxed::new(
            alloc,
            CoreStmt {
                place: one.place,
                objects,
                form,
            },
        ),
        Err(why) => {
            let_go(form);
            Err(why)
        }
    }
}

fn option_there(
    alloc: Global,
    numbers: &Numbers,
    value: &Option<Boxed<CoreExpr>>,
) -> Result<Option<Boxed<CoreExpr>>, Memory>
    ensures { IfOk result (λ made. option_map view_expr made ≡ option_map (expr_there (view_numbers numbers.now)) (option_map view_expr value.now)) }
{
    match value {
        Some(value) => Ok(Some(expr_there(alloc, numbers, value.get())?)),
        None => Ok(None),
    }
}

/// What an initialiser stores, where there is one. Refused only for want of memory.
#[tactic(auto, using(crate::proofs::Lists::puts_are))]
pub(crate) fn option_puts_there(
    alloc: Global,
    numbers: &Numbers,
    puts: &Option<Items<Put>>,
) -> Result<Option<Items<Put>>, Memory>
    ensures { IfOk result (λ made. option_map view_puts made ≡ option_map (puts_there (view_numbers numbers.now)) (option_map view_puts puts.now)) }
{
    match puts {
        Some(puts) => Ok(Some(puts_there(alloc, numbers, puts.as_slice())?)),
        None => Ok(None),
    }
}

fn label_there(
    alloc: Global,
    numbers: &Numbers,
    one: &CoreStmt,
    name: &Name,
    _inner: &Boxed<CoreStmt>,
    inner: Result<Boxed<CoreStmt>, Memory>,
) -> Result<Boxed<CoreStmt>, Memory>
    requires inner_there { IfOk inner (λ there. view_stmt there ≡ stmt_there (view_numbers numbers.now) (view_stmt _inner.now)) }
    ensures { IfOk result (λ made. view_stmt made ≡ stmt one.now.place (map (view_numbers numbers.now).object_for one.now.objects)
        (label name.now (stmt_there (view_numbers numbers.now) (view_stmt _inner.now)))) }
{
    let inner = inner?;
    let name = name.copy()?;
    made(alloc, numbers, one, StmtForm::Label(name, inner))
}

fn case_there(
    alloc: Global,
    numbers: &Numbers,
    one: &CoreStmt,
    value: Int,
    _inner: &Boxed<CoreStmt>,
    inner: Result<Boxed<CoreStmt>, Memory>,
) -> Result<Boxed<CoreStmt>, Memory>
    requires inner_there { IfOk inner (λ there. view_stmt there ≡ stmt_there (view_numbers numbers.now) (view_stmt _inner.now)) }
    ensures { IfOk result (λ made. view_stmt made ≡ stmt one.now.place (map (view_numbers numbers.now).object_for one.now.objects)
        (case value (stmt_there (view_numbers numbers.now) (view_stmt _inner.now)))) }
{
    let inner = inner?;
    made(alloc, numbers, one, StmtForm::Case(value, inner))
}

fn default_there(
    alloc: Global,
    numbers: &Numbers,
    one: &CoreStmt,
    _inner: &Boxed<CoreStmt>,
    inner: Result<Boxed<CoreStmt>, Memory>,
) -> Result<Boxed<CoreStmt>, Memory>
    requires inner_there { IfOk inner (λ there. view_stmt there ≡ stmt_there (view_numbers numbers.now) (view_stmt _inner.now)) }
    ensures { IfOk result (λ made. view_stmt made ≡ stmt one.now.place (map (view_numbers numbers.now).object_for one.now.objects)
        (default (stmt_there (view_numbers numbers.now) (view_stmt _inner.now)))) }
{
    let inner = inner?;
    made(alloc, numbers, one, StmtForm::Default(inner))
}

fn block_there(
    alloc: Global,
    numbers: &Numbers,
    one: &CoreStmt,
    _all: &Items<CoreStmt>,
    all: Result<Items<CoreStmt>, Memory>,
) -> Result<Boxed<CoreStmt>, Memory>
    requires all_there { IfOk all (λ there. map view_stmt there ≡ map (stmt_there (view_numbers numbers.now)) (map view_stmt _all.now)) }
    ensures { IfOk result (λ made. view_stmt made ≡ stmt one.now.place (map (view_numbers numbers.now).object_for one.now.objects)
        (block (stmts_there (view_numbers numbers.now) (stmts_of (map view_stmt _all.now))))) }
{
    let all = all?;
    made(alloc, numbers, one, StmtForm::Block(all))
}

fn expression_there(
    alloc: Global,
    numbers: &Numbers,
    one: &CoreStmt,
    value: &Option<Boxed<CoreExpr>>,
) -> Result<Boxed<CoreStmt>, Memory>
    ensures { IfOk result (λ made. view_stmt made ≡ stmt one.now.place (map (view_numbers numbers.now).object_for one.now.objects)
        (expression (option_map (expr_there (view_numbers numbers.now)) (option_map view_expr value.now)))) }
{
    let value = option_there(alloc, numbers, value)?;
    made(alloc, numbers, one, StmtForm::Expr(value))
}

fn if_there(
    alloc: Global,
    numbers: &Numbers,
    one: &CoreStmt,
    test: &Boxed<CoreExpr>,
    _first: &Boxed<CoreStmt>,
    first: Result<Boxed<CoreStmt>, Memory>,
    _second: &Option<Boxed<CoreStmt>>,
    second: Result<Option<Boxed<CoreStmt>>, Memory>,
) -> Result<Boxed<CoreStmt>, Memory>
    requires first_there { IfOk first (λ there. view_stmt there ≡ stmt_there (view_numbers numbers.now) (view_stmt _first.now)) }
    requires second_there { IfOk second (λ there. otherwise_of (option_map view_stmt there) ≡ else_there (view_numbers numbers.now) (otherwise_of (option_map view_stmt _second.now))) }
    ensures { IfOk result (λ made. view_stmt made ≡ stmt one.now.place (map (view_numbers numbers.now).object_for one.now.objects)
        (if_then (expr_there (view_numbers numbers.now) (view_expr test.now)) (stmt_there (view_numbers numbers.now) (view_stmt _first.now)) (else_there (view_numbers numbers.now) (otherwise_of (option_map view_stmt _second.now))))) }
{
    let first = first?;
    let second = second?;
    let test = expr_there(alloc, numbers, test.get())?;
    made(alloc, numbers, one, StmtForm::If(test, first, second))
}

fn switch_there(
    alloc: Global,
    numbers: &Numbers,
    one: &CoreStmt,
    on: &Boxed<CoreExpr>,
    _body: &Boxed<CoreStmt>,
    body: Result<Boxed<CoreStmt>, Memory>,
) -> Result<Boxed<CoreStmt>, Memory>
    requires body_there { IfOk body (λ there. view_stmt there ≡ stmt_there (view_numbers numbers.now) (view_stmt _body.now)) }
    ensures { IfOk result (λ made. view_stmt made ≡ stmt one.now.place (map (view_numbers numbers.now).object_for one.now.objects)
        (switch (expr_there (view_numbers numbers.now) (view_expr on.now)) (stmt_there (view_numbers numbers.now) (view_stmt _body.now)))) }
{
    let body = body?;
    let on = expr_there(alloc, numbers, on.get())?;
    made(alloc, numbers, one, StmtForm::Switch(on, body))
}

fn while_there(
    alloc: Global,
    numbers: &Numbers,
    one: &CoreStmt,
    test: &Boxed<CoreExpr>,
    _body: &Boxed<CoreStmt>,
    body: Result<Boxed<CoreStmt>, Memory>,
) -> Result<Boxed<CoreStmt>, Memory>
    requires body_there { IfOk body (λ there. view_stmt there ≡ stmt_there (view_numbers numbers.now) (view_stmt _body.now)) }
    ensures { IfOk result (λ made. view_stmt made ≡ stmt one.now.place (map (view_numbers numbers.now).object_for one.now.objects)
        (while (expr_there (view_numbers numbers.now) (view_expr test.now)) (stmt_there (view_numbers numbers.now) (view_stmt _body.now)))) }
{
    let body = body?;
    let test = expr_there(alloc, numbers, test.get())?;
    made(alloc, numbers, one, StmtForm::While(test, body))
}

fn do_there(
    alloc: Global,
    numbers: &Numbers,
    one: &CoreStmt,
    _body: &Boxed<CoreStmt>,
    body: Result<Boxed<CoreStmt>, Memory>,
    test: &Boxed<CoreExpr>,
) -> Result<Boxed<CoreStmt>, Memory>
    requires body_there { IfOk body (λ there. view_stmt there ≡ stmt_there (view_numbers numbers.now) (view_stmt _body.now)) }
    ensures { IfOk result (λ made. view_stmt made ≡ stmt one.now.place (map (view_numbers numbers.now).object_for one.now.objects)
        (do_while (stmt_there (view_numbers numbers.now) (view_stmt _body.now)) (expr_there (view_numbers numbers.now) (view_expr test.now)))) }
{
    let body = body?;
    let test = expr_there(alloc, numbers, test.get())?;
    made(alloc, numbers, one, StmtForm::Do(body, test))
}

fn for_there(
    alloc: Global,
    numbers: &Numbers,
    one: &CoreStmt,
    _first: &Items<CoreStmt>,
    first: Result<Items<CoreStmt>, Memory>,
    test: &Option<Boxed<CoreExpr>>,
    next: &Option<Boxed<CoreExpr>>,
    _body: &Boxed<CoreStmt>,
    body: Result<Boxed<CoreStmt>, Memory>,
) -> Result<Boxed<CoreStmt>, Memory>
    requires first_there { IfOk first (λ there. map view_stmt there ≡ map (stmt_there (view_numbers numbers.now)) (map view_stmt _first.now)) }
    requires body_there { IfOk body (λ there. view_stmt there ≡ stmt_there (view_numbers numbers.now) (view_stmt _body.now)) }
    ensures { IfOk result (λ made. view_stmt made ≡ stmt one.now.place (map (view_numbers numbers.now).object_for one.now.objects)
        (for_loop (stmts_there (view_numbers numbers.now) (stmts_of (map view_stmt _first.now))) (option_map (expr_there (view_numbers numbers.now)) (option_map view_expr test.now)) (option_map (expr_there (view_numbers numbers.now)) (option_map view_expr next.now)) (stmt_there (view_numbers numbers.now) (view_stmt _body.now)))) }
{
    let first = first?;
    let body = body?;
    let test = option_there(alloc, numbers, test)?;
    let next = option_there(alloc, numbers, next)?;
    made(
        alloc,
        numbers,
        one,
        StmtForm::For {
            first,
            test,
            next,
            body,
        },
    )
}

fn goto_there(
    alloc: Global,
    numbers: &Numbers,
    one: &CoreStmt,
    name: &Name,
) -> Result<Boxed<CoreStmt>, Memory>
    ensures { IfOk result (λ made. view_stmt made ≡ stmt one.now.place (map (view_numbers numbers.now).object_for one.now.objects)
        (goto name.now)) }
{
    let name = name.copy()?;
    made(alloc, numbers, one, StmtForm::Goto(name))
}

fn return_there(
    alloc: Global,
    numbers: &Numbers,
    one: &CoreStmt,
    value: &Option<Boxed<CoreExpr>>,
) -> Result<Boxed<CoreStmt>, Memory>
    ensures { IfOk result (λ made. view_stmt made ≡ stmt one.now.place (map (view_numbers numbers.now).object_for one.now.objects)
        (returns (option_map (expr_there (view_numbers numbers.now)) (option_map view_expr value.now)))) }
{
    let value = option_there(alloc, numbers, value)?;
    made(alloc, numbers, one, StmtForm::Return(value))
}

fn begin_there(
    alloc: Global,
    numbers: &Numbers,
    one: &CoreStmt,
    number: u32,
    puts: &Option<Items<Put>>,
) -> Result<Boxed<CoreStmt>, Memory>
    ensures { IfOk result (λ made. view_stmt made ≡ stmt one.now.place (map (view_numbers numbers.now).object_for one.now.objects)
        (begin ((view_numbers numbers.now).object_for number) (option_map (puts_there (view_numbers numbers.now)) (option_map view_puts puts.now)))) }
{
    let number = numbers.object_for(number)?;
    let puts = option_puts_there(alloc, numbers, puts)?;
    made(alloc, numbers, one, StmtForm::Begin(number, puts))
}

#[cycle(there)]
fn else_there(
    alloc: Global,
    numbers: &Numbers,
    one: &Option<Boxed<CoreStmt>>,
) -> Result<Option<Boxed<CoreStmt>>, Memory>
    ensures { IfOk result (λ made. otherwise_of (option_map view_stmt made) ≡ else_there (view_numbers numbers.now) (otherwise_of (option_map view_stmt one.now))) }
{
    match one {
        Some(inner) => Ok(Some(stmt_there(alloc, numbers, inner.get())?)),
        None => Ok(None),
    }
}

#[cycle(there)]
fn stmts_there(
    alloc: Global,
    numbers: &Numbers,
    all: &[CoreStmt],
) -> Result<Items<CoreStmt>, Memory>
    ensures { IfOk result (λ made. map view_stmt made ≡ map (stmt_there (view_numbers numbers.now)) (map view_stmt all.now)) }
{
    let mut made = Items::new(alloc);
    for one in all {
        made.push(stmt_there(alloc, numbers, one)?.into_inner())?;
    }
    Ok(made)
}
