//! The objects of a function's blocks (ISO C99, 6.2.4p5). The walk is refused only for want of memory.

ghost use Rattle.std.specs.Prelude.{◌≡◌, ℕ, ◌==◌, ◌||◌, ◌++◌, map, option_map, IfOk, OnOk};
ghost use Rattle.cx_core.specs.Statements.{objects_in};
ghost use Rattle.cx_core.specs.Views.{otherwise_of, stmts_of, view_stmt};
ghost use Rattle.whole_keys.specs.Called.{is_in};
ghost use Rattle.whole_locals.specs.Blocks.{objects_behind, objects_behind_else, objects_behind_list};
ghost use Rattle.whole_names.specs.FunctionNames.{is_among};

use cr_base::{Boxed, Items, Memory};
use cx_core::{CoreStmt, StmtForm};
use std::alloc::Global;
use std::collections::HashSet;
use std::marker::Model;

/// The numbers of the objects of a function's blocks, with an index. Contracts see their list.
#[derive(Drop)]
pub struct BlockObjects {
    numbers: Items<u32>,
    index: HashSet<u32>,
}

impl Model for BlockObjects {
    ghost use Rattle.std.specs.Prelude.{◌≡◌, List, ℕ};
    ghost use Rattle.whole_keys.specs.Called.{is_in};
    ghost use Rattle.whole_names.specs.FunctionNames.{is_among};

    ghost Value = { List ℕ };

    ghost view = { λ it. it.numbers };

    ghost invariant = { λ it. (number : ℕ) → is_in it.index number ≡ is_among it.numbers number };
}

fn put_numbers(numbers: &[u32], found: &mut Items<u32>) -> Result<(), Memory>
    ensures { OnOk result (found.new ≡ found.old ++ numbers.now) }
{
    for one in numbers {
        found.push(*one)?;
    }
    Ok(())
}

// Those of a statement behind others.
#[cycle(blocks)]
fn stmt_behind(s: &CoreStmt, found: &mut Items<u32>) -> Result<(), Memory>
    ensures { OnOk result (found.new ≡ objects_behind (view_stmt s.now) found.old) }
{
    put_numbers(s.objects.as_slice(), found)?;
    match &s.form {
        StmtForm::Label(_, body) | StmtForm::Case(_, body) | StmtForm::Default(body) => {
            stmt_behind(body.get(), found)
        }
        StmtForm::Block(stmts) => stmts_behind(stmts.as_slice(), found),
        StmtForm::If(_, body, otherwise) => {
            stmt_behind(body.get(), found)?;
            else_behind(otherwise, found)
        }
        StmtForm::Switch(_, body) | StmtForm::While(_, body) | StmtForm::Do(body, _) => {
            stmt_behind(body.get(), found)
        }
        StmtForm::For { first, body, .. } => {
            stmts_behind(first.as_slice(), found)?;
            stmt_behind(body.get(), found)
        }
        StmtForm::Expr(_) | StmtForm::Goto(_) | StmtForm::Continue | StmtForm::Break => Ok(()),
        StmtForm::Return(_) | StmtForm::Begin(_, _) => Ok(()),
    }
}

#[cycle(blocks)]
fn else_behind(otherwise: &Option<Boxed<CoreStmt>>, found: &mut Items<u32>) -> Result<(), Memory>
    ensures { OnOk result (found.new ≡ objects_behind_else (otherwise_of (option_map view_stmt otherwise.now)) found.old) }
{
    match otherwise {
        None => Ok(()),
        Some(body) => stmt_behind(body.get(), found),
    }
}

#[cycle(blocks)]
fn stmts_behind(stmts: &[CoreStmt], found: &mut Items<u32>) -> Result<(), Memory>
    ensures { OnOk result (found.new ≡ objects_behind_list (stmts_of (map view_stmt stmts.now)) found.old) }
{
    for one in stmts {
        stmt_behind(one, found)?;
    }
    Ok(())
}

fn note(index: &mut HashSet<u32>, number: u32) -> Result<(), Memory>
    ensures { OnOk result ((other : ℕ) → is_in index.new other ≡ (is_in index.old other || (number == other))) }
{
    index.insert(number)?;
    Ok(())
}

fn index_of(alloc: Global, numbers: &[u32]) -> Result<HashSet<u32>, Memory>
    ensures { IfOk result (λ index. (number : ℕ) → is_in index number ≡ is_among numbers.now number) }
{
    let mut index = HashSet::new(alloc);
    for one in numbers {
        note(&mut index, *one)?;
    }
    Ok(index)
}

impl BlockObjects {
    /// Those of the blocks of a statement.
    pub fn of(alloc: Global, body: &CoreStmt) -> Result<BlockObjects, Memory>
        ensures { IfOk result (λ made. made ≡ objects_in (view_stmt body.now)) }
    {
        let numbers = objects_of(alloc, body)?;
        let index = index_of(alloc, numbers.as_slice())?;
        Ok(BlockObjects { numbers, index })
    }

    /// Whether the object of a number is one of them.
    pub fn has(&self, number: u32) -> bool
        ensures { result ≡ is_among self.now number }
    {
        self.index.contains(&number)
    }
}

#[tactic(auto, using(crate::proofs::Behinds::objects_are))]
fn objects_of(alloc: Global, body: &CoreStmt) -> Result<Items<u32>, Memory>
    ensures { IfOk result (λ numbers. numbers ≡ objects_in (view_stmt body.now)) }
{
    let mut numbers = Items::new(alloc);
    stmt_behind(body, &mut numbers)?;
    Ok(numbers)
}
