//! A list of nests as a chain, in which each is left for the beginning of the next one alone.

ghost use Rattle.std.specs.Prelude.{◌≡◌, ◌∷◌, map, reverse, IfOk, OnOk};
ghost use Rattle.emit_nests.specs.Views.{nest_view};
ghost use Rattle.emit_rules.specs.Chains.{chained, gathered, in_front, joined};
ghost use Rattle.emit_rules.specs.Nests as tree;
ghost use Rattle.emit_rules.specs.Nests.{chain, no_nests};
ghost use Rattle.emit_sorting.specs.Chained.{piece_view, ranked_view};

use cr_base::{Items, Memory};
use emit_nests::Nest;
use std::alloc::Global;

/// A nest of a list, and the number of the first nest of the list that leads to it.
#[derive(Drop)]
pub(crate) struct Ranked {
    pub(crate) nest: Nest,
    pub(crate) from: usize,
}

// Nests of a list as one, from the one of a number on.
#[derive(Drop)]
struct Piece {
    start: usize,
    nest: Nest,
}

// Nests, the last first, as one piece from a number on, behind others.
fn put_group(pieces: &mut Items<Piece>, start: usize, group: Items<Nest>) -> Result<(), Memory>
    ensures { OnOk result (map piece_view (reverse pieces.new) ≡
        record { start = start; nest = tree.group (chain (map nest_view (reverse group))) } ∷ map piece_view (reverse pieces.old)) }
{
    let mut members = group.into_vec();
    members.reverse();
    pieces.push(Piece {
        start,
        nest: Nest::Group(Items::of(members)),
    })
}

// Pieces that begin behind a nest of the list, of which these nests are the last, are one with the piece in which that is.
fn gather(pieces: &mut Items<Piece>, from: usize, group: Items<Nest>) -> Result<(), Memory>
    ensures { OnOk result (map piece_view (reverse pieces.new) ≡ gathered from (map nest_view (reverse group)) (map piece_view (reverse pieces.old))) }
{
    let mut group = group;
    while let Some(piece) = pieces.pop() {
        group.push(piece.nest)?;
        if from >= piece.start {
            return put_group(pieces, piece.start, group);
        }
    }
    put_group(pieces, 0, group)
}

// Pieces to which control goes on from a nest of the list are one.
fn join(alloc: Global, pieces: &mut Items<Piece>, from: usize) -> Result<(), Memory>
    ensures { OnOk result (map piece_view (reverse pieces.new) ≡ joined from (map piece_view (reverse pieces.old))) }
{
    let Some(piece) = pieces.pop() else {
        return Ok(());
    };
    if from >= piece.start {
        return pieces.push(piece);
    }
    let mut group = Items::new(alloc);
    group.push(piece.nest)?;
    gather(pieces, from, group)
}

// The nests of pieces, in their order.
fn nests_of(alloc: Global, pieces: Items<Piece>) -> Result<Items<Nest>, Memory>
    ensures { IfOk result (λ made. chain (map nest_view made) ≡ in_front (map piece_view (reverse pieces)) no_nests) }
{
    let mut made = Items::new(alloc);
    for piece in pieces.into_vec() {
        made.push(piece.nest)?;
    }
    Ok(made)
}

/// A list of nests as a chain.
pub(crate) fn chained(alloc: Global, list: Items<Ranked>) -> Result<Items<Nest>, Memory>
    ensures { IfOk result (λ made. chain (map nest_view made) ≡ chained (map ranked_view list)) }
{
    let mut pieces = Items::new(alloc);
    let mut number = 0;
    for ranked in list.into_vec() {
        join(alloc, &mut pieces, ranked.from)?;
        pieces.push(Piece {
            start: number,
            nest: ranked.nest,
        })?;
        number += 1;
    }
    nests_of(alloc, pieces)
}
