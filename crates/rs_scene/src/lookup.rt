//! Static objects, locals and functions with their numbers (the Rust Reference, "Paths").

ghost use Rattle.std.specs.Prelude.{◌≡◌, ◌&&◌, IfOk, bytes_eq, map, option_map, slice_get};
ghost use Rattle.std.specs.Option.{option_copied};
ghost use Rattle.rs_scene.specs.Scenes.{held_function, held_local, held_static, home_view};
ghost use Rattle.rs_mean.specs.Lookups as named;
ghost use Rattle.rs_tree.specs.Views.{function_view};

use crate::scene::{HeldFunction, HeldHome, HeldLocal, HeldStatic};
use cr_base::{Memory, Name};
use rs_tree::{Function, RPath};

fn is_path(home: &Name, name: &Name, path: &RPath) -> bool
    ensures { result ≡ (bytes_eq home.now path.now.home && bytes_eq name.now path.now.name) }
{
    home.bytes() == path.home.bytes() && name.bytes() == path.name.bytes()
}

/// The block of the static object that a path names.
pub fn static_home<'t>(statics: &[HeldStatic<'t>], path: &RPath) -> Option<HeldHome<'t>>
    ensures { option_map home_view result ≡ named.static_from 0 path.now.home path.now.name (map held_static statics.now) }
{
    for index in 0..statics.len() {
        let one = statics[index];
        if is_path(one.home, &one.object.name, path) {
            return Some(HeldHome {
                block: index as u64,
                ty: one.object.ty.get(),
            });
        }
    }
    None
}

/// The block of the parameter or local of a name.
#[inline(always)]
pub fn local_home<'t>(locals: &[HeldLocal<'t>], name: &Name) -> Option<HeldHome<'t>>
    ensures { option_map home_view result ≡ named.local_home name.now (map held_local locals.now) }
{
    for one in locals {
        if one.of.name.bytes() == name.bytes() {
            return Some(HeldHome {
                block: one.block,
                ty: one.of.ty.get(),
            });
        }
    }
    None
}

/// The number of the function with a body that a path names.
pub fn function_number(functions: &[HeldFunction<'_>], path: &RPath) -> Result<Option<u32>, Memory>
    ensures { IfOk result (λ number. number ≡ named.number_from 0 path.now.home path.now.name (map held_function functions.now)) }
{
    for index in 0..functions.len() {
        let one = functions[index];
        if is_path(one.home, &one.fun.name, path) {
            if LARGEST < index {
                return Err(Memory);
            }
            return Ok(Some(index as u32));
        }
    }
    Ok(None)
}

const LARGEST: usize = 0xffff_ffff;

/// The function with a number.
pub fn function_with<'t>(functions: &[HeldFunction<'t>], number: u32) -> Option<&'t Function>
    ensures { option_map function_view (option_copied result) ≡ option_map (λ one. one.fun) (slice_get (map held_function functions.now) number) }
{
    match functions.get(number as usize) {
        Some(one) => Some(one.fun),
        None => None,
    }
}
