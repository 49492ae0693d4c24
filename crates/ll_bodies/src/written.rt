//! What is written of the names of things, in the scope of a function.

ghost use Rattle.std.specs.Prelude.{◌≡◌, List, Some, Err, IfOk, IfSome, OnOk};
ghost use Rattle.std.specs.Option.{option_map, option_and_then};
ghost use Rattle.llvm_core.specs.Data.{TypeTree};
ghost use Rattle.ll_lines.specs.Views.{text_of};
ghost use Rattle.ll_literals.specs.Names.{quoted_name};
ghost use Rattle.ll_bodies.specs.Scopes as spec;
ghost use Rattle.ll_bodies.specs.Scopes.{key_of, local_key, label_key, define, define_written};
ghost use Rattle.ll_bodies.specs.ScopeViews.{local_view, local_at, IsKnown, Knows, Takes, Refuses, Adds};

use crate::build_err::BuildErr;
use crate::names::{of_label, of_local, plain_key};
use crate::scope::{Key, Local, Scope};
use ll_lines::names::Name;
use ll_literals::quotes::quoted_name;
use std::alloc::{AllocError, Global};
use std::borrow::CowStr;

/// What the name that quotes say stands for.
#[inline(never)]
fn known_quoted(
    alloc: Global,
    scope: &Scope<'_>,
    written: &[u8],
) -> Result<Option<Local>, AllocError>
    ensures { IfOk result (λ x. x ≡ option_and_then (λ n. local_at scope.now (spec.Named n)) (quoted_name written.now)) }
{
    match quoted_name(alloc, written) {
        Ok(Some(name)) => Ok(scope.get(Key::Named(name.as_str()))),
        Ok(None) => Ok(None),
        Err(e) => Err(e),
    }
}

/// What a name or a number stands for, as it is written.
#[inline(always)]
pub fn known(alloc: Global, scope: &Scope<'_>, written: &[u8]) -> Result<Option<Local>, AllocError>
    ensures there { IfOk result (λ x. IfSome x (IsKnown scope.now)) }
    ensures is { IfOk result (λ x. (types : List TypeTree) (s : spec.Scope) → Knows types scope.now s → option_and_then s.known (key_of written.now) ≡ option_map (local_view types) x) }
{
    match plain_key(written) {
        Some(key) => Ok(scope.get(key)),
        None => known_quoted(alloc, scope, written),
    }
}

/// Defines a thing under the name that quotes say.
#[inline(never)]
fn define_quoted<'a>(
    alloc: Global,
    scope: &mut Scope<'a>,
    local: Local,
    written: &'a [u8],
) -> Result<(), BuildErr>
    ensures ok { OnOk result ((types : List TypeTree) → Takes types scope.old scope.new (λ s. option_and_then (λ k. define s (local_view types local) (Some k)) (option_map spec.Named (quoted_name written.now)))) }
    ensures adds { OnOk result (Adds (λ (y : Local). y ≡ local) scope.old scope.new) }
    ensures not_yet { result ≡ Err BuildErr.NotYet → (types : List TypeTree) → Refuses types scope.old (λ s. option_and_then (λ k. define s (local_view types local) (Some k)) (option_map spec.Named (quoted_name written.now))) }
{
    match quoted_name(alloc, written) {
        Ok(Some(CowStr::Borrowed(name))) => scope.define_under(local, Key::Named(name)),
        Ok(Some(CowStr::Owned(name))) => {
            scope.define_escaped(local, name)?;
            Ok(())
        }
        Ok(None) => Err(BuildErr::NotYet),
        Err(_) => Err(BuildErr::NoMemory),
    }
}

/// Defines a thing under a name or a number, as it is written.
#[inline(always)]
fn define_said<'a>(
    alloc: Global,
    scope: &mut Scope<'a>,
    local: Local,
    written: &'a [u8],
) -> Result<(), BuildErr>
    ensures ok { OnOk result ((types : List TypeTree) → Takes types scope.old scope.new (λ s. option_and_then (λ k. define s (local_view types local) (Some k)) (key_of written.now))) }
    ensures adds { OnOk result (Adds (λ (y : Local). y ≡ local) scope.old scope.new) }
    ensures not_yet { result ≡ Err BuildErr.NotYet → (types : List TypeTree) → Refuses types scope.old (λ s. option_and_then (λ k. define s (local_view types local) (Some k)) (key_of written.now)) }
{
    match plain_key(written) {
        Some(key) => scope.define_under(local, key),
        None => define_quoted(alloc, scope, local, written),
    }
}

/// Defines a parameter or a result under what is written of its name, where it is.
#[inline(always)]
pub fn define_local<'a>(
    alloc: Global,
    bytes: &'a [u8],
    scope: &mut Scope<'a>,
    local: Local,
    name: Option<Name>,
) -> Result<(), BuildErr>
    ensures ok { OnOk result ((types : List TypeTree) → Takes types scope.old scope.new (λ s. define_written s (local_view types local) local_key (option_map (text_of bytes.now) name))) }
    ensures adds { OnOk result (Adds (λ (y : Local). y ≡ local) scope.old scope.new) }
    ensures not_yet { result ≡ Err BuildErr.NotYet → (types : List TypeTree) → Refuses types scope.old (λ s. define_written s (local_view types local) local_key (option_map (text_of bytes.now) name)) }
{
    match name {
        Some(token) => define_said(alloc, scope, local, of_local(token.text(bytes))),
        None => scope.define_next(local),
    }
}

/// Defines a block under what is written of its label, where it is.
pub fn define_label<'a>(
    alloc: Global,
    bytes: &'a [u8],
    scope: &mut Scope<'a>,
    local: Local,
    label: Option<Name>,
) -> Result<(), BuildErr>
    ensures ok { OnOk result ((types : List TypeTree) → Takes types scope.old scope.new (λ s. define_written s (local_view types local) label_key (option_map (text_of bytes.now) label))) }
    ensures adds { OnOk result (Adds (λ (y : Local). y ≡ local) scope.old scope.new) }
    ensures not_yet { result ≡ Err BuildErr.NotYet → (types : List TypeTree) → Refuses types scope.old (λ s. define_written s (local_view types local) label_key (option_map (text_of bytes.now) label)) }
{
    match label {
        Some(token) => define_said(alloc, scope, local, of_label(token.text(bytes))),
        None => scope.define_next(local),
    }
}
