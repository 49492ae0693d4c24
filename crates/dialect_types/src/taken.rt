//! The identifiers that were given, and how a further one is found.

ghost use Rattle.std.specs.Prelude.{◌≡◌, ◌<◌, [], ◌∷◌, ◌++◌, ℕ, Some, length, slice_get, IfOk, OnErr, OnOk};
ghost use Rattle.std.specs.Fmt.{decimal};
ghost use Rattle.dialect_types.specs.Names.{IsIdentifier};
ghost use Rattle.dialect_types.specs.Legalised.{AreTaken, IsFirstTaken, IsTaken, IsTried, IsWished};

use crate::identifier::Identifier;
use crate::texts::Texts;
use itoa::Buffer;
use std::alloc::{AllocError, Global};
use std::marker::Model;
use support::text::Text;

/// The identifiers that were given, seen as their list.
#[derive(Drop)]
pub struct Taken {
    texts: Texts,
    /// How many suffixes of the identifier at a place were tried: all of them are taken, so none is tried again.
    tried: Vec<u64>,
}

impl Model for Taken {
    ghost use Rattle.std.specs.Prelude.{ℕ, List};
    ghost use Rattle.dialect_types.specs.Legalised.{IsTried};

    ghost Value = { List (List ℕ) };

    ghost view = { λ t. t.texts };

    ghost invariant = { λ t. IsTried t.texts t.tried.items };
}

impl Taken {
    /// No identifier is taken.
    pub fn new(alloc: Global) -> Taken
        ensures { result ≡ [] }
    {
        Taken {
            texts: Texts::new(alloc),
            tried: Vec::new(alloc),
        }
    }

    /// The identifier at a place.
    pub fn text(&self, at: usize) -> &str
        requires { at < length self.now }
        ensures { slice_get self.now at ≡ Some result.now }
    {
        self.texts.text(at)
    }

    /// Gives the identifier, or, where it is taken, the first of its suffixed ones that is free.
    pub fn give(&mut self, alloc: Global, asked: &str) -> Result<Identifier, AllocError>
        requires { IsIdentifier asked.now }
        ensures given { IfOk result (IsFirstTaken self.old self.new asked.now) }
        ensures err { OnErr result (self.new ≡ self.old) }
    {
        let identifier = Identifier::copy(alloc, asked)?;
        let text = Text::copy(alloc, asked)?;
        match self.texts.put(text)? {
            None => Ok(identifier),
            Some(at) => give_suffixed(alloc, &mut self.texts, &mut self.tried, at, asked),
        }
    }
}

/// Gives the first suffixed identifier that is free, where the one without suffix stands at a place.
fn give_suffixed(
    alloc: Global,
    texts: &mut Texts,
    tried: &mut Vec<u64>,
    at: usize,
    asked: &str,
) -> Result<Identifier, AllocError>
    requires at { slice_get texts.old at ≡ Some asked.now }
    requires legal { IsIdentifier asked.now }
    requires tried { IsTried texts.old tried.old.items }
    ensures given { IfOk result (IsFirstTaken texts.old texts.new asked.now) }
    ensures tried { IsTried texts.new tried.new.items }
    ensures err { OnErr result (texts.new ≡ texts.old) }
{
    pad(texts, tried, at)?;
    let (identifier, suffix) = take_first(alloc, texts, asked, tried[at])?;
    tried[at] = suffix;
    Ok(identifier)
}

/// Notes how many suffixes were tried of each identifier up to a place, none where nothing was noted.
fn pad(texts: &Texts, tried: &mut Vec<u64>, at: usize) -> Result<(), AllocError>
    requires at { at < length texts.now }
    requires tried { IsTried texts.now tried.old.items }
    ensures tried { IsTried texts.now tried.new.items }
    ensures ok { OnOk result (at < length tried.new.items) }
{
    if at < tried.len() {
        return Ok(());
    }
    if at == usize::MAX {
        return Err(AllocError);
    }
    tried.resize(at + 1, 0)
}

/// Takes the first suffixed identifier that is free, behind the suffixes that were tried.
fn take_first(
    alloc: Global,
    texts: &mut Texts,
    asked: &str,
    tried: u64,
) -> Result<(Identifier, u64), AllocError>
    requires legal { IsIdentifier asked.now }
    requires tried { AreTaken texts.old asked.now tried }
    ensures taken { IfOk result (λ r. IsTaken texts.old texts.new asked.now r.0 r.1) }
    ensures err { OnErr result (texts.new ≡ texts.old) }
{
    for k in tried..u64::MAX {
        if let Some(identifier) = take_wish(alloc, texts, asked, k + 1)? {
            return Ok((identifier, k + 1));
        }
    }
    Err(AllocError)
}

/// Takes the identifier with a suffix, where it is free.
fn take_wish(
    alloc: Global,
    texts: &mut Texts,
    asked: &str,
    suffix: u64,
) -> Result<Option<Identifier>, AllocError>
    requires some { 0 < suffix }
    requires legal { IsIdentifier asked.now }
    ensures wished { IfOk result (IsWished texts.old texts.new asked.now suffix) }
    ensures err { OnErr result (texts.new ≡ texts.old) }
{
    let text = suffixed(alloc, asked, suffix)?;
    let identifier = Identifier::copy(alloc, text.as_str())?;
    match texts.put(text)? {
        None => Ok(Some(identifier)),
        Some(_) => Ok(None),
    }
}

/// A text with a suffix.
fn suffixed(alloc: Global, text: &str, suffix: u64) -> Result<Text, AllocError>
    ensures { IfOk result (λ t. t ≡ text.now ++ 95 ∷ decimal suffix) }
{
    let mut buffer = Buffer::new();
    let mut all = Text::copy(alloc, text)?;
    all.push_str(alloc, "_")?;
    all.push_str(alloc, buffer.format(suffix))?;
    Ok(all)
}
