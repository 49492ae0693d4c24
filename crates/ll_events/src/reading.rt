//! Reads texts to events.

ghost use Rattle.std.specs.Prelude.{◌≡◌, ◌<◌, ◌≤◌, ℕ, [], ◌∷◌, length, Some, None, Err, IfOk};
ghost use Rattle.grammars.specs.Choosing.{AreChoices};
ghost use Rattle.grammars.specs.FlatGrammar.{grammar_of};
ghost use Rattle.grammars.specs.Grammar.{Writes};
ghost use Rattle.grammars.specs.declared.symbols.Symbol.TheVariants as S;
ghost use Rattle.ll_tokens.specs.Tokens.{tokens_of, IsBadAt};
ghost use Rattle.ll_events.specs.Events.{AreEvents, IsRefusedAtByte, seen, seen_as};
ghost use Rattle.ll_events.specs.declared.event_err.EventErr.TheVariants as E;

use crate::event_err::EventErr;
use grammars::choices::Choices;
use grammars::grammar::Grammar;
use grammars::packed_event::PackedEvent;
use grammars::reader::Reader;
use grammars::symbols::Token;
use ll_classes::classes::class_of;
use ll_classes::words::Words;
use ll_tokens::token_err::TokenErr;
use ll_tokens::tokens::tokens;
use std::alloc::Global;

/// What a text is read as.
#[derive(Drop)]
pub struct Reading {
    pub tokens: Vec<ll_tokens::tokens::Token>,
    /// The tokens in them are named by their numbers.
    pub events: Vec<PackedEvent>,
}

/// The tokens of a text.
fn tokens_in(alloc: Global, bytes: &[u8]) -> Result<Vec<ll_tokens::tokens::Token>, EventErr>
    ensures found { IfOk result (λ v. tokens_of bytes.now ≡ Some v.items) }
    ensures bad { (place : ℕ) → result ≡ Err (E.BadToken place) → (tokens_of bytes.now ≡ None) × IsBadAt bytes.now place }
    ensures read { (place : ℕ) → result ≡ Err (E.Refused place) → ⊥ }
{
    match tokens(alloc, bytes) {
        Ok(found) => Ok(found),
        Err(TokenErr::BadToken(place)) => Err(EventErr::BadToken(place)),
        Err(TokenErr::NoMemory) => Err(EventErr::NoMemory),
    }
}

/// A token as a grammar sees it.
fn seen_as(words: &Words<'_>, bytes: &[u8], number: u32, token: ll_tokens::tokens::Token) -> Token
    requires order { token.start ≤ token.end }
    requires within { token.end ≤ length bytes.now }
    ensures { result ≡ seen_as words.now bytes.now number token }
{
    let (front, _) = bytes.split_at(token.end as usize);
    let (_, text) = front.split_at(token.start as usize);
    Token {
        class: class_of(words, token.kind, text),
        at: number,
    }
}

/// Where a token begins.
fn start_of(token: ll_tokens::tokens::Token) -> usize
    ensures gives { result ≡ token.start }
    ensures small { result < 4294967296 }
{
    token.start as usize
}

/// What the tokens of a text are read as.
fn events_of(
    alloc: Global,
    grammar: &Grammar<'_>,
    choices: &Choices,
    words: &Words<'_>,
    rule: u16,
    bytes: &[u8],
    tokens: &[ll_tokens::tokens::Token],
) -> Result<Vec<PackedEvent>, EventErr>
    requires choices { AreChoices grammar.now choices.now }
    requires are { tokens_of bytes.now ≡ Some tokens.now }
    ensures found { IfOk result (λ es. Writes (grammar_of grammar.now) (S.Rule rule ∷ []) es.items (seen words.now bytes.now 0 tokens.now)) }
    ensures refused { (place : ℕ) → result ≡ Err (E.Refused place) → IsRefusedAtByte grammar.now words.now rule bytes.now place }
    ensures good { (place : ℕ) → result ≡ Err (E.BadToken place) → ⊥ }
{
    let mut reader = Reader::new(alloc, rule)?;
    for (number, &token) in tokens.iter().enumerate() {
        let start = start_of(token);
        let seen = seen_as(words, bytes, number as u32, token);
        if !reader.take(grammar, choices, seen)? {
            return Err(EventErr::Refused(start));
        }
    }
    if !reader.finish(grammar)? {
        return Err(EventErr::Refused(bytes.len()));
    }
    Ok(reader.events)
}

/// What a text is read as by a rule of a grammar, whose tokens have classes by these words.
pub fn events(
    alloc: Global,
    grammar: &Grammar<'_>,
    choices: &Choices,
    words: &Words<'_>,
    rule: u16,
    bytes: &[u8],
) -> Result<Reading, EventErr>
    requires choices { AreChoices grammar.now choices.now }
    ensures found { IfOk result (λ r. AreEvents grammar.now words.now rule bytes.now r.tokens.items r.events.items) }
    ensures refused { (place : ℕ) → result ≡ Err (E.Refused place) → IsRefusedAtByte grammar.now words.now rule bytes.now place }
    ensures bad { (place : ℕ) → result ≡ Err (E.BadToken place) → (tokens_of bytes.now ≡ None) × IsBadAt bytes.now place }
{
    let tokens = match tokens_in(alloc, bytes) {
        Ok(tokens) => tokens,
        Err(e) => return Err(e),
    };
    match events_of(alloc, grammar, choices, words, rule, bytes, &tokens) {
        Ok(events) => Ok(Reading { tokens, events }),
        Err(e) => Err(e),
    }
}
