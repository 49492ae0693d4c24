//! Reads tokens by a grammar, over a stack of symbols, so that nesting costs no stack of the machine.

ghost use Rattle.std.specs.Prelude.{◌≡◌, ◌∷◌, ◌++◌, [], List, Option, ℕ, IfOk, OnOk, IfSome, IfNone, IsTrue, Err, false, reverse};
ghost use Rattle.grammars.specs.declared.symbols.Symbol.TheVariants as S;
ghost use Rattle.grammars.specs.declared.symbols.Event.{Event};
ghost use Rattle.grammars.specs.declared.symbols.Token.{Token};
ghost use Rattle.grammars.specs.Grammar.{Writes};
ghost use Rattle.grammars.specs.Right.{Tables, Fits};
ghost use Rattle.grammars.specs.FlatGrammar.{grammar_of, tables_of};
ghost use Rattle.grammars.specs.Choosing.{AreChoices};
ghost use Rattle.grammars.specs.Reading.{stack_from, stack_of, class_ahead, is_class, TellsAhead, ReadsUpTo, StopsAt, TakesToken, Holds, ReadsRest, IsRefusedAt};
ghost use Rattle.grammars.specs.Numbers.{some_number};

use crate::choices::Choices;
use crate::grammar::Grammar;
use crate::packed_event::PackedEvent;
use crate::parts::number_at;
use crate::read_err::ReadErr;
use crate::symbols::{Symbol, Token};
use std::alloc::{AllocError, Global};

/// A reader between two tokens. Its events may be emptied there.
#[derive(Drop)]
pub struct Reader<'g> {
    /// What stands next, the last first.
    pub next: &'g [Symbol],
    /// What stands behind that: what is left of alternatives, the outermost first.
    pub stack: Vec<&'g [Symbol]>,
    /// The rule that stands behind all of these.
    pub last: Option<u16>,
    /// What was read.
    pub events: Vec<PackedEvent>,
}

/// What is ahead of a reader: a token, or the end of the tokens; and the choices before it.
#[derive(Clone, Copy)]
struct Ahead<'c> {
    token: Option<Token>,
    /// The class of the token, any at the end.
    class: u16,
    /// Of the table of choices, none at the end.
    classes: u32,
    entries: &'c [u16],
}

impl Ahead<'_> {
    /// Is it a token of that class?
    fn is_class(&self, class: u16) -> bool
        ensures { result ≡ is_class self.now.token class }
    {
        match self.token {
            Some(token) => class == token.class,
            None => false,
        }
    }

    /// The number of the alternative that a rule goes on with, or 0.
    fn choose(&self, grammar: &Grammar<'_>, rule: u16) -> u16
        requires { TellsAhead grammar.now self.now }
        ensures { some_number result ≡ (grammar_of grammar.now).choose rule (class_ahead self.now.token) }
    {
        if self.class as u32 >= self.classes {
            return grammar.nothing_of(rule);
        }
        number_at(
            self.entries,
            rule as usize * self.classes as usize + self.class as usize,
        )
    }
}

/// Takes off the symbol that stands next, of those of a reader.
#[inline(always)]
fn pop<'g>(
    next: &mut &'g [Symbol],
    stack: &mut Vec<&'g [Symbol]>,
    last: &mut Option<u16>,
) -> Option<Symbol>
    ensures some { IfSome result (λ s. stack_from next.old.now stack.old.items last.old ≡ s ∷ stack_from next.new.now stack.new.items last.new) }
    ensures none { IfNone result (stack_from next.old.now stack.old.items last.old ≡ []) }
{
    loop {
        if let Some((first, others)) = next.split_last() {
            *next = others;
            return Some(*first);
        }
        match stack.pop() {
            Some(part) => *next = part,
            None => return Some(Symbol::Rule(last.take()?)),
        }
    }
}

/// Puts symbols before what stands next, the last first. Where nothing is left of an alternative, it is not kept.
#[inline(always)]
fn put<'g>(
    next: &mut &'g [Symbol],
    stack: &mut Vec<&'g [Symbol]>,
    symbols: &'g [Symbol],
) -> Result<(), AllocError>
    ensures stack { (last : Option ℕ) → OnOk result (stack_from next.new.now stack.new.items last ≡ reverse symbols.now ++ stack_from next.old.now stack.old.items last) }
{
    if symbols.is_empty() {
        return Ok(());
    }
    if !next.is_empty() {
        stack.push(*next)?;
    }
    *next = symbols;
    Ok(())
}

impl<'g> Reader<'g> {
    /// A reader of what a rule writes.
    pub fn new(alloc: Global, rule: u16) -> Result<Reader<'g>, AllocError>
        ensures stack { IfOk result (λ r. stack_of r ≡ S.Rule rule ∷ []) }
        ensures events { IfOk result (λ r. r.events.items ≡ []) }
        ensures fits { IfOk result (λ r. (k : Tables) → Fits k (stack_of r)) }
    {
        Ok(Reader {
            next: &[],
            stack: Vec::new(alloc),
            last: Some(rule),
            events: Vec::new(alloc),
        })
    }

    /// Holds the token that is ahead: whether it is one of that class.
    fn hold(&mut self, ahead: Option<Token>, class: u16) -> Result<bool, AllocError>
        ensures stack { stack_of self.new ≡ stack_of self.old }
        ensures held { IfOk result (λ on. IsTrue on → Holds ahead class self.old.events.items self.new.events.items) }
        ensures other { IfOk result (λ on. on ≡ false → is_class ahead class ≡ false) }
    {
        match ahead {
            Some(token) if token.class == class => {
                let event = PackedEvent::held(token.at).ok_or(AllocError)?;
                self.events.push(event)?;
                Ok(true)
            }
            _ => Ok(false),
        }
    }

    /// Reads on, up to a token or to their end: whether that may stand next.
    #[inline(always)]
    fn read_on(&mut self, grammar: &Grammar<'g>, ahead: Ahead<'_>) -> Result<bool, AllocError>
        requires choices { TellsAhead grammar.now ahead }
        requires fits { Fits (tables_of grammar.now) (stack_of self.old) }
        ensures reads { IfOk result (λ on. IsTrue on → ReadsUpTo grammar.now ahead.entry.token self.old self.new) }
        ensures refused { IfOk result (λ on. on ≡ false → StopsAt (grammar_of grammar.now) ahead.entry.token (stack_of self.old)) }
    {
        let grammar = *grammar;
        // apart from the reader, so that it need not be looked up and kept at each symbol
        let mut next = self.next;
        while let Some(top) = pop(&mut next, &mut self.stack, &mut self.last) {
            match top {
                Symbol::Rule(rule) => {
                    let alternative = ahead.choose(&grammar, rule);
                    if alternative == 0 {
                        return Ok(false);
                    }
                    self.events.push(PackedEvent::took(alternative))?;
                    let symbols = grammar.symbols_of(alternative);
                    put(&mut next, &mut self.stack, symbols)?;
                }
                Symbol::Word(class) => {
                    self.next = next;
                    return Ok(ahead.is_class(class));
                }
                Symbol::Leaf(class) => {
                    self.next = next;
                    return self.hold(ahead.token, class);
                }
            }
        }
        self.next = next;
        Ok(ahead.token.is_none())
    }

    /// Takes a token: whether one of its class may stand next. A reader that refused one is of no use any more.
    #[inline(always)]
    pub fn take(
        &mut self,
        grammar: &Grammar<'g>,
        choices: &Choices,
        token: Token,
    ) -> Result<bool, AllocError>
        requires choices { AreChoices grammar.now choices.now }
        requires fits { Fits (tables_of grammar.now) (stack_of self.old) }
        ensures takes { IfOk result (λ taken. IsTrue taken → TakesToken grammar.now token self.old self.new) }
        ensures refused { IfOk result (λ taken. taken ≡ false → (es : List Event) (ts : List Token) → Writes (grammar_of grammar.now) (stack_of self.old) es (token ∷ ts) → ⊥) }
    {
        let ahead = Ahead {
            token: Some(token),
            class: token.class,
            classes: choices.classes,
            entries: &choices.entries,
        };
        self.read_on(grammar, ahead)
    }

    /// Reads what is left, where the tokens are over: whether it may be nothing.
    pub fn finish(&mut self, grammar: &Grammar<'g>) -> Result<bool, AllocError>
        requires fits { Fits (tables_of grammar.now) (stack_of self.old) }
        ensures reads { IfOk result (λ over. IsTrue over → ReadsRest grammar.now self.old self.new) }
        ensures refused { IfOk result (λ over. over ≡ false → (es : List Event) → Writes (grammar_of grammar.now) (stack_of self.old) es [] → ⊥) }
    {
        let ahead = Ahead {
            token: None,
            class: 0,
            classes: 0,
            entries: &[],
        };
        self.read_on(grammar, ahead)
    }
}

/// What tokens are read as, by a rule of a grammar.
pub fn read(
    alloc: Global,
    grammar: &Grammar<'_>,
    choices: &Choices,
    rule: u16,
    tokens: &[Token],
) -> Result<Vec<PackedEvent>, ReadErr>
    requires choices { AreChoices grammar.now choices.now }
    ensures found { IfOk result (λ es. Writes (grammar_of grammar.now) (S.Rule rule ∷ []) es.items tokens.now) }
    ensures refused { (place : ℕ) → result ≡ Err (ReadErr.Refused place) → IsRefusedAt (grammar_of grammar.now) rule tokens.now place }
{
    let mut reader = Reader::new(alloc, rule)?;
    for (place, &token) in tokens.iter().enumerate() {
        if !reader.take(grammar, choices, token)? {
            return Err(ReadErr::Refused(place));
        }
    }
    if !reader.finish(grammar)? {
        return Err(ReadErr::Refused(tokens.len()));
    }
    Ok(reader.events)
}
