//! Lists in parentheses, one in another: what is read, what is refused and where, and that nesting has no bound.

use crate::choices::Choices;
use crate::grammar::Grammar;
use crate::packed_event::PackedEvent;
use crate::read_err::ReadErr;
use crate::reader::{Reader, read};
use crate::rows::{Alternative, Row};
use crate::symbols::{Event, Symbol, Token};
use std::alloc::{AllocError, Global};
use std::test::Fail;

const OPEN: u16 = 0;

const CLOSE: u16 = 1;

const NAME: u16 = 2;

const COMMA: u16 = 3;

// list  = 1: ( items )
// items = 2: | 3: item more
// item  = 4: NAME | 5: list
// more  = 6: | 7: , item more
static SYMBOLS: [Symbol; 10] = [
    Symbol::Word(1),
    Symbol::Rule(1),
    Symbol::Word(0),
    Symbol::Rule(3),
    Symbol::Rule(2),
    Symbol::Leaf(2),
    Symbol::Rule(0),
    Symbol::Rule(3),
    Symbol::Rule(2),
    Symbol::Word(3),
];

static ALTERNATIVES: [Alternative; 7] = [
    Alternative {
        start: 0,
        end: 3,
        first: 0,
        first_end: 1,
    },
    Alternative {
        start: 3,
        end: 3,
        first: 1,
        first_end: 1,
    },
    Alternative {
        start: 3,
        end: 5,
        first: 1,
        first_end: 3,
    },
    Alternative {
        start: 5,
        end: 6,
        first: 3,
        first_end: 4,
    },
    Alternative {
        start: 6,
        end: 7,
        first: 4,
        first_end: 5,
    },
    Alternative {
        start: 7,
        end: 7,
        first: 5,
        first_end: 5,
    },
    Alternative {
        start: 7,
        end: 10,
        first: 5,
        first_end: 6,
    },
];

static ROWS: [Row; 4] = [
    Row {
        start: 0,
        end: 1,
        more: 0,
        more_end: 0,
        nothing: 0,
        height: 1,
    },
    Row {
        start: 1,
        end: 3,
        more: 0,
        more_end: 3,
        nothing: 2,
        height: 3,
    },
    Row {
        start: 3,
        end: 5,
        more: 3,
        more_end: 3,
        nothing: 0,
        height: 2,
    },
    Row {
        start: 5,
        end: 7,
        more: 3,
        more_end: 4,
        nothing: 6,
        height: 1,
    },
];

static FIRSTS: [u16; 6] = [0, 0, 2, 2, 0, 3];

static MORES: [u16; 4] = [0, 2, 3, 3];

fn lists() -> Grammar<'static> {
    Grammar {
        symbols: &SYMBOLS,
        alternatives: &ALTERNATIVES,
        rows: &ROWS,
        firsts: &FIRSTS,
        mores: &MORES,
    }
}

/// What tokens of those classes are read as, as a list.
fn events_of(alloc: Global, classes: &[u16]) -> Result<Vec<PackedEvent>, ReadErr> {
    let grammar = lists();
    let choices = Choices::new(alloc, &grammar)?;
    let mut tokens = Vec::new(alloc);
    for (place, &class) in classes.iter().enumerate() {
        tokens.push(Token {
            class,
            at: (place % 1000) as u32,
        })?;
    }
    read(alloc, &grammar, &choices, 0, &tokens)
}

/// An event as a number: an alternative by its own, and a token by the place of its text and 1000.
fn code(event: Event) -> u32 {
    match event {
        Event::Took(alternative) => alternative as u32,
        Event::Held(at) => 1000 + at % 1000,
    }
}

fn codes(alloc: Global, events: &[PackedEvent]) -> Result<Vec<u32>, AllocError> {
    let mut codes = Vec::new(alloc);
    for &event in events {
        codes.push(code(event.event()))?;
    }
    Ok(codes)
}

#[test]
fn reads_a_list_in_a_list(rt: HostRuntime) -> Result<(), Fail> {
    // (a,(b))
    let events = events_of(rt.alloc(), &[OPEN, NAME, COMMA, OPEN, NAME, CLOSE, CLOSE])?;
    assert!(rt;
        codes(rt.alloc(), &events)?.as_slice()
            == [1, 3, 4, 1001, 7, 5, 1, 3, 4, 1004, 6, 6].as_slice()
    );
    Ok(())
}

#[test]
fn reads_an_empty_list(rt: HostRuntime) -> Result<(), Fail> {
    let events = events_of(rt.alloc(), &[OPEN, CLOSE])?;
    assert!(rt; codes(rt.alloc(), &events)?.as_slice() == [1, 2].as_slice());
    Ok(())
}

#[test]
fn tells_where_it_refuses(rt: HostRuntime) {
    // (a    where the text ends
    assert!(rt;
        matches!(
            events_of(rt.alloc(), &[OPEN, NAME]),
            Err(ReadErr::Refused(2))
        )
    );
    // (,a)  a name is left out
    assert!(rt;
        matches!(
            events_of(rt.alloc(), &[OPEN, COMMA, NAME, CLOSE]),
            Err(ReadErr::Refused(1))
        )
    );
    // (a))  one is closed too many
    assert!(rt;
        matches!(
            events_of(rt.alloc(), &[OPEN, NAME, CLOSE, CLOSE]),
            Err(ReadErr::Refused(3))
        )
    );
    // (?)   of a class that the grammar does not know
    assert!(rt;
        matches!(
            events_of(rt.alloc(), &[OPEN, 9, CLOSE]),
            Err(ReadErr::Refused(1))
        )
    );
}

#[test]
fn reads_deep_nesting(rt: HostRuntime) -> Result<(), Fail> {
    let mut classes = Vec::new(rt.alloc());
    for _ in 0..100_000 {
        classes.push(OPEN)?;
    }
    assert!(rt;
        matches!(
            events_of(rt.alloc(), &classes),
            Err(ReadErr::Refused(100_000))
        )
    );
    for _ in 0..100_000 {
        classes.push(CLOSE)?;
    }
    // each list is opened, each but the first is an item, the last has none, and none has more
    assert_eq!(rt; events_of(rt.alloc(), &classes)?.len(), 399_998);
    Ok(())
}

#[test]
fn empties_events_between_tokens(rt: HostRuntime) -> Result<(), Fail> {
    let grammar = lists();
    let choices = Choices::new(rt.alloc(), &grammar)?;
    let mut reader = Reader::new(rt.alloc(), 0)?;
    assert!(rt; reader.take(&grammar, &choices, Token { class: OPEN, at: 0 })?);
    assert!(rt; codes(rt.alloc(), &reader.events)?.as_slice() == [1].as_slice());
    reader.events.clear();
    assert!(rt;
        reader.take(
            &grammar,
            &choices,
            Token {
                class: CLOSE,
                at: 1
            }
        )?
    );
    assert!(rt; codes(rt.alloc(), &reader.events)?.as_slice() == [2].as_slice());
    assert!(rt; reader.finish(&grammar)?);
    Ok(())
}
