//! Events as they are kept in lists: a number each, since a text has many.

ghost use Rattle.std.specs.Prelude.{◌≡◌, IfSome};
ghost use Rattle.grammars.specs.declared.symbols.Event.TheVariants.{Took, Held};

use crate::symbols::Event;
use std::marker::Model;

/// How many numbers stand for alternatives. Those behind them stand for tokens.
const ALTERNATIVES: u32 = 65536;

/// An event in four bytes, seen as that event.
#[derive(Clone, Copy)]
pub struct PackedEvent {
    code: u32,
}

impl Model for PackedEvent {
    ghost use Rattle.grammars.specs.declared.symbols.Event as symbols;
    ghost use Rattle.grammars.specs.Packing.{event_of, code_of, code_again};

    ghost Value = { symbols.Event };

    ghost view = { λ p. event_of p.code };

    ghost inverse = { λ e. record { code = code_of e } };

    ghost inverse_ok = { λ p h i. record { code = code_again p.code i } };
}

impl PackedEvent {
    /// The alternative of that number was taken.
    #[inline(always)]
    pub fn took(alternative: u16) -> PackedEvent
        ensures { result ≡ Took alternative }
    {
        PackedEvent {
            code: alternative as u32,
        }
    }

    /// The token of that number was held, if the number leaves room for those of alternatives.
    #[inline(always)]
    pub fn held(at: u32) -> Option<PackedEvent>
        ensures { IfSome result (λ e. e ≡ Held at) }
    {
        let code = at.checked_add(ALTERNATIVES)?;
        Some(PackedEvent { code })
    }

    /// The event.
    #[inline(always)]
    pub fn event(self) -> Event
        ensures { result ≡ self }
    {
        if self.code < ALTERNATIVES {
            Event::Took(self.code as u16)
        } else {
            Event::Held(self.code - ALTERNATIVES)
        }
    }
}
