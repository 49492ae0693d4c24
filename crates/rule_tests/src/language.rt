//! The grammar of LLVM text with its words, and where it refuses a text.

ghost use Rattle.grammars.specs.Choosing.{AreChoices};

use grammars::choices::Choices;
use grammars::grammar::Grammar;
use ll_classes::classes::class_of;
use ll_classes::llvm_words::llvm_words;
use ll_classes::words::Words;
use ll_events::event_err::EventErr;
use ll_events::reading::events;
use ll_rules::tables::llvm;
use ll_tokens::token_err::TokenErr;
use ll_tokens::tokens::{Token, tokens};
use std::alloc::{AllocError, Global};

/// The grammar, what it chooses, and its words.
#[derive(Drop)]
pub struct Language {
    grammar: Grammar<'static>,
    choices: Choices,
    words: Words<'static>,
    ghost chosen: { AreChoices grammar choices },
}

impl Language {
    /// Those of LLVM text.
    pub fn new(alloc: Global) -> Result<Language, AllocError> {
        let grammar = llvm();
        let choices = Choices::new(alloc, &grammar)?;
        Ok(Language {
            grammar,
            choices,
            words: llvm_words(),
        })
    }

    /// The byte where a text is refused, None where it is read.
    pub fn refusal_of(
        &self,
        alloc: Global,
        rule: u16,
        bytes: &[u8],
    ) -> Result<Option<usize>, AllocError> {
        match events(
            alloc,
            &self.grammar,
            &self.choices,
            &self.words,
            rule,
            bytes,
        ) {
            Ok(_) => Ok(None),
            Err(EventErr::BadToken(place)) => Ok(Some(place)),
            Err(EventErr::Refused(place)) => Ok(Some(place)),
            Err(EventErr::NoMemory) => Err(AllocError),
        }
    }

    /// The class of a token of a text.
    fn class_at(&self, bytes: &[u8], token: &Token) -> u16 {
        let text = bytes.get(token.start as usize..token.end as usize);
        class_of(&self.words, token.kind, text.unwrap_or(&[]))
    }

    /// The classes of the tokens of a text, in words, or the byte where it is bad.
    pub fn classes_of(&self, alloc: Global, bytes: &[u8]) -> Result<String, AllocError> {
        let found = match tokens(alloc, bytes) {
            Ok(found) => found,
            Err(TokenErr::BadToken(place)) => return format!(in alloc; "bad {place} "),
            Err(TokenErr::NoMemory) => return Err(AllocError),
        };
        let mut said = String::new(alloc);
        for token in &found {
            let class = self.class_at(bytes, token);
            said.push_str(&format!(in alloc; "{class} ")?)?;
        }
        Ok(said)
    }
}
