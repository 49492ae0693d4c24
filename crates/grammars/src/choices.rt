//! What a grammar chooses, in a table by rule and class, which is made once.

ghost use Rattle.std.specs.Prelude.{◌≡◌, ◌<◌, ◌+◌, ℕ, suc, true, Some, length, slice_index_or, if◌then◌else◌, IfOk, OnOk};
ghost use Rattle.grammars.specs.Numbers.{some_number};
ghost use Rattle.grammars.specs.Rows.{has};
ghost use Rattle.grammars.specs.FlatGrammar.{grammar_of};
ghost use Rattle.grammars.specs.Lines.{begun, chosen, IsLine};
ghost use Rattle.grammars.specs.Choosing.{AreChoices};

use crate::grammar::Grammar;
use crate::parts::{number_at, part_of};
use crate::rows::{Alternative, Row};
use std::alloc::{AllocError, Global};

/// More than any of these classes.
fn above(classes: &[u16]) -> u32
    ensures { (c : ℕ) → has classes.now c ≡ true → c < result }
{
    let mut bound = 0;
    for &class in classes {
        if class as u32 >= bound {
            bound = class as u32 + 1;
        }
    }
    bound
}

/// Writes a number where one of those classes stands.
fn put(line: &mut [u16], classes: &[u16], number: u16)
    ensures length { length line.new ≡ length line.old }
    ensures entries { (c : ℕ) → c < length line.old → slice_index_or line.new c 0 ≡ (if has classes.now c then number else slice_index_or line.old c 0) }
{
    for &class in classes {
        let class = class as usize;
        if class < line.len() {
            line[class] = number;
        }
    }
}

/// Writes where alternatives begin, the first last, so that it counts where a class begins two. The first stands at
/// that place among all alternatives.
fn fill(line: &mut [u16], alternatives: &[Alternative], start: u16, firsts: &[u16])
    requires { start + length alternatives.now < 65536 }
    ensures length { length line.new ≡ length line.old }
    ensures entries { (c : ℕ) → c < length line.old → slice_index_or line.new c 0 ≡ begun firsts.now alternatives.now (suc start) c (slice_index_or line.old c 0) }
{
    let mut left = alternatives.len();
    while left > 0 {
        left -= 1;
        let alternative = alternatives[left];
        put(
            line,
            part_of(firsts, alternative.first, alternative.first_end),
            start + left as u16 + 1,
        );
    }
}

/// Makes a line that of a row: the alternative that may be nothing, but where a class begins one.
fn write_line(
    line: &mut Vec<u16>,
    classes: u32,
    row: &Row,
    grammar: &Grammar<'_>,
) -> Result<(), AllocError>
    ensures { OnOk result (IsLine classes (chosen grammar.now.firsts.now grammar.now.alternatives.now row.now) line.new.items) }
{
    line.clear();
    line.resize(classes as usize, row.nothing)?;
    fill(
        line,
        part_of(grammar.alternatives, row.start, row.end),
        row.start,
        grammar.firsts,
    );
    Ok(())
}

/// The number of the alternative that is chosen, by rule and class.
#[derive(Drop)]
pub struct Choices {
    /// How many classes a line has. Those behind begin nothing.
    pub classes: u32,
    /// The lines of all rules, one behind another; 0 stands for none.
    pub entries: Vec<u16>,
}

impl Choices {
    /// What a grammar chooses.
    pub fn new(alloc: Global, grammar: &Grammar<'_>) -> Result<Choices, AllocError>
        ensures { IfOk result (AreChoices grammar.now) }
    {
        let classes = above(grammar.firsts);
        let mut entries = Vec::new(alloc);
        let mut line = Vec::new(alloc);
        for row in grammar.rows {
            write_line(&mut line, classes, row, grammar)?;
            entries.extend_from_slice(&line)?;
        }
        Ok(Choices { classes, entries })
    }

    /// The number of the alternative that a rule goes on with before a token of that class, or 0.
    pub fn choose(&self, grammar: &Grammar<'_>, rule: u16, class: u16) -> u16
        requires { AreChoices grammar.now self.now }
        ensures { some_number result ≡ (grammar_of grammar.now).choose rule (Some class) }
    {
        if class as u32 >= self.classes {
            return grammar.nothing_of(rule);
        }
        number_at(
            &self.entries,
            rule as usize * self.classes as usize + class as usize,
        )
    }
}
