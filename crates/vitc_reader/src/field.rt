//! What the lines of a field say together. Read next: `reading`.

ghost use Rattle.std.specs.Prelude.{◌≡◌, ◌<◌, ◌^◌, ◌↔◌, ◌++◌, ◌∷◌, [], ℕ, List, Result, Ok, Err, IfOk, IfErr, true};
ghost use Rattle.vitc_line.specs.Places.{HasLines};
ghost use Rattle.vitc_line.specs.declared.word.VitcWord.{VitcWord};
ghost use Rattle.vitc_reader.specs.declared.fault.ReadFault.{ReadFault};
ghost use Rattle.vitc_reader.specs.Runs.{IsLineLength, IsRunFault, MayBeLine, StandFor, runs_of_bytes};
ghost use Rattle.vitc_reader.specs.Field.{IsSaid, IsAnswerTo, IsAnswer, StandsFor};

use crate::fault::{ReadFault, RunFault};
use crate::reading::{factor_of, read_bytes, read_runs};
use std::marker::Model;
use tc_address::System;
use vitc_line::{VitcWord, decode};

/// What the lines of a field say together.
#[derive(Clone, Copy)]
pub enum FieldAnswer {
    /// Each line that says a word says this one.
    Agreed(VitcWord),
    /// The first word, and the first one that differs from it, in whatever part.
    Conflict(VitcWord, VitcWord),
    /// The field has no line.
    NoLine,
    /// No line says a word. This is the fault of the first line.
    Nothing(ReadFault),
}

/// Whether two words are the same in each part.
fn is_same(one: &VitcWord, other: &VitcWord) -> bool
    ensures { (result ≡ true) ↔ (one.now ≡ other.now) }
{
    if one == other { true } else { false }
}

impl FieldAnswer {
    /// The answer with one line more.
    fn with(self, said: Result<VitcWord, ReadFault>) -> FieldAnswer
        ensures { (before : List (Result VitcWord ReadFault)) → IsAnswerTo before self
            → IsAnswerTo (before ++ said ∷ []) result }
    {
        match (self, said) {
            (FieldAnswer::NoLine, Ok(word)) => FieldAnswer::Agreed(word),
            (FieldAnswer::NoLine, Err(fault)) => FieldAnswer::Nothing(fault),
            (FieldAnswer::Nothing(_), Ok(word)) => FieldAnswer::Agreed(word),
            (FieldAnswer::Agreed(first), Ok(word)) => {
                if is_same(&word, &first) {
                    self
                } else {
                    FieldAnswer::Conflict(first, word)
                }
            }
            _ => self,
        }
    }
}

/// What the bits of a line say, or why it has none.
fn say(system: System, read: Result<u128, RunFault>) -> Result<VitcWord, ReadFault>
    requires system { HasLines system }
    requires width { IfOk read (λ bits. bits < 2 ^ 90) }
    ensures { (n : ℕ) (runs : List ℕ) → IfOk read (StandFor n runs) → IfErr read (IsRunFault n runs)
        → IsSaid system n runs result }
{
    match read {
        Ok(bits) => match decode(system, bits) {
            Ok(word) => Ok(word),
            Err(fault) => Err(ReadFault::Line(fault)),
        },
        Err(fault) => Err(ReadFault::Runs(fault)),
    }
}

/// Reads the lines of one field, one after the other. It keeps no line.
#[derive(Clone, Copy)]
pub struct FieldReader {
    system: System,
    length: u32,
    factor: u64,
    answer: FieldAnswer,
}

impl Model for FieldReader {
    ghost use Rattle.std.specs.Prelude.{◌≡◌, ◌≤◌, ◌^◌, refl};
    ghost use Rattle.vitc_line.specs.Places.{HasLines};
    ghost use Rattle.vitc_reader.specs.KeptLine.{factor_on};
    ghost use Rattle.vitc_reader.specs.Runs.{IsLineLength};
    ghost use Rattle.vitc_reader.specs.Field.{FieldState};

    ghost Value = { FieldState };

    ghost view = { λ r. record { system = r.system; length = r.length; answer = r.answer } };

    ghost invariant = { λ r. HasLines r.system × IsLineLength r.length × (r.factor ≡ factor_on r.length)
        × (r.factor ≤ 2 ^ 54) };

    ghost inverse = { λ v. record {
      system = v.system;
      length = v.length;
      factor = factor_on v.length;
      answer = v.answer;
    } };

    ghost inverse_ok = { λ r h. rw (← h.2) refl };
}

impl FieldReader {
    /// A reader of a field of the system, 25 or 30 frames, whose lines last `length` ticks, from 460 to
    /// 65,535.
    pub fn new(system: System, length: u32) -> FieldReader
        requires system { HasLines system }
        requires length { IsLineLength length }
        ensures same { (result.system ≡ system) × (result.length ≡ length) }
        ensures none { StandsFor result [] }
    {
        FieldReader {
            system,
            length,
            factor: factor_of(length),
            answer: FieldAnswer::NoLine,
        }
    }

    /// Takes the next line of the field, as its runs in ticks: an odd number of them, 89 at most.
    pub fn line(&mut self, runs: &[u16])
        requires { MayBeLine runs.now }
        ensures same { (self.new.system ≡ self.old.system) × (self.new.length ≡ self.old.length) }
        ensures next { (lines : List (List ℕ)) → StandsFor self.old lines
            → StandsFor self.new (lines ++ runs.now ∷ []) }
    {
        let said = say(self.system, read_runs(self.length, runs));
        self.answer = self.answer.with(said);
    }

    /// Takes the next line of the field, as `line` does, with each run as two bytes, the most
    /// significant first. It returns whether the runs stand for bits.
    pub fn line_of_bytes(&mut self, bytes: &[u8]) -> bool
        requires { MayBeLine (runs_of_bytes bytes.now) }
        ensures same { (self.new.system ≡ self.old.system) × (self.new.length ≡ self.old.length) }
        ensures next { (lines : List (List ℕ)) → StandsFor self.old lines
            → StandsFor self.new (lines ++ runs_of_bytes bytes.now ∷ []) }
        ensures reads { result ≡ true → IsLineLength self.old.length
            × ((bits : ℕ) × StandFor self.old.length (runs_of_bytes bytes.now) bits) }
        ensures only { (bits : ℕ) → StandFor self.old.length (runs_of_bytes bytes.now) bits → result ≡ true }
    {
        let read = read_bytes(self.length, self.factor, bytes);
        let is_read = read.is_ok();
        let said = say(self.system, read);
        self.answer = self.answer.with(said);
        is_read
    }

    /// What the lines so far say together.
    pub fn answer(&self) -> FieldAnswer
        ensures value { result ≡ self.now.answer }
        ensures lines { (lines : List (List ℕ)) → StandsFor self.now lines
            → IsAnswer self.now.system self.now.length lines result }
    {
        self.answer
    }
}
