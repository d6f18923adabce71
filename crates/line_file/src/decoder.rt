//! The decoder of a line file. Read next: `found`, and with the answer of a field `texts`.
ghost use Rattle.std.specs.Prelude.{◌≡◌, ◌<◌, ◌++◌, ℕ, List, [], length, Some, None, OnOk, IfErr};
ghost use Rattle.vitc_reader.specs.declared.field.FieldAnswer.{FieldAnswer};
ghost use Rattle.line_file.specs.LineFile.{end_fault_of};
ghost use Rattle.line_file.specs.StandsFor.{StandsFor, no_decoding, AddsTaken, FitsFields, IsCut, StopsAt};

use crate::field::{FoundField, field_in};
use crate::header::{FoundHeader, HEADER_LENGTH, LineHeader, header_in};
use file_faults::LineFileFault;
use std::marker::Model;
use vitc_reader::FieldAnswer;

/// How many fields are read, at most.
pub const MAX_FIELDS: u32 = 100_000_000;

/// The most bytes of a field: 20 lines of 89 runs.
pub const FIELD_ROOM: usize = 3_581;

/// What bytes begin with.
#[derive(Clone, Copy)]
pub enum Taken {
    /// None were taken: a header or a field begins with them, and is not whole.
    Few,
    /// The header, of this many bytes.
    Header(usize),
    /// A field, of this many bytes, with its answer.
    Field { count: usize, answer: FieldAnswer },
    /// The first fault of the bytes so far.
    Fault(LineFileFault),
    /// One field too many.
    Limit,
}

/// Decodes a line file field by field, and keeps no byte of it. A field that is not whole is given again, with more
/// bytes behind it.
#[derive(Drop)]
pub struct LineDecoder {
    header: Option<LineHeader>,
    place: u64,
    fields: u32,
}

impl Model for LineDecoder {
    ghost use Rattle.line_file.specs.StandsFor.{Decoding, IsDecoding, decoding_of};

    ghost Value = { Decoding };

    ghost view = { λ d. decoding_of d.header d.place d.fields };

    ghost invariant = { λ d. IsDecoding (decoding_of d.header d.place d.fields) };
}

impl LineDecoder {
    /// A decoder before the first byte.
    pub fn new() -> LineDecoder
        ensures value { result ≡ no_decoding }
        ensures stands { StandsFor result [] [] }
    {
        LineDecoder {
            header: None,
            place: 0,
            fields: 0,
        }
    }

    /// Takes the header or the field with which bytes begin. If it takes none, the decoder is as it was.
    pub fn take(&mut self, bytes: &[u8]) -> Taken
        requires { 0 < length bytes.now }
        ensures takes { AddsTaken self.old self.new bytes.now result }
        ensures bounds { FitsFields self.new }
        ensures stops { (front : List ℕ) (answers : List FieldAnswer) → StandsFor self.old front answers
            → StopsAt (front ++ bytes.now) answers result }
    {
        let Some(header) = self.header else {
            return match header_in(bytes) {
                FoundHeader::Whole(header) => {
                    self.header = Some(header);
                    self.place = HEADER_LENGTH as u64;
                    Taken::Header(HEADER_LENGTH)
                }
                FoundHeader::Short => Taken::Few,
                FoundHeader::Fault(fault) => Taken::Fault(fault),
            };
        };
        if self.fields == MAX_FIELDS {
            return Taken::Limit;
        }
        match field_in(&header, self.place, bytes) {
            FoundField::Whole { answer, width } => {
                self.fields += 1;
                self.place += width as u64;
                Taken::Field {
                    count: width,
                    answer,
                }
            }
            FoundField::Short => Taken::Few,
            FoundField::Fault(fault) => Taken::Fault(fault),
        }
    }

    /// The fault of an input that ends with these bytes, if a header or a field begins with them and is not whole.
    pub fn cut_off(&self, bytes: &[u8]) -> LineFileFault
        ensures { IsCut self.now bytes.now → (front : List ℕ) (answers : List FieldAnswer)
            → StandsFor self.now front answers → end_fault_of (front ++ bytes.now) ≡ Some result }
    {
        LineFileFault::Truncated(self.place + bytes.len() as u64)
    }

    /// The end of the input: the fault if it may not end here.
    pub fn finish(&self) -> Result<(), LineFileFault>
        ensures ok { OnOk result ((bytes : List ℕ) (answers : List FieldAnswer) → StandsFor self.now bytes answers
            → end_fault_of bytes ≡ None) }
        ensures err { IfErr result (λ fault. (bytes : List ℕ) (answers : List FieldAnswer)
            → StandsFor self.now bytes answers
            → end_fault_of bytes ≡ Some fault) }
    {
        if self.header.is_some() {
            Ok(())
        } else {
            Err(LineFileFault::Truncated(self.place))
        }
    }
}
