//! A word in numbers, and its 80 bits. Read next: `line_exports`.
ghost use Rattle.std.specs.Prelude.{◌≡◌, ◌^◌, ◌<◌, ◌≤◌, Some, None, IfSome};
ghost use Rattle.tc_bits.specs.Fields.{IsFields};
ghost use Rattle.ltc_word.specs.declared.word.LtcWord.{LtcWord};
ghost use Rattle.ltc_word.specs.declared.word.WordFault.{WordFault};
ghost use Rattle.tc_c.specs.CWord.{MeansWord, flags_in, number_of_bits, word_fault_number};

use crate::event::{fault_number, flag_bits};
use crate::label::TcLabel;
use ltc_word::{LtcWord, WordFault};
use tc_bits::{Fields, Flags, UserBits};

/// The number of a fault of the sync word.
const NO_SYNC: u32 = 10;

/// A word in numbers. Those of no word mean nothing.
#[repr(C)]
#[derive(Clone, Copy)]
pub struct TcWord {
    pub label: TcLabel,
    /// Bit 0 first: bit 10, which at 30 frames says that labels are dropped, colour framing, the three binary
    /// group flags, and whether an even number of the 80 bits is 0.
    pub flags: u32,
    /// The user bits, group 1 as the least significant.
    pub user: u32,
}

/// The 80 bits of a word, of which bit 0 comes first in time.
#[repr(C)]
#[derive(Clone, Copy)]
pub struct TcBits {
    /// Bits 0 to 63, bit 0 as the least significant.
    pub low: u64,
    /// Bits 64 to 79, which are the sync word, bit 64 as the least significant.
    pub high: u64,
}

impl TcWord {
    /// The word that they mean, where they mean one.
    pub(crate) fn meaning(&self) -> Option<LtcWord>
        ensures means { IfSome result (MeansWord self.now) }
        ensures only { (word : LtcWord) → MeansWord self.now word → result ≡ Some word }
    {
        let label = self.label.meaning()?;
        if self.flags > 63 {
            return None;
        }
        let Ok(fields) = Fields::new(label, flags_of(self.flags), UserBits::new(self.user)) else {
            return None;
        };
        Some(LtcWord {
            fields,
            balanced: self.flags / 32 == 1,
        })
    }

    /// The numbers of a word.
    pub(crate) fn numbers_of(word: &LtcWord) -> TcWord
        requires { IsFields word.now.fields }
        ensures { MeansWord result word.now }
    {
        TcWord {
            label: TcLabel::numbers_of(&word.fields.label()),
            flags: u32::from(flag_bits(word.fields.flags(), word.balanced)),
            user: word.fields.user().groups(),
        }
    }
}

/// The flags whose bits a number has.
fn flags_of(number: u32) -> Flags
    ensures { result ≡ flags_in number }
{
    Flags {
        drop_frame: number % 2 == 1,
        colour_frame: number / 2 % 2 == 1,
        group_flag_zero: number / 4 % 2 == 1,
        group_flag_one: number / 8 % 2 == 1,
        group_flag_two: number / 16 % 2 == 1,
    }
}

impl TcBits {
    /// The bits of a number.
    pub(crate) fn holding(number: u128) -> TcBits
        requires { number < 2 ^ 80 }
        ensures { number_of_bits result ≡ number }
    {
        TcBits {
            low: (number % (1 << 64)) as u64,
            high: (number >> 64) as u64,
        }
    }

    /// Them as one number.
    pub(crate) fn number(&self) -> u128
        ensures { result ≡ number_of_bits self.now }
    {
        u128::from(self.low) + u128::from(self.high) * (1 << 64)
    }

    /// Them as one number of 80 bits, where no higher bit is set.
    pub(crate) fn eighty(&self) -> Option<u128>
        ensures is { IfSome result (λ number. number ≡ number_of_bits self.now) }
        ensures below { IfSome result (λ number. number < 2 ^ 80) }
        ensures none { result ≡ None → 2 ^ 80 ≤ number_of_bits self.now }
        ensures some { IfSome result (λ number. number_of_bits self.now < 2 ^ 80) }
    {
        if self.high >= 1 << 16 {
            return None;
        }
        Some(u128::from(self.low) + u128::from(self.high) * (1 << 64))
    }
}

/// The number of a fault.
pub(crate) fn word_fault_number(fault: WordFault) -> u32
    ensures value { result ≡ word_fault_number fault }
    ensures some { 1 ≤ result }
{
    match fault {
        WordFault::Sync(_) => NO_SYNC,
        WordFault::Field(fault) => u32::from(fault_number(fault)),
    }
}
