//! The functions of words that C calls. Read next: `line`.
ghost use Rattle.std.specs.Prelude.{◌≡◌, ◌^◌, ◌<◌, ◌≤◌, Some, true, false};
ghost use Rattle.tc_address.specs.declared.system.System.{System};
ghost use Rattle.tc_address.specs.Count.{system_with};
ghost use Rattle.ltc_word.specs.declared.word.LtcWord.{LtcWord};
ghost use Rattle.ltc_word.specs.declared.word.WordFault.{WordFault};
ghost use Rattle.ltc_word.specs.Fault.{first_fault};
ghost use Rattle.ltc_word.specs.Spelling.{Spells};
ghost use Rattle.tc_c.specs.CSettings.{system_number};
ghost use Rattle.tc_c.specs.CWord.{MeansWord, number_of_bits, word_fault_number};

use crate::settings::system_of;
use crate::word::{TcBits, TcWord, word_fault_number};
use ltc_word::laws::spelling_is_exact;
use ltc_word::{decode, encode};
use tc_address::System;

/// What `tc_bits_word` says where there is no such system, or where a bit behind the 80 is set.
const NO_BITS: u32 = 11;

/// The 80 bits that spell a word, where the numbers mean one, and tells whether they do.
#[unsafe(no_mangle)]
pub extern "C" fn tc_word_bits(word: &TcWord, bits: &mut TcBits) -> bool
    ensures spells { (w : LtcWord) → MeansWord word.now w
        → (result ≡ true) × Spells (system_with w.fields.label.count) w (number_of_bits bits.new) }
    ensures means { result ≡ true → (w : LtcWord) × MeansWord word.now w }
    ensures refused { result ≡ false → bits.new ≡ bits.old }
{
    match word.meaning() {
        Some(word) => {
            *bits = TcBits::holding(encode(&word));
            true
        }
        None => false,
    }
}

/// Reads a word of the system from its 80 bits, and gives 0, or else the number of their first fault.
fn read_word(system: System, bits: u128, word: &mut TcWord) -> u32
    requires { bits < 2 ^ 80 }
    ensures reads { (w : LtcWord) → Spells system w bits → (result ≡ 0) × MeansWord word.new w }
    ensures only { result ≡ 0 → (w : LtcWord) × Spells system w bits }
    ensures fault { (f : WordFault) → first_fault system bits ≡ Some f → result ≡ word_fault_number f }
    ensures refused { ¬ (result ≡ 0) → word.new ≡ word.old }
{
    spelling_is_exact();
    match decode(system, bits) {
        Ok(read) => {
            *word = TcWord::numbers_of(&read);
            0
        }
        Err(fault) => word_fault_number(fault),
    }
}

/// Reads a word of the system from its 80 bits, and gives 0, or else the number of their first fault.
#[unsafe(no_mangle)]
pub extern "C" fn tc_bits_word(system: u32, bits: &TcBits, word: &mut TcWord) -> u32
    ensures reads { (s : System) (w : LtcWord) → system_number s ≡ system → number_of_bits bits.now < 2 ^ 80
        → Spells s w (number_of_bits bits.now) → (result ≡ 0) × MeansWord word.new w }
    ensures only { result ≡ 0 → (s : System) × (w : LtcWord) × (system_number s ≡ system)
        × Spells s w (number_of_bits bits.now) }
    ensures fault { (s : System) (f : WordFault) → system_number s ≡ system → number_of_bits bits.now < 2 ^ 80
        → first_fault s (number_of_bits bits.now) ≡ Some f → result ≡ word_fault_number f }
    ensures no_system { ((s : System) → ¬ (system_number s ≡ system)) → result ≡ 11 }
    ensures no_bits { 2 ^ 80 ≤ number_of_bits bits.now → result ≡ 11 }
    ensures refused { ¬ (result ≡ 0) → word.new ≡ word.old }
{
    let Some(system) = system_of(system) else {
        return NO_BITS;
    };
    match bits.eighty() {
        Some(number) => read_word(system, number, word),
        None => NO_BITS,
    }
}
