//! The text of a label, and the label of a text or the text's first fault.
ghost use Rattle.std.specs.Prelude.{◌≡◌, ◌+◌, ◌<◌, length, slice_index, IfOk, IfErr, IfSome, IfNone, IsTrue};
ghost use Rattle.std.specs.Prelude.{MatchResult};
ghost use Rattle.tc_address.specs.Label.{Address, IsLabel};
ghost use Rattle.tc_address.specs.Spelling.{text_of, label_in, separator, is_digit, may_stand, number_at};
ghost use Rattle.tc_address.specs.Spelling.{IsFirstTextFault, IsFirstWrongPlace, IsGoodBelow};

use crate::count::Count;
use crate::digits::two_digits;
use crate::label::{Label, LabelFault};
use thiserror::Error;

/// The first fault of a text, in the order of these variants.
#[derive(Clone, Copy, Debug, Drop, Error)]
pub enum TextFault {
    /// There are not eleven bytes.
    #[error("Length")]
    Length,
    /// The byte at this place, from 0, is not the digit or the separator that belongs there.
    #[error("Byte")]
    Byte(usize),
    /// The numbers are no label of the count.
    #[error("Label")]
    Label(LabelFault),
}

impl From<LabelFault> for TextFault {
    ghost use Rattle.std.specs.Prelude.{◌≡◌};
    ghost use Rattle.tc_address.specs.declared.spelling.TextFault.TheVariants as faults;

    ghost from_gives = { λ fault e. e ≡ faults.Label fault };

    fn from(fault: LabelFault) -> TextFault {
        TextFault::Label(fault)
    }
}

/// The byte before the frames.
fn separator(count: Count) -> u8
    ensures { result ≡ separator count }
{
    match count {
        Count::Drop30 => b';',
        _ => b':',
    }
}

/// Whether the byte may be at the place.
fn may_stand(count: Count, place: usize, byte: u8) -> bool
    ensures { result ≡ may_stand count place byte }
{
    match place {
        2 | 5 => byte == b':',
        8 => byte == separator(count),
        _ => byte.is_ascii_digit(),
    }
}

/// The first place whose byte may not be there.
fn first_wrong_place(count: Count, text: &[u8]) -> Option<usize>
    ensures none { IfNone result (IsGoodBelow count text.now (length text.now)) }
    ensures some { IfSome result (λ place. IsFirstWrongPlace count text.now place) }
{
    for (place, byte) in text.iter().enumerate() {
        if !may_stand(count, place, *byte) {
            return Some(place);
        }
    }
    None
}

/// The number of the two digits from a place on.
fn number_at(text: &[u8], place: usize) -> u32
    requires within { place + 1 < length text.now }
    requires tens { IsTrue (is_digit (slice_index text.now place)) }
    requires units { IsTrue (is_digit (slice_index text.now (place + 1))) }
    ensures { result ≡ number_at text.now place }
{
    10 * u32::from(text[place] - b'0') + u32::from(text[place + 1] - b'0')
}

/// Reads `HH:MM:SS:FF`, and `HH:MM:SS;FF` for drop-frame.
pub fn read_text(text: &[u8], count: Count) -> Result<Label, TextFault>
    ensures reads { IfOk result (λ label. (text.now ≡ text_of label) × (label.count ≡ count) × IsLabel label) }
    ensures only { (label : Address) → IsLabel label → label.count ≡ count → text.now ≡ text_of label
        → result ≡ Ok label }
    ensures refuses { IfErr result (λ fault. IsFirstTextFault count text.now fault) }
    ensures spelled { MatchResult result
        (λ label. label_in count text.now ≡ Some label) (λ _. label_in count text.now ≡ None) }
{
    if text.len() != 11 {
        return Err(TextFault::Length);
    }
    if let Some(place) = first_wrong_place(count, text) {
        return Err(TextFault::Byte(place));
    }
    let label = Label::new(
        count,
        number_at(text, 0),
        number_at(text, 3),
        number_at(text, 6),
        number_at(text, 9),
    )?;
    Ok(label)
}

/// The text `HH:MM:SS:FF`, and `HH:MM:SS;FF` for drop-frame, in ASCII.
pub fn text(label: &Label) -> [u8; 11]
    ensures { result ≡ text_of label.now }
{
    let [hour_tens, hour_units] = two_digits(label.hours());
    let [minute_tens, minute_units] = two_digits(label.minutes());
    let [second_tens, second_units] = two_digits(label.seconds());
    let [frame_tens, frame_units] = two_digits(label.frames());
    [
        hour_tens,
        hour_units,
        b':',
        minute_tens,
        minute_units,
        b':',
        second_tens,
        second_units,
        separator(label.count()),
        frame_tens,
        frame_units,
    ]
}
