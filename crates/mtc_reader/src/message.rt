//! The messages of MIDI Time Code among all MIDI messages. Read next: `row`.
ghost use Rattle.std.specs.Prelude.{◌≡◌};
ghost use Rattle.mtc_reader.specs.Messages.{kind_with};

/// The kind of a message, as far as MIDI Time Code distinguishes them.
#[derive(Clone, Copy)]
pub enum MessageKind {
    /// A quarter frame.
    Quarter,
    /// A system exclusive message, which may be a full message.
    Exclusive,
    /// No message of MIDI Time Code.
    Other,
}

/// What a complete message carries.
#[derive(Clone, Copy)]
pub enum Message {
    /// The data byte of a quarter frame: a piece from 0 to 7 above four bits.
    QuarterFrame(u8),
    /// The numbers of a full message. The count is above the five bits of the hours.
    FullMessage {
        hours: u8,
        minutes: u8,
        seconds: u8,
        frames: u8,
    },
}

/// The kind of the message that a status byte begins.
pub fn kind_of(status: u8) -> MessageKind
    ensures { result ≡ kind_with status }
{
    match status {
        0xf1 => MessageKind::Quarter,
        0xf0 => MessageKind::Exclusive,
        _ => MessageKind::Other,
    }
}
