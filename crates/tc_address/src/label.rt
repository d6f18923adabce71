//! A frame address that is a label of its count, and the first fault of one that is none. Read next:
//! `numbering`.
ghost use Rattle.std.specs.Prelude.{◌≡◌, IfOk, IfErr};
ghost use Rattle.tc_address.specs.Label.{address, is_dropped_by, IsLabel, IsFirstFault};

use crate::count::{Count, system_of};
use crate::system::rate;
use std::marker::Model;
use thiserror::Error;

/// A frame address together with its count.
#[derive(Clone, Copy, PartialEq, Eq)]
pub struct Label {
    count: Count,
    hours: u32,
    minutes: u32,
    seconds: u32,
    frames: u32,
}

impl Model for Label {
    ghost use Rattle.tc_address.specs.Label.{Address, address, IsLabel};

    ghost Value = { Address };

    ghost view = { λ l. address l.count l.hours l.minutes l.seconds l.frames };

    ghost invariant = { λ l. IsLabel (address l.count l.hours l.minutes l.seconds l.frames) };

    ghost inverse = { λ a. record {
      count = a.count;
      hours = a.hours;
      minutes = a.minutes;
      seconds = a.seconds;
      frames = a.frames;
    } };
}

/// The first fault of a frame address, in the order of these variants.
#[derive(Clone, Copy, Debug, Drop, Error)]
pub enum LabelFault {
    /// The hours are above 23.
    #[error("Hours")]
    Hours,
    /// The minutes are above 59.
    #[error("Minutes")]
    Minutes,
    /// The seconds are above 59.
    #[error("Seconds")]
    Seconds,
    /// The frames are not below the rate.
    #[error("Frames")]
    Frames,
    /// Drop-frame counting drops the label.
    #[error("Dropped")]
    Dropped,
}

/// Whether the count drops the address.
fn is_dropped(count: Count, minutes: u32, seconds: u32, frames: u32) -> bool
    ensures { result ≡ is_dropped_by count minutes seconds frames }
{
    match count {
        Count::Drop30 => seconds == 0 && frames <= 1 && minutes % 10 != 0,
        _ => false,
    }
}

impl Label {
    /// Makes a label of its parts.
    pub fn new(
        count: Count,
        hours: u32,
        minutes: u32,
        seconds: u32,
        frames: u32,
    ) -> Result<Label, LabelFault>
        ensures reads { let parts = address count hours minutes seconds frames in
            IfOk result (λ label. (label ≡ parts) × IsLabel parts) }
        ensures only { let parts = address count hours minutes seconds frames in IsLabel parts → result ≡ Ok parts }
        ensures refuses { let parts = address count hours minutes seconds frames in
            IfErr result (λ fault. IsFirstFault fault parts) }
    {
        if hours > 23 {
            return Err(LabelFault::Hours);
        }
        if minutes > 59 {
            return Err(LabelFault::Minutes);
        }
        if seconds > 59 {
            return Err(LabelFault::Seconds);
        }
        if frames >= rate(system_of(count)) {
            return Err(LabelFault::Frames);
        }
        if is_dropped(count, minutes, seconds, frames) {
            return Err(LabelFault::Dropped);
        }
        Ok(Label {
            count,
            hours,
            minutes,
            seconds,
            frames,
        })
    }

    /// The label of parts that make one.
    pub(crate) fn from_parts(
        count: Count,
        hours: u32,
        minutes: u32,
        seconds: u32,
        frames: u32,
    ) -> Label
        requires { IsLabel (address count hours minutes seconds frames) }
        ensures { result ≡ address count hours minutes seconds frames }
    {
        Label {
            count,
            hours,
            minutes,
            seconds,
            frames,
        }
    }

    /// How the frames are counted.
    pub fn count(&self) -> Count
        ensures value { result ≡ self.now.count }
        ensures valid { IsLabel self.now }
    {
        self.count
    }

    /// The hours, from 0 to 23.
    pub fn hours(&self) -> u32
        ensures value { result ≡ self.now.hours }
        ensures valid { IsLabel self.now }
    {
        self.hours
    }

    /// The minutes, from 0 to 59.
    pub fn minutes(&self) -> u32
        ensures value { result ≡ self.now.minutes }
        ensures valid { IsLabel self.now }
    {
        self.minutes
    }

    /// The seconds, from 0 to 59.
    pub fn seconds(&self) -> u32
        ensures value { result ≡ self.now.seconds }
        ensures valid { IsLabel self.now }
    {
        self.seconds
    }

    /// The frames, below the rate of the count's system.
    pub fn frames(&self) -> u32
        ensures value { result ≡ self.now.frames }
        ensures valid { IsLabel self.now }
    {
        self.frames
    }
}
