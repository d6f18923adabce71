//! The fields of a word that say an address. Read next: `tc_address/src/label.rt`, and then `flags`.

ghost use Rattle.std.specs.Prelude.{◌≡◌, IfOk, IfErr, true, false};
ghost use Rattle.tc_bits.specs.Fields.{field_values, agrees, IsFields};

use crate::flags::Flags;
use crate::user_bits::UserBits;
use std::marker::Model;
use tc_address::{Count, Label};
use thiserror::Error;

/// A frame address with its flag bits and user bits. At 30 frames the drop-frame flag decides the
/// count: it is not set if the label's count is 30, and it is set if that is 30 drop-frame.
#[derive(Clone, Copy, PartialEq, Eq)]
pub struct Fields {
    pub(crate) label: Label,
    pub(crate) flags: Flags,
    pub(crate) user: UserBits,
}

impl Model for Fields {
    ghost use Rattle.tc_bits.specs.Fields.{FieldValues, field_values, IsFields};

    ghost Value = { FieldValues };

    ghost view = { λ f. field_values f.label f.flags f.user };

    ghost invariant = { λ f. IsFields (field_values f.label f.flags f.user) };

    ghost inverse = { λ c. record { label = c.label; flags = c.flags; user = c.user } };
}

/// The drop-frame flag says another count than the label's.
#[derive(Clone, Copy, Debug, Drop, Error)]
#[error("the drop-frame flag says another count than the label's")]
pub struct DropFlag;

impl Fields {
    /// Puts a label, flags and user bits together. It is refused exactly if the count is 30 and
    /// the drop-frame flag is set, or the count is 30 drop-frame and the flag is not set.
    pub fn new(label: Label, flags: Flags, user: UserBits) -> Result<Fields, DropFlag>
        ensures reads { IfOk result (λ fields. fields ≡ field_values label flags user) }
        ensures agrees { IfOk result (λ fields. agrees label.count flags.drop_frame ≡ true) }
        ensures refuses { IfErr result (λ fault. agrees label.count flags.drop_frame ≡ false) }
    {
        let is_told = match label.count() {
            Count::C24 | Count::C25 => true,
            Count::C30 => !flags.drop_frame,
            Count::Drop30 => flags.drop_frame,
        };
        if is_told {
            Ok(Fields { label, flags, user })
        } else {
            Err(DropFlag)
        }
    }

    /// The frame address and its count.
    pub fn label(&self) -> Label
        ensures value { result ≡ self.now.label }
        ensures valid { IsFields self.now }
    {
        self.label
    }

    /// The flag bits.
    pub fn flags(&self) -> Flags
        ensures value { result ≡ self.now.flags }
        ensures valid { IsFields self.now }
    {
        self.flags
    }

    /// The user bits.
    pub fn user(&self) -> UserBits
        ensures value { result ≡ self.now.user }
        ensures valid { IsFields self.now }
    {
        self.user
    }
}
