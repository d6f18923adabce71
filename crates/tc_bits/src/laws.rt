//! What follows from the definitions alone.

ghost use Rattle.std.specs.Prelude.{codes, ◌≡◌, ℕ, ◌+◌, ◌*◌, ◌^◌, ◌<◌, None};
ghost use Rattle.tc_address.specs.declared.system.System.{System};
ghost use Rattle.tc_bits.specs.declared.raw.RawFields.{RawFields};
ghost use Rattle.tc_bits.specs.Row.{SumHolds, OnlySumHolds};
ghost use Rattle.tc_bits.specs.Spelling.{AreExact};
ghost use Rattle.tc_bits.specs.UserBits.{group};
ghost use Rattle.tc_bits.specs.Fields.{FieldValues, Says, fields_of};
ghost use Rattle.tc_bits.specs.Fault.{first_field_fault};
ghost use Rattle.tc_bits.specs.declared.names.TheConstants as names;

/// Numbers that fit places which share out the bits of a register are each in its place of their sum
/// by weights, and in no other register of this width.
pub fn a_row_is_its_sum()
    ensures holds { SumHolds }
    ensures only { OnlySumHolds }
{}

/// In a table's places fields are spelled exactly if the digits say them, and their numbers fit.
pub fn fields_are_exact()
    ensures { AreExact }
{}

/// The eight groups are the user bits.
pub fn eight_groups_are_the_user_bits()
    ensures { (user : ℕ) → user < 2 ^ 32 → user ≡
        group 1 user + group 2 user * 2 ^ 4 + group 3 user * 2 ^ 8 + group 4 user * 2 ^ 12
        + group 5 user * 2 ^ 16 + group 6 user * 2 ^ 20 + group 7 user * 2 ^ 24 + group 8 user * 2 ^ 28 }
{}

/// Digits say one address at most, and they say one exactly if they have no fault.
pub fn digits_are_exact()
    ensures one { (system : System) (raw : RawFields) (a b : FieldValues) → Says system raw a → Says system raw b
        → a ≡ b }
    ensures no_fault { (system : System) (raw : RawFields) (c : FieldValues) → Says system raw c
        → first_field_fault system raw ≡ None }
    ensures some { (system : System) (raw : RawFields) → first_field_fault system raw ≡ None
        → (c : FieldValues) × Says system raw c }
    ensures these { (system : System) (raw : RawFields) → first_field_fault system raw ≡ None
        → Says system raw (fields_of system raw) }
{}

/// The faults of the fields have these names in lines.
pub fn each_fault_has_its_name()
    ensures frame_units { names.FRAME_UNITS.now ≡ codes "frame-units" }
    ensures frames { names.FRAMES.now ≡ codes "frames" }
    ensures second_units { names.SECOND_UNITS.now ≡ codes "second-units" }
    ensures second_tens { names.SECOND_TENS.now ≡ codes "second-tens" }
    ensures minute_units { names.MINUTE_UNITS.now ≡ codes "minute-units" }
    ensures minute_tens { names.MINUTE_TENS.now ≡ codes "minute-tens" }
    ensures hour_units { names.HOUR_UNITS.now ≡ codes "hour-units" }
    ensures hours { names.HOURS.now ≡ codes "hours" }
    ensures dropped_label { names.DROPPED_LABEL.now ≡ codes "dropped-label" }
{}
