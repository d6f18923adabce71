//! What follows from the definition of a move alone.
ghost use Rattle.std.specs.Prelude.{◌≡◌, ℕ, ◌≤◌, ◌↔◌, ℤ, pos, neg_ℤ, ◌+ℤ◌, ◌≤ℤ◌};
ghost use Rattle.tc_address.specs.Circle.{moved, IsShortest};
ghost use Rattle.tc_address.specs.declared.count.Count.{Count};
ghost use Rattle.transport_model.specs.Move.{day_of, HonoursBound};

use tc_address::laws::moves_add_up;

/// The bound is eight subframes either way, a tenth of a frame.
pub fn the_bound_is_eight_subframes()
    ensures { (slip : ℤ) → HonoursBound slip ↔ ((neg_ℤ (pos 8) ≤ℤ slip) × (slip ≤ℤ pos 8)) }
{}

/// A slip moves on from where the order led, and within the bound it is the shortest way from there
/// to where the transport is.
pub fn a_slip_leads_away_from_the_place_that_was_meant()
    ensures after { (count : Count) (position : ℕ) (order slip : ℤ)
        → moved (day_of count) (moved (day_of count) position order) slip
        ≡ moved (day_of count) position (order +ℤ slip) }
    ensures way { (count : Count) (position : ℕ) (order slip : ℤ) → HonoursBound slip
        → IsShortest (day_of count) (moved (day_of count) position order)
        (moved (day_of count) position (order +ℤ slip)) slip }
{
    moves_add_up();
}
