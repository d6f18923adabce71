//! The jobs of recordings and of pictures, made of their values. Read next: `made_sound`.
ghost use Rattle.std.specs.Prelude.{◌≡◌, ◌≤◌, ◌/◌, min};
ghost use Rattle.biphase.specs.Shape.{IsShape, IsShaped, shape_with};
ghost use Rattle.forms.specs.Held.{number_or};
ghost use Rattle.forms.specs.Made.{chase_in, flight_at, jam_in, line_stripe_in, load_in, luma_in, stripe_in};
ghost use Rattle.forms.specs.Reading.{AreRead};
ghost use Rattle.forms.specs.declared.table.TheConstants.{CHASE, FLIGHT, JAM, LINES, LOAD, LUMA, MAKE};

use crate::held::{
    direction_at, label_at, number_or, seed_at, system_at, tolerance_at, witness_at,
};
use crate::value::Value;
use biphase::Shaper;
use luma_field::Raster;
use tc_job::{ChaseRun, Flight, Jam, LineStripe, LoadRun, LumaRun, Stripe};

/// How frames are had, by the words `LIMIT [worn|rough [firm|consecutive|counted]]`.
#[tactic(auto, using(crate::proofs::JobsInRange::limit_valid))]
pub(crate) fn flight_of(values: &[Value]) -> Flight
    requires { AreRead FLIGHT.now values.now }
    ensures { result ≡ flight_at values.now 0 1 }
{
    flight_at(values, 0, 1)
}

/// The same of a limit at one place, and of the words from another on.
fn flight_at(values: &[Value], limit: usize, more: usize) -> Flight
    requires limit { number_or values.now limit 0 ≤ 255 }
    requires more { more ≤ 9 }
    ensures { result ≡ flight_at values.now limit more }
{
    Flight {
        limit: number_or(values, limit, 0) as u8,
        profile: tolerance_at(values, more),
        witness: witness_at(values, more + 1),
    }
}

/// `ltc-jam`
#[tactic(auto, unfolding(crate::specs::Made::jam_in), using(crate::proofs::JobsInRange::jam_valid))]
pub(crate) fn jam_of(values: &[Value]) -> Jam
    requires { AreRead JAM.now values.now }
    ensures { result ≡ jam_in values.now }
{
    Jam::new(
        flight_at(values, 0, 3),
        number_or(values, 1, 0),
        number_or(values, 2, 0),
    )
}

/// `ltc-chase`
#[tactic(auto, unfolding(crate::specs::Made::chase_in), using(crate::proofs::JobsInRange::chase_label, crate::proofs::JobsInRange::chase_limit, crate::proofs::JobsInRange::chase_valid))]
pub(crate) fn chase_of(values: &[Value]) -> ChaseRun
    requires { AreRead CHASE.now values.now }
    ensures { result ≡ chase_in values.now }
{
    let label = label_at(values, 1);
    let flight = flight_at(values, 2, 5);
    ChaseRun::new(label, flight, seed_at(values, 3), number_or(values, 4, 0))
}

/// `ltc-make`
#[tactic(auto, unfolding(crate::specs::Made::stripe_in), using(crate::proofs::JobsInRange::stripe_label, crate::proofs::JobsInRange::stripe_cell, crate::proofs::JobsInRange::stripe_to_cell, crate::proofs::JobsInRange::stripe_step, crate::proofs::JobsInRange::stripe_valid))]
pub(crate) fn stripe_of(values: &[Value]) -> Stripe
    requires { AreRead MAKE.now values.now }
    ensures { result ≡ stripe_in values.now }
{
    let cell = number_or(values, 4, 0);
    let to_cell = number_or(values, 6, cell);
    let shaper = shaper_with(cell, to_cell, number_or(values, 7, 0));
    let direction = direction_at(values, 1);
    let label = label_at(values, 2);
    Stripe::new(
        direction,
        label,
        number_or(values, 3, 0),
        shaper,
        number_or(values, 5, 0),
    )
}

/// The cells from one length to another by a step.
fn shaper_with(from: u32, to: u32, step: u32) -> Shaper
    requires from { IsShaped from }
    requires to { IsShaped to }
    requires step { step ≤ min from to / 8 }
    ensures value { result ≡ shape_with from to step }
    ensures valid { IsShape result }
{
    match Shaper::new(from, to, step) {
        Ok(shaper) => shaper,
        Err(_) => unreachable!(),
    }
}

/// `ltc-load`
#[tactic(auto, unfolding(crate::specs::Made::load_in), using(crate::proofs::JobsInRange::load_valid))]
pub(crate) fn load_of(values: &[Value]) -> LoadRun
    requires { AreRead LOAD.now values.now }
    ensures { result ≡ load_in values.now }
{
    LoadRun::new(seed_at(values, 0), number_or(values, 1, 0))
}

/// `vitc-make`
#[tactic(auto, unfolding(crate::specs::Made::line_stripe_in), using(crate::proofs::JobsInRange::lines_label, crate::proofs::JobsInRange::lines_valid))]
pub(crate) fn line_stripe_of(values: &[Value]) -> LineStripe
    requires { AreRead LINES.now values.now }
    ensures { result ≡ line_stripe_in values.now }
{
    LineStripe::new(
        label_at(values, 1),
        number_or(values, 2, 0),
        number_or(values, 3, 0),
    )
}

/// `luma-vitc`
#[tactic(auto, unfolding(crate::specs::Made::luma_in), using(crate::proofs::JobsInRange::luma_system, crate::proofs::JobsInRange::luma_raster))]
pub(crate) fn luma_of(values: &[Value]) -> LumaRun
    requires { AreRead LUMA.now values.now }
    ensures { result ≡ luma_in values.now }
{
    let width = number_or(values, 1, 0);
    let height = number_or(values, 2, 0);
    let raster = Raster::new(
        width,
        height,
        number_or(values, 3, 0),
        number_or(values, 4, 0),
    );
    LumaRun::new(system_at(values, 0), raster)
}
