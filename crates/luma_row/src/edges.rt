//! The place of a word whose sync pairs stand at falling edges: in a row with little noise nothing has to be sought.
//! Read next: `cells`, and for other rows `coarse`.
ghost use Rattle.std.specs.Prelude.{◌≡◌, ℕ, ◌+◌, ◌<◌, ◌≤◌, false, IfNone, IfSome, length};
ghost use Rattle.luma_row.specs.declared.place.Place.{Place};
ghost use Rattle.luma_row.specs.Choice.{all_of};
ghost use Rattle.luma_row.specs.Edges.{is_in_reach, is_light, nine_cells, swings_enough};
ghost use Rattle.luma_row.specs.Edges.{IsNextEdge, IsSharp, LeadsTo, LiesBetween};
ghost use Rattle.luma_row.specs.KeptExtremes.{AreExtremes, IsMiddle};
ghost use Rattle.luma_row.specs.KeptLight.{AreSums};
ghost use Rattle.luma_row.specs.KeptPlace.{IsNear};
ghost use Rattle.luma_row.specs.KeptWidth.{IsWidth};
ghost use Rattle.luma_row.specs.Light.{IsRow};

use crate::cells::cell;
use crate::extremes::Extremes;
use crate::light::Sums;
use crate::place::{PAIRS, Place};
use crate::width::{grain, narrowest, widest, width_of};

/// Whether a pixel is no nearer to the darkest one than to the lightest.
#[inline(always)]
fn is_light(row: &[u8], middle: u8, pixel: usize) -> bool
    requires row { IsRow row.now }
    requires middle { IsMiddle row.now middle }
    requires pixel { pixel < length row.now }
    ensures { result ≡ is_light row.now pixel }
{
    middle <= row[pixel]
}

/// The first falling edge at a pixel or behind it.
fn next_edge(row: &[u8], middle: u8, from: usize) -> Option<usize>
    requires row { IsRow row.now }
    requires middle { IsMiddle row.now middle }
    ensures some { IfSome result (IsNextEdge row.now from) }
    ensures none { IfNone result ((pixel : ℕ) → IsNextEdge row.now from pixel → ⊥) }
{
    let mut was_light = 0 < from && from <= row.len() && is_light(row, middle, from - 1);
    for pixel in from..row.len() {
        let light = is_light(row, middle, pixel);
        if was_light && !light {
            return Some(pixel);
        }
        was_light = light;
    }
    None
}

/// Nine cells, in pixels.
fn nine_cells(width: u32) -> usize
    requires { IsWidth width }
    ensures value { result ≡ nine_cells width }
    ensures most { result ≤ width }
{
    (width * 3 / 32) as usize
}

/// From the falling edge of the first sync pair to that of the ninth.
fn last_edge(row: &[u8], middle: u8, first: usize) -> Option<usize>
    requires row { IsRow row.now }
    requires middle { IsMiddle row.now middle }
    requires first { first < length row.now }
    ensures some { IfSome result (LeadsTo row.now 8 first) }
    ensures none { IfNone result ((last : ℕ) → LeadsTo row.now 8 first last → ⊥) }
    ensures within { IfSome result (λ last. (first ≤ last) × (last < length row.now)) }
{
    let nine = nine_cells(width_of(row));
    let mut last = first;
    for edge in 1..PAIRS {
        match next_edge(row, middle, last + nine) {
            Some(next) => last = next,
            None => return None,
        }
    }
    Some(last)
}

/// Whether the ninth pair is as far from the first as a word may have it.
fn is_in_reach(width: u32, place: Place) -> bool
    requires width { IsWidth width }
    requires place { IsNear place }
    ensures { result ≡ is_in_reach width place }
{
    let apart = place.last - place.first;
    narrowest(width) <= apart + 2 * grain(width) && apart <= widest(width) + 2 * grain(width)
}

/// Whether a pair swings by five eighths of what the extremes are apart.
fn swings_enough(row: &[u8], sums: &Sums, extremes: Extremes, place: Place, pair: usize) -> bool
    requires row { IsRow row.now }
    requires sums { AreSums row.now sums.now }
    requires extremes { AreExtremes row.now extremes }
    requires place { IsNear place }
    requires pair { pair < 9 }
    ensures { result ≡ swings_enough row.now place pair }
{
    let contrast = u32::from(extremes.contrast());
    let one = cell(row, sums, extremes.darkest, place, 10 * pair);
    let zero = cell(row, sums, extremes.darkest, place, 10 * pair + 1);
    3 * u64::from(contrast * (place.last - place.first))
        <= 512 * u64::from(one.saturating_sub(zero))
}

/// Whether all pairs do.
fn all_swing(row: &[u8], sums: &Sums, extremes: Extremes, place: Place) -> bool
    requires row { IsRow row.now }
    requires sums { AreSums row.now sums.now }
    requires extremes { AreExtremes row.now extremes }
    requires place { IsNear place }
    ensures { result ≡ all_of 9 (swings_enough row.now place) }
{
    for pair in 0..PAIRS as usize {
        if !swings_enough(row, sums, extremes, place, pair) {
            return false;
        }
    }
    true
}

/// The place at which the falling edges lie.
fn between_edges(row: &[u8], extremes: Extremes) -> Option<Place>
    requires row { IsRow row.now }
    requires extremes { AreExtremes row.now extremes }
    ensures some { IfSome result (LiesBetween row.now) }
    ensures none { IfNone result ((place : Place) → LiesBetween row.now place → ⊥) }
    ensures near { IfSome result IsNear }
{
    let middle = extremes.middle();
    let first = next_edge(row, middle, 0)?;
    let last = last_edge(row, middle, first)?;
    Some(Place {
        first: 16 * first as u32,
        last: 16 * last as u32,
    })
}

/// The place of a word whose pairs stand at falling edges and swing, if there is one.
pub(crate) fn sharp_place(row: &[u8], sums: &Sums, extremes: Extremes) -> Option<Place>
    requires row { IsRow row.now }
    requires sums { AreSums row.now sums.now }
    requires extremes { AreExtremes row.now extremes }
    ensures some { IfSome result (IsSharp row.now) }
    ensures none { IfNone result ((place : Place) → IsSharp row.now place → ⊥) }
    ensures near { IfSome result IsNear }
{
    let place = between_edges(row, extremes)?;
    if is_in_reach(width_of(row), place) && all_swing(row, sums, extremes, place) {
        Some(place)
    } else {
        None
    }
}
