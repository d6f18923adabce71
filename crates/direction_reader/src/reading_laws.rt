//! What follows of each reading, whatever its words are asked for.
ghost use Rattle.std.specs.Prelude.{◌≡◌, ℕ, List, ◌++◌, sum};
ghost use Rattle.biphase.specs.declared.profile.Profile.{Profile};
ghost use Rattle.direction_reader.specs.declared.firm_event.FirmEvent.{FirmEvent};
ghost use Rattle.direction_reader.specs.declared.witness.Witness.{Witness};
ghost use Rattle.direction_reader.specs.FirmTold.{ComesFirst};
ghost use Rattle.direction_reader.specs.Reading.{AreEventsAsked, AreToldAsked};
ghost use Rattle.tc_address.specs.declared.system.System.{System};

use crate::consecutive_laws::{
    a_list_has_one_list_of_consecutive_events, a_list_has_one_list_of_consecutive_told,
    consecutive_told_come_first,
};
use crate::counted_laws::{
    a_list_has_one_list_of_counted_events, a_list_has_one_list_of_counted_told,
    counted_told_come_first,
};
use crate::firm_laws::{
    a_list_has_one_list_of_firm_events, a_list_has_one_list_of_told_events, told_events_come_first,
};
use crate::laws::{
    a_list_has_one_list_of_events, each_list_has_events, events_of_a_front_come_first,
};

/// A list of intervals has one list of events, by what each word is asked for.
pub fn a_list_has_one_reading()
    ensures some { (witness : Witness) (system : System) (profile : Profile) (intervals : List ℕ)
        → (events : List FirmEvent) × AreEventsAsked witness system profile intervals events }
    ensures one { (witness : Witness) (system : System) (profile : Profile) (intervals : List ℕ)
        (events others : List FirmEvent) → AreEventsAsked witness system profile intervals events
        → AreEventsAsked witness system profile intervals others → events ≡ others }
{
    each_list_has_events();
    a_list_has_one_list_of_events();
    a_list_has_one_list_of_firm_events();
    a_list_has_one_list_of_consecutive_events();
    a_list_has_one_list_of_counted_events();
}

/// And one list of those that are told while more may follow, up to one tick.
pub fn a_list_has_one_reading_yet()
    ensures some { (witness : Witness) (system : System) (profile : Profile) (intervals : List ℕ)
        → (told : List FirmEvent) × (until : ℕ) × AreToldAsked witness system profile intervals told until }
    ensures one { (witness : Witness) (system : System) (profile : Profile) (intervals : List ℕ)
        (told others : List FirmEvent) (until another : ℕ)
        → AreToldAsked witness system profile intervals told until
        → AreToldAsked witness system profile intervals others another → (told ≡ others) × (until ≡ another) }
{
    each_list_has_events();
    a_list_has_one_list_of_events();
    a_list_has_one_list_of_told_events();
    a_list_has_one_list_of_consecutive_told();
    a_list_has_one_list_of_counted_told();
}

/// If more intervals follow, what was told comes first, and all else ends at the tick up to which it was told, or
/// later.
pub fn what_is_told_comes_first()
    ensures all { (witness : Witness) (system : System) (profile : Profile) (front more : List ℕ)
        (told events : List FirmEvent) (until : ℕ) → AreToldAsked witness system profile front told until
        → AreEventsAsked witness system profile (front ++ more) events
        → ComesFirst told until events (sum (front ++ more)) }
    ensures more { (witness : Witness) (system : System) (profile : Profile) (front more : List ℕ)
        (told later : List FirmEvent) (until now : ℕ) → AreToldAsked witness system profile front told until
        → AreToldAsked witness system profile (front ++ more) later now → ComesFirst told until later now }
{
    events_of_a_front_come_first();
    told_events_come_first();
    consecutive_told_come_first();
    counted_told_come_first();
}
