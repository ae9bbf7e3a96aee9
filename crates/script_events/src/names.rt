//! What the names of a script's lines stand for.

ghost use Rattle.std.specs.Prelude.{◌≡◌, ◌≢◌, ℕ, None, Some, slice_get, IfNone, IfSome, OnOk};
ghost use Rattle.script_events.specs.Asking.{StandsFor, at_name};
ghost use Rattle.script_events.specs.Scripts.{IsOfSort, sort_of};

use std::alloc::AllocError;
use std::collections::BTreeMap;
use world::Event;

/// Places of events by name.
pub(crate) type Places<'a> = BTreeMap<&'a [u8], usize>;

/// What names stand for.
#[derive(Drop)]
pub(crate) struct Names<'a> {
    /// The latest get, summary, send or dump.
    pub(crate) events: Places<'a>,
    /// The latest run of a resolver on a get of that name, where no later one was refused.
    pub(crate) runs: Places<'a>,
}

/// What an event is, as far as names may ask for it.
#[derive(Clone, Copy, PartialEq, Eq)]
pub(crate) enum Sort {
    Get,
    Summary,
    Message,
    Dump,
    Run,
    Other,
}

// What the event at a place is.
fn sort_at(events: &[Event], place: usize) -> Sort
    ensures { result ≡ sort_of (slice_get events.now place) }
{
    match events.get(place) {
        Some(Event::Get { .. }) => Sort::Get,
        Some(Event::Summarize { .. }) => Sort::Summary,
        Some(Event::Send { .. }) => Sort::Message,
        Some(Event::SendPart { .. }) => Sort::Message,
        Some(Event::Dump { .. }) => Sort::Dump,
        Some(Event::ResolveRead { .. }) => Sort::Run,
        _ => Sort::Other,
    }
}

/// The place of the latest event of a name, where that is of a sort.
pub(crate) fn found(events: &[Event], places: &Places<'_>, name: &[u8], sort: Sort) -> Option<usize>
    ensures named { IfSome result (λ place. at_name places.now name.now ≡ Some place) }
    ensures of_sort { IfSome result (IsOfSort sort events.now) }
    ensures none { IfNone result ((place : ℕ) → at_name places.now name.now ≡ Some place → sort_of (slice_get events.now place) ≢ sort) }
{
    let place = *places.get(name)?;
    if sort_at(events, place) == sort {
        Some(place)
    } else {
        None
    }
}

/// Has a name stand for a place.
pub(crate) fn name_place<'a>(
    places: &mut Places<'a>,
    name: &'a [u8],
    place: usize,
) -> Result<(), AllocError>
    ensures { OnOk result (StandsFor (at_name places.old) name.now (Some place) (at_name places.new)) }
{
    places.insert(name, place)?;
    Ok(())
}

/// Has a name stand for no place.
pub(crate) fn unname_place(places: &mut Places<'_>, name: &[u8])
    ensures { StandsFor (at_name places.old) name.now None (at_name places.new) }
{
    places.remove(name);
}
