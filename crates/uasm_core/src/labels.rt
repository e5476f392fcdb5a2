//! Where the labels stand.
ghost use Rattle.std.specs.Prelude.{◌≡◌, OnOk};
ghost use Rattle.uasm_core.specs.Views.{places_of, with_label, no_label};

use crate::place::Place;
use std::alloc::{AllocFailed, Global};
use std::collections::BTreeMap;

/// The places of the labels.
#[derive(Drop)]
pub(crate) struct LabelPlaces<'a> {
    pub places: BTreeMap<&'a [u8], Place>,
}

/// No label yet.
pub(crate) fn no_labels<'a>(alloc: Global) -> LabelPlaces<'a>
    ensures { places_of result ≡ no_label }
{
    LabelPlaces {
        places: BTreeMap::new(alloc),
    }
}

/// Where a label stands.
pub(crate) fn find<'a>(labels: &LabelPlaces<'a>, name: &'a [u8]) -> Option<Place>
    ensures { result ≡ places_of labels.now name.now }
{
    labels.places.get(&name).copied()
}

/// One label more.
pub(crate) fn add<'a>(
    labels: &mut LabelPlaces<'a>,
    name: &'a [u8],
    place: Place,
) -> Result<(), AllocFailed<(&'a [u8], Place)>>
    ensures { OnOk result (places_of labels.new ≡ with_label name.now place (places_of labels.old)) }
{
    labels.places.insert(name, place)?;
    Ok(())
}
