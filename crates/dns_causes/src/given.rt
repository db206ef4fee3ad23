//! The causes that a step found, for later steps that repeat its sets: each is found by the key of its set, without a walk.

ghost use Rattle.std.specs.Prelude.{◌≡◌, ◌∷◌, [], IfOk, OnOk, Some};
ghost use Rattle.std.specs.BTreeMap.{Updates, get as get_in};
ghost use Rattle.std.specs.Option.{option_copied, option_map};
ghost use Rattle.dns_cache.specs.KeyOrder.{key_cmp};
ghost use Rattle.dns_cache.specs.Kinds.{kind_value};
ghost use Rattle.dns_causes.specs.Causes.{given_for};
ghost use Rattle.dns_causes.specs.GivenPlaces.{cause_at as cause_in};

use dns_cache::{CacheKey, ProofErrorKind};
use dns_record::NoMemory;
use std::alloc::Global;
use std::collections::BTreeMap;
use std::marker::Model;

/// The cause of one set.
#[derive(Drop)]
pub(crate) struct GivenCause {
    key: CacheKey,
    cause: ProofErrorKind,
}

impl Model for GivenCause {
    ghost use Rattle.dns_cache.specs.Kinds.{kind_value};
    ghost use Rattle.dns_rules.specs.CacheKeys.{CacheKeyValue};
    ghost use Rattle.dns_rules.specs.ProofErrors.{ProofErrorKindValue};

    ghost Value = { CacheKeyValue × ProofErrorKindValue };

    ghost view = { λ g. (g.key, kind_value g.cause) };
}

/// The causes of a step's sets.
#[derive(Drop)]
pub(crate) struct GivenCauses {
    /// The last one last.
    all: Vec<GivenCause>,
    /// Where the last one of each key stands.
    places: BTreeMap<CacheKey, usize>,
}

impl Model for GivenCauses {
    ghost use Rattle.std.specs.Prelude.{reverse};
    ghost use Rattle.dns_causes.specs.Causes.{Given};
    ghost use Rattle.dns_causes.specs.GivenPlaces.{ArePlaces};

    ghost Value = { Given };

    ghost view = { λ g. reverse g.all.items };

    ghost invariant = { λ g. ArePlaces g.places g.all.items };
}

impl GivenCauses {
    /// No cause.
    pub(crate) fn new(alloc: Global) -> GivenCauses
        ensures { result ≡ [] }
    {
        GivenCauses {
            all: Vec::new(alloc),
            places: BTreeMap::new(alloc),
        }
    }

    /// With one cause more.
    #[tactic(auto, using(crate::proofs::PlaceLemmas::reverse_last))]
    pub(crate) fn with(self, key: CacheKey, cause: ProofErrorKind) -> Result<GivenCauses, NoMemory>
        ensures { IfOk result (λ g. g ≡ (key, kind_value cause) ∷ self) }
    {
        let GivenCauses {
            mut all,
            mut places,
        } = self;
        let own_key = key.try_clone()?;
        let place = all.len();
        note_place(&mut places, own_key, place)?;
        all.push(GivenCause { key, cause })?;
        Ok(GivenCauses { all, places })
    }

    /// The last cause of a key.
    pub(crate) fn of(&self, key: &CacheKey) -> Option<&ProofErrorKind>
        ensures { option_map kind_value (option_copied result) ≡ given_for self.now key.now }
    {
        found_cause(&self.places, &self.all, key)
    }
}

// Gives a key another place.
fn note_place(
    places: &mut BTreeMap<CacheKey, usize>,
    key: CacheKey,
    place: usize,
) -> Result<(), NoMemory>
    ensures { OnOk result (Updates key_cmp places.old places.new key (Some place)) }
{
    places.insert(key, place)?;
    Ok(())
}

// The cause at the place of a key.
fn found_cause<'a>(
    places: &BTreeMap<CacheKey, usize>,
    all: &'a [GivenCause],
    key: &CacheKey,
) -> Option<&'a ProofErrorKind>
    ensures { option_map kind_value (option_copied result) ≡ cause_in all.now (get_in key_cmp places.now key.now) }
{
    match places.get(key) {
        Some(place) => cause_at(all, *place),
        None => None,
    }
}

// The cause at a place.
fn cause_at(all: &[GivenCause], place: usize) -> Option<&ProofErrorKind>
    ensures { option_map kind_value (option_copied result) ≡ cause_in all.now (Some place) }
{
    match all.get(place) {
        Some(found) => Some(&found.cause),
        None => None,
    }
}
