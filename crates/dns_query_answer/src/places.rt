//! Where a set of a trail stands, with what is known of why it isn't Secure.
ghost use Rattle.std.specs.Prelude.{◌≡◌, ◌<◌, position, length, IfSome};
ghost use Rattle.std.specs.Option.{option_map};
ghost use Rattle.dns_cache.specs.Kinds.{kind_value};
ghost use Rattle.dns_causes.specs.Values.{kinds_of};
ghost use Rattle.dns_evidence.specs.Trail.{heard_value};
ghost use Rattle.dns_query_answer.specs.PlaceValues.{explained_by, place_of};
ghost use Rattle.dns_query_answer.specs.Places.{cause_at as cause_in, causes_of as causes_in, heard_section, origin_place, place_at as place_in, place_in_step, records_beside, same_judged_set};

use dns_cache::ProofErrorKind;
use dns_evidence::{Asked, JudgedSet, Reply};
use dns_model::{MarkOrigin, Section};
use dns_record::Record;

/// A trail with the causes of its sets, step by step.
#[derive(Drop)]
pub(crate) struct Context<'a> {
    /// When the sets were judged, in seconds since 1970.
    pub(crate) moment: u64,
    /// The steps of the trail.
    pub(crate) steps: &'a [Asked],
    /// The causes of each step's sets.
    pub(crate) causes: &'a [Vec<Option<ProofErrorKind>>],
}

/// A set of a step, and its cause.
#[derive(Drop)]
pub(crate) struct Place<'a> {
    pub(crate) step: &'a Asked,
    pub(crate) set: &'a JudgedSet,
    pub(crate) cause: Option<&'a ProofErrorKind>,
}

/// The cause with a number, if there is one.
pub(crate) fn cause_at(causes: &[Option<ProofErrorKind>], number: usize) -> Option<&ProofErrorKind>
    ensures { option_map (λ k. kind_value k.now) result ≡ cause_in (kinds_of causes.now) number }
{
    match causes.get(number) {
        Some(Some(kind)) => Some(kind),
        Some(None) => None,
        None => None,
    }
}

/// The set of a step with a number.
pub(crate) fn place_at<'a>(
    step: &'a Asked,
    causes: &'a [Option<ProofErrorKind>],
    number: usize,
) -> Option<Place<'a>>
    ensures { option_map place_of result ≡ place_in step.now (kinds_of causes.now) number }
{
    let set = step.sets.get(number)?;
    Some(Place {
        step,
        set,
        cause: cause_at(causes, number),
    })
}

impl<'a> Context<'a> {
    /// The causes of the sets of the step with a number; none where nothing is known of them.
    pub(crate) fn causes_of(&self, number: usize) -> &'a [Option<ProofErrorKind>]
        ensures { kinds_of result.now ≡ causes_in (explained_by self.now) number }
    {
        match self.causes.get(number) {
            Some(found) => found.as_slice(),
            None => &[],
        }
    }
}

// Whether two sets have the same section, owner and type.
fn is_same(one: &JudgedSet, other: &JudgedSet) -> bool
    ensures { result ≡ same_judged_set one.now other.now }
{
    one.section == other.section && one.owner == other.owner && one.record_type == other.record_type
}

// Where the first set stands with the same section, owner and type.
fn first_same(set: &JudgedSet, sets: &[JudgedSet]) -> Option<usize>
    ensures { result ≡ position (same_judged_set set.now) sets.now }
{
    sets.iter().position(|other| is_same(set, other))
}

// Where the step with a number has a set.
fn place_in_step<'a>(context: &Context<'a>, set: &JudgedSet, number: u32) -> Option<Place<'a>>
    ensures { option_map place_of result ≡ place_in_step (explained_by context.now) set.now number }
{
    let step = context.steps.get(number as usize)?;
    let place = first_same(set, &step.sets)?;
    place_at(step, context.causes_of(number as usize), place)
}

/// Where a set was judged by the rules: where it stands, or in the step that it repeats.
#[tactic(auto, unfolding(crate::specs::Places::origin_place))]
pub(crate) fn origin_place<'a>(context: &Context<'a>, place: &Place<'a>) -> Place<'a>
    ensures { place_of result ≡ origin_place (explained_by context.now) (place_of place.now) }
{
    let own = Place {
        step: place.step,
        set: place.set,
        cause: place.cause,
    };
    let set = place.set;
    match set.origin {
        MarkOrigin::Repeat(number) => match place_in_step(context, set, number) {
            Some(first) => first,
            None => own,
        },
        MarkOrigin::Table | MarkOrigin::Cache => own,
    }
}

/// The records of a section that a reply tells.
pub(crate) fn section_of(reply: &Reply, section: Section) -> &[Record]
    ensures { result.now ≡ heard_section (heard_value reply.now) section }
{
    let Reply::Told(told) = reply else {
        return &[];
    };
    match section {
        Section::Answer => &told.answers,
        Section::Authority => &told.authorities,
        Section::Additional => &told.additionals,
    }
}

/// The records of the section that a set stands in.
pub(crate) fn records_beside<'a>(place: &Place<'a>) -> &'a [Record]
    ensures { result.now ≡ records_beside (place_of place.now) }
{
    let step = place.step;
    let set = place.set;
    section_of(&step.reply, set.section)
}
