//! What bytes come to that are a text of sightings of a zone's keys.
ghost use Rattle.std.specs.Prelude.{◌≡◌, ◌<◌, ◌^◌, None, length, IfOk};
ghost use Rattle.dns_roll.specs.RollGrammar.{fall_of, roll_of};
ghost use Rattle.dns_run.specs.Tasks.{RollEnds, followed_text};

use dns_io::status;
use dns_record::NoMemory;
use dns_roll::{RollText, read_roll, write_trusted};
use dns_session::{SessionStop, bad_line_text};
use dns_session_lookup::listed_verifier;
use std::alloc::Global;

// The lines of the keys that are trusted after the sightings of a text.
fn followed(alloc: Global, text: RollText) -> Result<Vec<u8>, NoMemory>
    requires { fall_of text.sights ≡ None }
    ensures { IfOk result (λ v. v.items ≡ followed_text text) }
{
    let RollText {
        zone,
        algorithms,
        keys,
        accepts,
        sights,
    } = text;
    let verifier = listed_verifier(alloc, &algorithms, accepts)?;
    write_trusted(alloc, verifier, zone, &keys, &sights)
}

/// The status of a text of sightings, and what is written of it.
pub(crate) fn roll_ending(alloc: Global, bytes: &[u8]) -> Result<(u8, Vec<u8>), NoMemory>
    requires { length bytes.now < 2 ^ 32 }
    ensures ends { IfOk result (λ x. RollEnds (roll_of bytes.now) x.0 x.1.items) }
    ensures low { IfOk result (λ x. x.0 < 4) }
{
    match read_roll(alloc, bytes) {
        Ok(text) => {
            let lines = followed(alloc, text)?;
            Ok((status::DONE, lines))
        }
        Err(SessionStop::BadLine(number)) => {
            let text = bad_line_text(alloc, number)?;
            Ok((status::BAD_INPUT, text))
        }
        Err(SessionStop::NoMemory) => Err(NoMemory),
    }
}
