//! The zones whose key sets are asked for.
ghost use Rattle.std.specs.Prelude.{◌≡◌, None, IfOk};
ghost use Rattle.std.specs.Option.{option_copied};
ghost use Rattle.dns_anchor_keys.specs.Zones.{is_new_zone, zones_from};

use dns_master_file::RecordLine;
use dns_record::{Name, NoMemory, RecordType};
use std::alloc::Global;

// Whether a line is a digest for another zone than the last one before it.
fn is_new_zone(last: Option<&Name>, line: &RecordLine) -> bool
    ensures { result ≡ is_new_zone (option_copied last.entry) line.now }
{
    if line.record_type != RecordType::DS {
        return false;
    }
    match last {
        Some(zone) => *zone != line.name,
        None => true,
    }
}

/// The zones of the digests, in the order of the lines; one that stands in several digests, one behind another, is there once.
#[tactic(auto, unfolding(crate::specs::Zones::zones_from))]
pub(crate) fn zones_of(alloc: Global, lines: &[RecordLine]) -> Result<Vec<Name>, NoMemory>
    ensures { IfOk result (λ zones. zones.items ≡ zones_from None lines.now) }
{
    let mut zones = Vec::new(alloc);
    let mut last = None;
    let mut rest = lines;
    'lines: while let Some((line, more)) = rest.split_first() {
        if is_new_zone(last, line) {
            let zone = line.name.try_clone()?;
            zones.push(zone)?;
            last = Some(&line.name);
        }
        rest = more;
    }
    Ok(zones)
}
