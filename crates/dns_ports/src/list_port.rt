//! A port in memory.
ghost use Rattle.std.specs.Prelude.{◌≡◌, ◌≤◌, ◌++◌, ◌∷◌, [], None, Some, OnOk, take};
ghost use Rattle.std.specs.Option.{option_map};
ghost use Rattle.dns_ports.specs.Ports.{TellsMore};
ghost use Rattle.dns_ports.specs.Lists.{faults_after, given_in};

use crate::port::{Port, PortFault};
use dns_handle::IoKind;
use dns_record::{NoMemory, Octets};
use std::alloc::Global;

/// A port in memory. It gives requests in order and then none, takes each reply, and fails where it is told to. It tells what it gave,
/// and, until memory runs out for one, which replies it took.
#[derive(Drop)]
pub struct ListPort {
    requests: Vec<Octets>,
    /// So many of them came.
    given: usize,
    /// The numbers, from 0, of the calls that fail.
    fails: Vec<u64>,
    /// How many calls were made.
    calls: u64,
    replies: Option<Vec<Octets>>,
    faults: u64,
    gots: u64,
    ends: u64,
}

impl ListPort {
    /// A port to which these requests come. `fails` are the numbers, from 0, of the calls that fail; their kind is `Other`.
    pub fn new(requests: Vec<Octets>, fails: Vec<u64>) -> ListPort
        ensures faults { ⟦<ListPort as Port>⟧.faults result ≡ 0 }
        ensures gots { ⟦<ListPort as Port>⟧.gots result ≡ 0 }
        ensures ends { ⟦<ListPort as Port>⟧.ends result ≡ 0 }
        ensures received { ⟦<ListPort as Port>⟧.received result ≡ Some [] }
        ensures replied { ⟦<ListPort as Port>⟧.replied result ≡ Some [] }
    {
        let replies = Vec::new(*requests.allocator());
        ListPort {
            requests,
            given: 0,
            fails,
            calls: 0,
            replies: Some(replies),
            faults: 0,
            gots: 0,
            ends: 0,
        }
    }

    /// The replies that it took, in order; `None` once memory ran out for one.
    pub fn replies(&self) -> Option<&[Octets]>
        ensures { option_map (λ all. all.now) result ≡ ⟦<ListPort as Port>⟧.replied self.now }
    {
        match &self.replies {
            None => None,
            Some(all) => Some(all.as_slice()),
        }
    }
}

// Whether the next call fails, which is now made and counted.
fn fails_now(fails: &[u64], calls: &mut u64, faults: &mut u64) -> bool
    ensures count { faults.new ≡ faults_after result faults.old }
    ensures later { faults.old ≤ faults.new }
{
    let fails = fails.contains(calls);
    *calls = calls.saturating_add(1);
    if fails {
        *faults = faults.saturating_add(1);
    }
    fails
}

// The next request, if one is left.
fn next_request(requests: &[Octets], given: &mut usize) -> Result<Option<Octets>, NoMemory>
    ensures { take given.new requests.now ≡ take given.old requests.now ++ given_in result }
{
    let Some(next) = requests.get(*given) else {
        return Ok(None);
    };
    let request = next.try_clone()?;
    *given += 1;
    Ok(Some(request))
}

// Puts a reply behind the others. Where memory runs out, nothing changes.
fn put(replies: &mut Vec<Octets>, bytes: &[u8]) -> Result<(), NoMemory>
    ensures { OnOk result (replies.new.items ≡ replies.old.items ++ bytes.now ∷ []) }
{
    let reply = Octets::from_slice(*replies.allocator(), bytes)?;
    replies.push(reply)?;
    Ok(())
}

// Keeps a reply behind the others, where they are told; or tells none any more.
fn keep(replies: &mut Option<Vec<Octets>>, bytes: &[u8])
    ensures { TellsMore (option_map (λ all. all.items) replies.old) (bytes.now ∷ []) (option_map (λ all. all.items) replies.new) }
{
    let is_kept = match replies {
        None => true,
        Some(all) => put(all, bytes).is_ok(),
    };
    if !is_kept {
        *replies = None;
    }
}

impl Port for ListPort {
    ghost faults = { λ p. p.faults };

    ghost gots = { λ p. p.gots };

    ghost ends = { λ p. p.ends };

    ghost received = { λ p. Some (take p.given p.requests.items) };

    ghost replied = { λ p. option_map (λ all. all.items) p.replies };

    fn receive(&mut self) -> Result<Option<Octets>, PortFault> {
        if fails_now(&self.fails, &mut self.calls, &mut self.faults) {
            return Err(PortFault::Io(IoKind::Other));
        }
        match next_request(&self.requests, &mut self.given) {
            Ok(Some(request)) => {
                self.gots = self.gots.saturating_add(1);
                Ok(Some(request))
            }
            Ok(None) => {
                self.ends = self.ends.saturating_add(1);
                Ok(None)
            }
            Err(NoMemory) => Err(PortFault::NoMemory),
        }
    }

    fn reply(&mut self, bytes: &[u8]) -> Result<(), IoKind> {
        if fails_now(&self.fails, &mut self.calls, &mut self.faults) {
            return Err(IoKind::Other);
        }
        keep(&mut self.replies, bytes);
        Ok(())
    }
}
