//! What links, sockets and dialers met, as counts.
ghost use Rattle.std.specs.Prelude.{◌≡◌};
ghost use Rattle.dns_link.specs.Counts.{no_counts, sum_counted, after_dial, after_read, after_receive, after_send, after_write, with_counts, with_end, with_fault, with_got, with_quiet};

use dns_handle::IoKind;
use std::marker::Model;

/// What was met by a link, a socket or a dialer. Each count stops at the greatest `u64`.
#[derive(Drop)]
pub struct Counts {
    faults: u64,
    ends: u64,
    gots: u64,
    quiet: u64,
}

impl Model for Counts {
    ghost use Rattle.dns_link.specs.Counts.{CountsValue};

    ghost Value = { CountsValue };

    ghost view = { λ c. record { faults = c.faults; ends = c.ends; gots = c.gots; quiet = c.quiet } };
}

/// A sum that stops at the greatest `u64`.
fn add_counted(count: &mut u64, more: u64)
    ensures { count.new ≡ sum_counted count.old more }
{
    *count = count.saturating_add(more);
}

impl Counts {
    /// Nothing was met yet.
    pub fn new() -> Counts
        ensures { result ≡ no_counts }
    {
        Counts {
            faults: 0,
            ends: 0,
            gots: 0,
            quiet: 0,
        }
    }

    /// A call failed.
    pub fn count_fault(&mut self)
        ensures { self.new ≡ with_fault self.old }
    {
        self.faults = self.faults.saturating_add(1);
    }

    /// A read found the end, or less was taken than has to be.
    pub fn count_end(&mut self)
        ensures { self.new ≡ with_end self.old }
    {
        self.ends = self.ends.saturating_add(1);
    }

    /// Bytes or a datagram came.
    pub fn count_got(&mut self)
        ensures { self.new ≡ with_got self.old }
    {
        self.gots = self.gots.saturating_add(1);
    }

    /// No datagram came.
    pub fn count_quiet(&mut self)
        ensures { self.new ≡ with_quiet self.old }
    {
        self.quiet = self.quiet.saturating_add(1);
    }

    /// A read into so much room.
    pub fn count_read(&mut self, room: usize, outcome: &Result<usize, IoKind>)
        ensures { self.new ≡ after_read room outcome.now self.old }
    {
        match outcome {
            Ok(0) if room > 0 => self.count_end(),
            Ok(0) => (),
            Ok(_) => self.count_got(),
            Err(_) => self.count_fault(),
        }
    }

    /// A write of so many bytes.
    pub fn count_write(&mut self, offered: usize, outcome: &Result<usize, IoKind>)
        ensures { self.new ≡ after_write offered outcome.now self.old }
    {
        match outcome {
            Ok(0) if offered > 0 => self.count_end(),
            Ok(_) => (),
            Err(_) => self.count_fault(),
        }
    }

    /// A datagram of so many bytes that was sent.
    pub fn count_send(&mut self, offered: usize, outcome: &Result<usize, IoKind>)
        ensures { self.new ≡ after_send offered outcome.now self.old }
    {
        match outcome {
            Ok(taken) if *taken < offered => self.count_end(),
            Ok(_) => (),
            Err(_) => self.count_fault(),
        }
    }

    /// A wait for a datagram.
    pub fn count_receive<D>(&mut self, outcome: &Result<Option<D>, IoKind>)
        ensures { self.new ≡ after_receive outcome.now self.old }
    {
        match outcome {
            Ok(None) => self.count_quiet(),
            Ok(Some(_)) => self.count_got(),
            Err(_) => self.count_fault(),
        }
    }

    /// A call that was to make a link or a socket.
    pub fn count_dial<X>(&mut self, outcome: &Result<X, IoKind>)
        ensures { self.new ≡ after_dial outcome.now self.old }
    {
        if outcome.is_err() {
            self.count_fault();
        }
    }

    /// What an object met that is given back.
    pub fn add(&mut self, object: &Counts)
        ensures { self.new ≡ with_counts self.old object.now }
    {
        add_counted(&mut self.faults, object.faults);
        add_counted(&mut self.ends, object.ends);
        add_counted(&mut self.gots, object.gots);
        add_counted(&mut self.quiet, object.quiet);
    }
}
