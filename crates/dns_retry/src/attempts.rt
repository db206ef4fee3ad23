//! What a call may still send.
ghost use Rattle.std.specs.Prelude.{◌≡◌, ◌<◌, ◌+◌, ◌-◌, true, false, IfNone, IfSome};
ghost use Rattle.dns_handle.specs.Replies.{reply_of};
ghost use Rattle.dns_retry.specs.Retries.{is_due, left_after, busy_after};

use dns_handle::{DnsError, DnsResponse, NetError};

/// So many replies `Busy` are got in one call at most.
const MOST_BUSY: u32 = 64;

/// What a call may still send.
#[derive(Clone, Copy)]
pub(crate) struct Attempts {
    /// So many more sends may follow errors other than `Busy`.
    pub(crate) left: usize,
    /// So many replies were `Busy`.
    pub(crate) busy: u32,
}

impl Attempts {
    /// Whether another send is due after a reply, which is counted then.
    pub(crate) fn go_on_after(&mut self, reply: &Result<DnsResponse, NetError>) -> bool
        ensures due { result ≡ is_due self.old.left self.old.busy (reply_of reply.now) }
        ensures left { result ≡ true → self.new.left ≡ left_after self.old.left (reply_of reply.now) }
        ensures busy { result ≡ true → self.new.busy ≡ busy_after self.old.busy (reply_of reply.now) }
        ensures less { result ≡ true → self.new.left + (64 - self.new.busy) < self.old.left + (64 - self.old.busy) }
        ensures kept { result ≡ false → self.new ≡ self.old }
    {
        if self.left == 0 {
            return false;
        }
        match reply {
            Ok(_) => false,
            Err(NetError::Busy) => {
                let goes_on = self.busy < MOST_BUSY - 1;
                if goes_on {
                    self.busy += 1;
                }
                goes_on
            }
            Err(
                NetError::NoConnections
                | NetError::NoMemory
                | NetError::Dns(DnsError::NoRecordsFound(_) | DnsError::DnssecBogus),
            ) => false,
            Err(_) => {
                self.left -= 1;
                true
            }
        }
    }

    /// The reply, unless another send is due after it, which is counted then.
    pub(crate) fn last_reply(
        &mut self,
        reply: Result<DnsResponse, NetError>,
    ) -> Option<Result<DnsResponse, NetError>>
        ensures over { IfSome result (λ r. (r ≡ reply) × (is_due self.old.left self.old.busy (reply_of reply) ≡ false)) }
        ensures due { IfNone result (is_due self.old.left self.old.busy (reply_of reply) ≡ true) }
        ensures left { IfNone result (self.new.left ≡ left_after self.old.left (reply_of reply)) }
        ensures busy { IfNone result (self.new.busy ≡ busy_after self.old.busy (reply_of reply)) }
        ensures less { IfNone result (self.new.left + (64 - self.new.busy) < self.old.left + (64 - self.old.busy)) }
    {
        if self.go_on_after(&reply) {
            return None;
        }
        Some(reply)
    }
}
