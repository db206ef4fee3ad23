//! What is kept of one key.
ghost use Rattle.std.specs.Prelude.{◌≡◌};
ghost use Rattle.dns_anchor_roll.specs.Tables.{begun as begun_at, changed as changed_by, is_done, is_trusted as is_trusted_in};

/// Seconds for which a new key has to be shown at least: 30 days (RFC 5011, 2.4.1).
const HOLD_DOWN: u32 = 2_592_000;

/// What is known of a key for good.
#[derive(Clone, Copy, Debug, Drop)]
pub(crate) enum Standing {
    /// It is neither trusted nor revoked.
    Unknown,
    /// It was given, or came through its hold-down.
    Trusted,
    /// It was revoked first at this moment, in seconds since 1970.
    Revoked(u64),
}

/// What changes it.
#[derive(Clone, Copy, Debug, Drop)]
pub(crate) enum Change {
    /// The key came through its hold-down.
    Trust,
    /// It is revoked at this moment, in seconds since 1970.
    Revoke(u64),
}

impl Standing {
    /// Whether the key is trusted.
    pub(crate) fn is_trusted(self) -> bool
        ensures { result ≡ is_trusted_in self }
    {
        match self {
            Standing::Trusted => true,
            Standing::Unknown => false,
            Standing::Revoked(_) => false,
        }
    }

    /// What is known after a change. A revoked key stays so, from the first moment on.
    pub(crate) fn after(self, change: Change) -> Standing
        ensures { result ≡ changed_by change self }
    {
        match self {
            Standing::Revoked(moment) => Standing::Revoked(moment),
            Standing::Unknown | Standing::Trusted => match change {
                Change::Trust => Standing::Trusted,
                Change::Revoke(moment) => Standing::Revoked(moment),
            },
        }
    }
}

/// Accepted sightings one after another that show a key.
#[derive(Clone, Copy, Debug, Drop)]
pub(crate) struct Stretch {
    /// The moment of the first, in seconds since 1970.
    pub(crate) since: u64,
    /// Seconds from then on until the key is trusted.
    pub(crate) wait: u32,
}

impl Stretch {
    /// It begins with a sighting of this original ttl, in seconds.
    pub(crate) fn begun(moment: u64, original_ttl: u32) -> Stretch
        ensures { result ≡ begun_at moment original_ttl }
    {
        Stretch {
            since: moment,
            wait: HOLD_DOWN.max(original_ttl),
        }
    }

    /// Whether its hold-down is over at a moment.
    pub(crate) fn is_done(&self, moment: u64) -> bool
        ensures { result ≡ is_done self.now moment }
    {
        moment >= self.since && moment - self.since >= u64::from(self.wait)
    }
}
