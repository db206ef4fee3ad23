//! Why a set or a key isn't Secure, with the mark that follows (RFC 4035, 4.3, 5.2 and 5.3).

ghost use Rattle.std.specs.Prelude.{◌≡◌, IfOk};
ghost use Rattle.dns_model.specs.declared.proof.Proof.TheVariants as proof;
ghost use Rattle.dns_rules.specs.ProofErrors as cause;
ghost use Rattle.dns_cache.specs.Kinds.{kind_value, because, out_of_memory};

use dns_handle::Notice;
use dns_model::Proof;
use dns_record::{Name, NoMemory, Query, RecordType};
use std::alloc::{AllocError, AllocFailed};
use std::fmt;
use std::marker::Model;
use thiserror::Error;

/// Why a set or a key isn't Secure (RFC 4035, 4.3, 5.2 and 5.3). The tag beside a key's name is the signature's.
#[derive(Error)]
pub enum ProofErrorKind {
    /// The set has no signature that could be asked for.
    #[error("rrsigs are not present for: {name} record_type: {record_type}")]
    RrsigsNotPresent { name: Name, record_type: RecordType },
    /// An ask failed.
    #[error("communication failure for query: {query}")]
    Net { query: Query },
    /// No signature proves the set.
    #[error("rrsigs were not able to be verified: {name}, type: {record_type}")]
    RrsigsUnverified { name: Name, record_type: RecordType },
    /// No anchored key of the root's key set signs it, nor are all its keys anchored.
    #[error("no dnskey was found: {name}")]
    DnskeyNotFound { name: Name },
    /// There are DS records; no key that they match signs the key set, nor is each key anchored or matched.
    #[error("ds record exists, but no dnskey: {name}")]
    DsRecordsButNoDnskey { name: Name },
    /// Neither a DS set nor its absence is shown.
    #[error("ds record should exist: {name}")]
    DsRecordShouldExist { name: Name },
    /// No DS set is in the answer, and it is shown that there is none, or a set at the zone or above it is Insecure.
    #[error("ds record does not exist: {name}")]
    DsResponseInsecure { name: Name },
    /// No DS is of a supported algorithm and digest type.
    #[error("unknown or reserved key algorithm")]
    UnknownKeyAlgorithm,
    /// The key can't be read.
    #[error("internal error computing the key tag for: {name}")]
    ErrorComputingKeyTag { name: Name },
    /// The key's algorithm isn't supported.
    #[error("unsupported key algorithms")]
    UnsupportedKeyAlgorithm,
    /// No DS matches the key.
    #[error("dnskey has no ds: {name}")]
    DnsKeyHasNoDs { name: Name },
    /// The key's mark isn't Secure.
    #[error("dnskey insecure: {name}, key_tag: {key_tag}")]
    InsecureDnsKey { name: Name, key_tag: u16 },
    /// The key's flag REVOKE is set (RFC 5011, 2.1).
    #[error("dnskey revoked: {name}, key_tag: {key_tag}")]
    DnsKeyRevoked { name: Name, key_tag: u16 },
    /// The key's flag ZONE is clear, or its protocol isn't 3 (RFC 4034, 2.1.1 and 2.1.2).
    #[error("not a zone signing key: {name} key_tag: {key_tag}")]
    NotZoneDnsKey { name: Name, key_tag: u16 },
    /// Signature and key have different algorithms.
    #[error("algorithm mismatch rrsig: {rrsig} dnskey: {dnskey}")]
    AlgorithmMismatch { rrsig: u8, dnskey: u8 },
    /// Signature, set, key and moment don't fit: the notice names which (RFC 4035, 5.3.1).
    #[error("{0}")]
    Msg(Notice),
    /// The algorithm isn't supported, or the verifier doesn't accept the signature.
    #[error("dnskey and rrset failed to verify: {name} key_tag: {key_tag}")]
    DnsKeyVerifyRrsig { name: Name, key_tag: u16 },
    /// Memory ran out.
    #[error("out of memory")]
    NoMemory,
}

// By hand, so that a function that lets one go calls this.
impl Drop for ProofErrorKind {
    fn drop(self) {
        match self {
            ProofErrorKind::RrsigsNotPresent {
                name: _,
                record_type: _,
            } => {}
            ProofErrorKind::Net { query: _ } => {}
            ProofErrorKind::RrsigsUnverified {
                name: _,
                record_type: _,
            } => {}
            ProofErrorKind::DnskeyNotFound { name: _ } => {}
            ProofErrorKind::DsRecordsButNoDnskey { name: _ } => {}
            ProofErrorKind::DsRecordShouldExist { name: _ } => {}
            ProofErrorKind::DsResponseInsecure { name: _ } => {}
            ProofErrorKind::UnknownKeyAlgorithm => {}
            ProofErrorKind::ErrorComputingKeyTag { name: _ } => {}
            ProofErrorKind::UnsupportedKeyAlgorithm => {}
            ProofErrorKind::DnsKeyHasNoDs { name: _ } => {}
            ProofErrorKind::InsecureDnsKey {
                name: _,
                key_tag: _,
            } => {}
            ProofErrorKind::DnsKeyRevoked {
                name: _,
                key_tag: _,
            } => {}
            ProofErrorKind::NotZoneDnsKey {
                name: _,
                key_tag: _,
            } => {}
            ProofErrorKind::AlgorithmMismatch {
                rrsig: _,
                dnskey: _,
            } => {}
            ProofErrorKind::Msg(_) => {}
            ProofErrorKind::DnsKeyVerifyRrsig {
                name: _,
                key_tag: _,
            } => {}
            ProofErrorKind::NoMemory => {}
        }
    }
}

/// The text of Display.
impl fmt::Debug for ProofErrorKind {
    fn fmt<W: fmt::Write>(&self, f: &mut fmt::Formatter<W>) -> fmt::Result {
        write!(f, "{self}")
    }
}

/// A cause, and the mark that comes of it.
#[derive(Drop, Error)]
#[error("{proof:?}: {kind}")]
pub struct ProofError {
    /// The mark that follows.
    pub proof: Proof,
    /// The cause.
    pub kind: ProofErrorKind,
}

/// The text of Display.
impl fmt::Debug for ProofError {
    fn fmt<W: fmt::Write>(&self, f: &mut fmt::Formatter<W>) -> fmt::Result {
        write!(f, "{:?}: {:?}", self.proof, self.kind)
    }
}

impl Model for ProofError {
    ghost use Rattle.dns_rules.specs.ProofErrors.{ProofErrorValue};
    ghost use Rattle.dns_cache.specs.Kinds.{kind_value};

    ghost Value = { ProofErrorValue };

    ghost view = { λ e. record { proof = e.proof; kind = kind_value e.kind } };
}

impl From<NoMemory> for ProofError {
    ghost from_gives = { λ _ e. e ≡ out_of_memory };

    fn from(_error: NoMemory) -> Self {
        ProofError::new(Proof::Bogus, ProofErrorKind::NoMemory)
    }
}

impl From<AllocError> for ProofError {
    ghost from_gives = { λ _ e. e ≡ out_of_memory };

    fn from(_error: AllocError) -> Self {
        ProofError::new(Proof::Bogus, ProofErrorKind::NoMemory)
    }
}

impl<T: Drop> From<AllocFailed<T>> for ProofError {
    ghost from_gives = { λ _ e. e ≡ out_of_memory };

    fn from(_failed: AllocFailed<T>) -> Self {
        ProofError::new(Proof::Bogus, ProofErrorKind::NoMemory)
    }
}

impl ProofError {
    /// An error of this cause and mark.
    pub fn new(proof: Proof, kind: ProofErrorKind) -> ProofError
        ensures { result ≡ because proof (kind_value kind) }
    {
        ProofError { proof, kind }
    }

    /// An equal error in memory of its own.
    pub fn try_clone(&self) -> Result<ProofError, NoMemory>
        ensures { IfOk result (λ e. e ≡ self.now) }
    {
        Ok(ProofError::new(self.proof, self.kind.try_clone()?))
    }

    /// The cause.
    pub fn kind(&self) -> &ProofErrorKind
        ensures { kind_value result.now ≡ self.now.kind }
    {
        &self.kind
    }

    /// Neither a DS set of a zone nor its absence is shown: Bogus.
    pub fn ds_should_exist(name: Name) -> ProofError
        ensures { result ≡ because proof.Bogus (cause.DsRecordShouldExist name) }
    {
        ProofError::new(Proof::Bogus, ProofErrorKind::DsRecordShouldExist { name })
    }
}

impl ProofErrorKind {
    /// An equal cause in memory of its own.
    pub fn try_clone(&self) -> Result<ProofErrorKind, NoMemory>
        ensures { IfOk result (λ k. kind_value k ≡ kind_value self.now) }
    {
        match self {
            ProofErrorKind::RrsigsNotPresent { name, record_type } => Ok(
                ProofErrorKind::RrsigsNotPresent {
                    name: name.try_clone()?,
                    record_type: *record_type,
                },
            ),
            ProofErrorKind::Net { query } => Ok(ProofErrorKind::Net {
                query: query.try_clone()?,
            }),
            ProofErrorKind::RrsigsUnverified { name, record_type } => Ok(
                ProofErrorKind::RrsigsUnverified {
                    name: name.try_clone()?,
                    record_type: *record_type,
                },
            ),
            ProofErrorKind::DnskeyNotFound { name } => Ok(ProofErrorKind::DnskeyNotFound {
                name: name.try_clone()?,
            }),
            ProofErrorKind::DsRecordsButNoDnskey { name } => Ok(
                ProofErrorKind::DsRecordsButNoDnskey {
                    name: name.try_clone()?,
                },
            ),
            ProofErrorKind::DsRecordShouldExist { name } => Ok(
                ProofErrorKind::DsRecordShouldExist {
                    name: name.try_clone()?,
                },
            ),
            ProofErrorKind::DsResponseInsecure { name } => Ok(ProofErrorKind::DsResponseInsecure {
                name: name.try_clone()?,
            }),
            ProofErrorKind::UnknownKeyAlgorithm => Ok(ProofErrorKind::UnknownKeyAlgorithm),
            ProofErrorKind::ErrorComputingKeyTag { name } => Ok(
                ProofErrorKind::ErrorComputingKeyTag {
                    name: name.try_clone()?,
                },
            ),
            ProofErrorKind::UnsupportedKeyAlgorithm => Ok(ProofErrorKind::UnsupportedKeyAlgorithm),
            ProofErrorKind::DnsKeyHasNoDs { name } => Ok(ProofErrorKind::DnsKeyHasNoDs {
                name: name.try_clone()?,
            }),
            ProofErrorKind::InsecureDnsKey { name, key_tag } => Ok(
                ProofErrorKind::InsecureDnsKey {
                    name: name.try_clone()?,
                    key_tag: *key_tag,
                },
            ),
            ProofErrorKind::DnsKeyRevoked { name, key_tag } => Ok(ProofErrorKind::DnsKeyRevoked {
                name: name.try_clone()?,
                key_tag: *key_tag,
            }),
            ProofErrorKind::NotZoneDnsKey { name, key_tag } => Ok(ProofErrorKind::NotZoneDnsKey {
                name: name.try_clone()?,
                key_tag: *key_tag,
            }),
            ProofErrorKind::AlgorithmMismatch { rrsig, dnskey } => Ok(
                ProofErrorKind::AlgorithmMismatch {
                    rrsig: *rrsig,
                    dnskey: *dnskey,
                },
            ),
            ProofErrorKind::Msg(notice) => Ok(ProofErrorKind::Msg(*notice)),
            ProofErrorKind::DnsKeyVerifyRrsig { name, key_tag } => Ok(
                ProofErrorKind::DnsKeyVerifyRrsig {
                    name: name.try_clone()?,
                    key_tag: *key_tag,
                },
            ),
            ProofErrorKind::NoMemory => Ok(ProofErrorKind::NoMemory),
        }
    }
}
