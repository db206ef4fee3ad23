//! `ClientHandle`, the calls that send one message: queries, notifies, updates and requests for a zone.
ghost use Rattle.std.specs.Prelude.{IfSome, IsSome, IsTrue};
ghost use Rattle.dns_model.specs.Names.{at_or_above};
ghost use Rattle.dns_model.specs.RecordViews.{read_as};
ghost use Rattle.dns_model.specs.Types.{type_soa};
ghost use Rattle.dns_model.specs.Views.{soa_in};
ghost use Rattle.dns_handle.specs.Requests.{request_of};
ghost use Rattle.dns_update.specs.Notifies.{notify_message};
ghost use Rattle.dns_update.specs.Updates.{append_message, create_message, delete_name_message, delete_records_message, delete_set_message, swap_message};
ghost use Rattle.dns_client.specs.Sends.{SendsOnce, query_options, request_with};
ghost use Rattle.dns_client.specs.ZoneTransfers.{AsksForZone};

use crate::sending::{send_message, send_request};
use dns_handle::{DnsHandle, DnsRequest, DnsRequestOptions, DnsResponse, NetError};
use dns_mux::DnsResponseStream;
use dns_record::{DNSClass, Name, Query, Record, RecordSet, RecordType};
use dns_transfer::ClientStreamXfr;
use std::alloc::Global;

/// What a handle is asked beside a lookup. Each handle has these calls.
///
/// Each call sends one message at a time, in seconds since 1970, with an OPT record where the handle's `is_using_edns` says so
/// (RFC 6891), and waits for its response. Its errors are those of that send. Where memory runs out before it, nothing is sent.
/// A server says by the response's code whether it did what was asked (RFC 2136, 2.2), so **look at the code of an Ok response**.
pub trait ClientHandle: DnsHandle {
    /// Asks for the records of a name, class and type, with recursion desired. Aliases aren't followed.
    final fn query(
        &mut self,
        alloc: Global,
        name: Name,
        class: DNSClass,
        query_type: RecordType,
        now: u64,
    ) -> Result<DnsResponse, NetError>
        ensures { SendsOnce Self.DnsHandle (request_of (record { owner = name; rtype = query_type.0; class = class.0 })
            (query_options (Self.uses_edns self.old))) now self.old self.new result }
    {
        let mut options = DnsRequestOptions::default();
        options.use_edns = self.is_using_edns();
        let query = Query {
            name,
            query_type,
            query_class: class,
        };
        let request = DnsRequest::from_query(alloc, query, options)?;
        send_request(alloc, self, request, now)
    }

    /// Tells a server that the records of a name, class and type have changed, as a zone's SOA (RFC 1996, 3.6). `rrset` may say what
    /// they are now, which the server takes for a hint (RFC 1996, 3.7). A server that doesn't know notifies answers NOTIMP (RFC 1996,
    /// 3.12), which ends the matter for it.
    final fn notify(
        &mut self,
        alloc: Global,
        name: Name,
        class: DNSClass,
        query_type: RecordType,
        rrset: Option<RecordSet>,
        now: u64,
    ) -> Result<DnsResponse, NetError>
        ensures { SendsOnce Self.DnsHandle (request_with (notify_message (record { owner = name; rtype = query_type.0; class = class.0 })
            rrset (Self.uses_edns self.old))) now self.old self.new result }
    {
        let use_edns = self.is_using_edns();
        let message = dns_update::notify(alloc, name, class, query_type, rrset, use_edns)?;
        send_message(alloc, self, message, now)
    }

    /// Adds records to a zone where it has none of their name and type, else the server answers YXRRSET; see `dns_update::create`.
    ///
    /// The zone must be at or above the set's name.
    final fn create(
        &mut self,
        alloc: Global,
        rrset: RecordSet,
        zone: Name,
        now: u64,
    ) -> Result<DnsResponse, NetError>
        requires { IsTrue (at_or_above zone rrset.owner) }
        ensures { SendsOnce Self.DnsHandle (request_with (create_message rrset zone (Self.uses_edns self.old))) now self.old self.new result }
    {
        let use_edns = self.is_using_edns();
        let message = dns_update::create(alloc, rrset, zone, use_edns)?;
        send_message(alloc, self, message, now)
    }

    /// Adds records to a zone; with `must_exist` only where it has some of their name and type, else the server answers NXRRSET. See
    /// `dns_update::append`.
    ///
    /// The zone must be at or above the set's name.
    final fn append(
        &mut self,
        alloc: Global,
        rrset: RecordSet,
        zone: Name,
        must_exist: bool,
        now: u64,
    ) -> Result<DnsResponse, NetError>
        requires { IsTrue (at_or_above zone rrset.owner) }
        ensures { SendsOnce Self.DnsHandle (request_with (append_message rrset zone must_exist (Self.uses_edns self.old))) now
            self.old self.new result }
    {
        let use_edns = self.is_using_edns();
        let message = dns_update::append(alloc, rrset, zone, must_exist, use_edns)?;
        send_message(alloc, self, message, now)
    }

    /// Puts the records of `new` in the place of those of `current` where the zone has exactly these, else the server answers NXRRSET;
    /// see `dns_update::compare_and_swap`.
    ///
    /// The zone must be at or above both names.
    final fn compare_and_swap(
        &mut self,
        alloc: Global,
        current: RecordSet,
        new: RecordSet,
        zone: Name,
        now: u64,
    ) -> Result<DnsResponse, NetError>
        requires current { IsTrue (at_or_above zone current.owner) }
        requires new { IsTrue (at_or_above zone new.owner) }
        ensures { SendsOnce Self.DnsHandle (request_with (swap_message current new zone (Self.uses_edns self.old))) now
            self.old self.new result }
    {
        let use_edns = self.is_using_edns();
        let message = dns_update::compare_and_swap(alloc, current, new, zone, use_edns)?;
        send_message(alloc, self, message, now)
    }

    /// Deletes these records of a zone, each where it has it, whatever its ttl; see `dns_update::delete_by_rdata`.
    ///
    /// The zone must be at or above the set's name.
    final fn delete_by_rdata(
        &mut self,
        alloc: Global,
        rrset: RecordSet,
        zone: Name,
        now: u64,
    ) -> Result<DnsResponse, NetError>
        requires { IsTrue (at_or_above zone rrset.owner) }
        ensures { SendsOnce Self.DnsHandle (request_with (delete_records_message rrset zone (Self.uses_edns self.old))) now
            self.old self.new result }
    {
        let use_edns = self.is_using_edns();
        let message = dns_update::delete_by_rdata(alloc, rrset, zone, use_edns)?;
        send_message(alloc, self, message, now)
    }

    /// Deletes all records of a zone that have this record's name and type; see `dns_update::delete_rrset`.
    ///
    /// The zone must be at or above the record's name.
    final fn delete_rrset(
        &mut self,
        alloc: Global,
        first: Record,
        zone: Name,
        now: u64,
    ) -> Result<DnsResponse, NetError>
        requires { IsTrue (at_or_above zone first.owner) }
        ensures { SendsOnce Self.DnsHandle (request_with (delete_set_message first zone (Self.uses_edns self.old))) now
            self.old self.new result }
    {
        let use_edns = self.is_using_edns();
        let message = dns_update::delete_rrset(alloc, first, zone, use_edns)?;
        send_message(alloc, self, message, now)
    }

    /// Deletes all records of a name in a zone of this class; see `dns_update::delete_all`.
    ///
    /// The zone must be at or above the name.
    final fn delete_all(
        &mut self,
        alloc: Global,
        name: Name,
        zone: Name,
        class: DNSClass,
        now: u64,
    ) -> Result<DnsResponse, NetError>
        requires { IsTrue (at_or_above zone name) }
        ensures { SendsOnce Self.DnsHandle (request_with (delete_name_message name zone class.0 (Self.uses_edns self.old))) now
            self.old self.new result }
    {
        let use_edns = self.is_using_edns();
        let message = dns_update::delete_all(alloc, name, zone, class, use_edns)?;
        send_message(alloc, self, message, now)
    }

    /// Asks for a zone of class IN: for all of it, or, where the SOA of a version that is known is given, for what has changed since
    /// (RFC 5936, 2.1; RFC 1995, 3). It is asked without EDNS.
    ///
    /// A send has one response, and so has the stream that is given. A zone that comes in more messages is cut off, and the stream
    /// ends all the same: **only `ClientStreamXfr::is_ended` tells whether all of it has come**. Larger zones are read from a
    /// multiplexer, whose requests have as many responses as come; `ClientStreamXfr::new` takes such a stream.
    ///
    /// A record that is given must be an SOA that can be read.
    final fn zone_transfer(
        &mut self,
        alloc: Global,
        zone: Name,
        last_soa: Option<Record>,
        now: u64,
    ) -> Result<ClientStreamXfr<DnsResponseStream>, NetError>
        requires { IfSome last_soa (λ soa. IsSome (read_as type_soa soa_in soa)) }
        ensures { AsksForZone Self.DnsHandle zone last_soa now self.old self.new result }
    {
        let incremental = last_soa.is_some();
        let message = dns_update::zone_transfer(alloc, zone, last_soa)?;
        let response = send_message(alloc, self, message, now)?;
        let stream = DnsResponseStream::from_result(alloc, Ok(response));
        Ok(ClientStreamXfr::new(stream, incremental))
    }
}

impl<H: DnsHandle> ClientHandle for H {}
