//! What links show.

use crate::parts::{check_row, name_of};
use dns_evidence::{Chain, Link, all_shown, shows_ds, shows_key, shows_member};
use dns_model::Section;
use dns_record::{DNSClass, NameRef, Rdata, RecordType};
use std::alloc::Global;
use std::process::Abort;

fn key(rt: &impl Abort, alloc: Global) -> Rdata {
    Rdata::from_slice(alloc, b"key").expect(rt, "memory")
}

fn one_key(rt: &impl Abort, alloc: Global) -> Vec<Rdata> {
    let mut keys = Vec::new(alloc);
    keys.push(key(rt, alloc)).expect(rt, "memory");
    keys
}

fn push(rt: &impl Abort, links: &mut Vec<Link>, link: Link) {
    links.push(link).expect(rt, "memory");
}

/// An anchored key, its key set and a signed set of DS records, whose rdatas are alike.
fn links(rt: &impl Abort, alloc: Global) -> Vec<Link> {
    let class = DNSClass::IN;
    let anchored = Link::Anchored {
        owner: name_of(rt, alloc, "ORG."),
        class,
        key: key(rt, alloc),
    };
    let mut links = Vec::new(alloc);
    push(rt, &mut links, anchored);
    let mut first = Vec::new(alloc);
    first.push(0).expect(rt, "memory");
    let key_set = Link::KeySet {
        owner: name_of(rt, alloc, "ORG."),
        class,
        keys: one_key(rt, alloc),
        links: first,
    };
    push(rt, &mut links, key_set);
    let delegation = Link::Signed {
        owner: name_of(rt, alloc, "ORG."),
        class,
        record_type: RecordType::DS,
        rdatas: one_key(rt, alloc),
        sig: key(rt, alloc),
        key_link: 1,
        key: key(rt, alloc),
    };
    push(rt, &mut links, delegation);
    links
}

/// The number of a link, a class and an rdata, and what that link shows of them for `org.`.
struct Row {
    number: u32,
    class: DNSClass,
    rdata: &'static [u8],
    want: u8,
}

#[rattlefmt::skip]
const ROWS: &[Row] = &[
    Row { number: 0, class: DNSClass::IN, rdata: b"key", want: 1 },
    Row { number: 1, class: DNSClass::IN, rdata: b"key", want: 2 },
    Row { number: 2, class: DNSClass::IN, rdata: b"key", want: 4 },
    Row { number: 3, class: DNSClass::IN, rdata: b"key", want: 0 },
    Row { number: 1, class: DNSClass::IN, rdata: b"kez", want: 0 },
    Row { number: 0, class: DNSClass::CH, rdata: b"key", want: 0 },
];

fn rows() -> &'static [Row] {
    ROWS
}

/// What the link shows for an owner: a trusted key, a member of a key set, a DS.
fn shown(links: &[Link], owner: &NameRef, row: &Row) -> u8 {
    let key = u8::from(shows_key(links, row.number, owner, row.class, row.rdata));
    let member = u8::from(shows_member(links, row.number, owner, row.class, row.rdata));
    let ds = u8::from(shows_ds(links, row.number, owner, row.class, row.rdata));
    key + 2 * member + 4 * ds
}

/// The numbers of links, and whether they show the one key.
struct Numbered(&'static [u32], bool);

const NUMBERED: &[Numbered] = &[
    Numbered(&[0], true),
    Numbered(&[1], false),
    Numbered(&[], false),
];

fn rows_hold(links: &[Link], owner: &NameRef) -> bool {
    for row in rows() {
        if shown(links, owner, row) != row.want {
            return false;
        }
    }
    true
}

fn numbered_rows_hold(links: &[Link], owner: &NameRef, keys: &[Rdata]) -> bool {
    for row in NUMBERED {
        if all_shown(links, owner, DNSClass::IN, keys, row.0) != row.1 {
            return false;
        }
    }
    true
}

/// Whether the links of a copied chain show to an owner what the tables say.
fn is_shown(rt: &impl Abort, alloc: Global) -> bool {
    let chain = Chain {
        section: Section::Answer,
        links: links(rt, alloc),
    };
    let copy = chain.try_clone().expect(rt, "memory");
    // The copy stands by itself.
    drop(chain);
    let owner = name_of(rt, alloc, "oRg.");
    let keys = one_key(rt, alloc);
    rows_hold(&copy.links, &owner.borrowed())
        && numbered_rows_hold(&copy.links, &owner.borrowed(), &keys)
}

#[test]
fn links_show_keys_members_and_delegations(rt: HostRuntime) {
    check_row(&rt, "what links show", is_shown(&rt, rt.alloc()));
}
