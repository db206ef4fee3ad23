//! Whether two chains have the same links, byte for byte, the case of names too.

ghost use Rattle.std.specs.Prelude.{◌≡◌, IsTrue, map};
ghost use Rattle.dns_evidence.specs.Link.{link_value};

use dns_evidence::Link;
use dns_record::{DNSClass, Name, Rdata};

/// Whether the links are the same, in order.
pub(crate) fn same_links(mut links: &[Link], mut others: &[Link]) -> bool
    ensures { IsTrue result → map link_value links.entry.now ≡ map link_value others.entry.now }
{
    'links: while let Some((link, more)) = links.split_first() {
        let Some((other, rest)) = others.split_first() else {
            return false;
        };
        if !same_link(link, other) {
            return false;
        }
        links = more;
        others = rest;
    }
    others.is_empty()
}

// Whether two links are the same.
fn same_link(link: &Link, other: &Link) -> bool
    ensures { IsTrue result → link_value link.now ≡ link_value other.now }
{
    match (link, other) {
        (
            Link::Anchored { owner, class, key },
            Link::Anchored {
                owner: owner_of,
                class: class_of,
                key: key_of,
            },
        ) => same_owner(owner, *class, owner_of, *class_of) && same_rdata(key, key_of),
        (
            Link::Matched {
                owner,
                class,
                key,
                ds_link,
                ds,
            },
            Link::Matched {
                owner: owner_of,
                class: class_of,
                key: key_of,
                ds_link: ds_link_of,
                ds: ds_of,
            },
        ) => {
            same_owner(owner, *class, owner_of, *class_of)
                && same_rdata(key, key_of)
                && *ds_link == *ds_link_of
                && same_rdata(ds, ds_of)
        }
        (
            Link::KeySet {
                owner,
                class,
                keys,
                links,
            },
            Link::KeySet {
                owner: owner_of,
                class: class_of,
                keys: keys_of,
                links: links_of,
            },
        ) => {
            same_owner(owner, *class, owner_of, *class_of)
                && same_rdatas(keys, keys_of)
                && same_numbers(links, links_of)
        }
        (
            Link::Signed {
                owner,
                class,
                record_type,
                rdatas,
                sig,
                key_link,
                key,
            },
            Link::Signed {
                owner: owner_of,
                class: class_of,
                record_type: record_type_of,
                rdatas: rdatas_of,
                sig: sig_of,
                key_link: key_link_of,
                key: key_of,
            },
        ) => {
            same_owner(owner, *class, owner_of, *class_of)
                && record_type.0 == record_type_of.0
                && same_rdatas(rdatas, rdatas_of)
                && same_rdata(sig, sig_of)
                && *key_link == *key_link_of
                && same_rdata(key, key_of)
        }
        _ => false,
    }
}

// Whether two names are the same in the same class.
fn same_owner(owner: &Name, class: DNSClass, other: &Name, other_class: DNSClass) -> bool
    ensures owner { IsTrue result → owner.now ≡ other.now }
    ensures class { IsTrue result → class.0 ≡ other_class.0 }
{
    class.0 == other_class.0 && owner.eq_case(other)
}

// Whether two rdatas have the same bytes.
fn same_rdata(rdata: &Rdata, other: &Rdata) -> bool
    ensures { IsTrue result → rdata.now ≡ other.now }
{
    *rdata == *other
}

// Whether two lists of rdatas have the same bytes, in order.
fn same_rdatas(rdatas: &Vec<Rdata>, others: &Vec<Rdata>) -> bool
    ensures { IsTrue result → rdatas.now.items ≡ others.now.items }
{
    *rdatas == *others
}

// Whether the numbers are the same, in order.
fn same_numbers(numbers: &Vec<u32>, others: &Vec<u32>) -> bool
    ensures { IsTrue result → numbers.now.items ≡ others.now.items }
{
    *numbers == *others
}
