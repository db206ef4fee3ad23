//! Readers of one list of items.
use crate::parts::check;
use dns_client::RcStream;
use dns_record::NoMemory;
use std::alloc::Global;
use std::process::Abort;
use std::rt::HostRuntime;

// The example of the crate, word for word.

fn read_twice(items: Vec<u8>) -> Result<(Option<u8>, Option<u8>), NoMemory> {
    let mut one = RcStream::from_items(items)?;
    let first = one.next_item().copied();
    let mut other = one.reader()?;
    Ok((first, other.next_item().copied()))
}

fn items(rt: &impl Abort, alloc: Global) -> Vec<u8> {
    Vec::from_slice(alloc, &[7, 8, 9]).expect(rt, "memory")
}

/// Whether a reader gives these items, and then the end.
fn gives(reader: &mut RcStream<u8>, wanted: &[u8]) -> bool {
    for item in wanted {
        if reader.next_item() != Some(item) {
            return false;
        }
    }
    reader.next_item().is_none() && reader.next_item().is_none()
}

/// Whether readers that are made behind the first item, and at the end, read all, also once the first reader is gone.
fn read_late(rt: &impl Abort, alloc: Global) -> bool {
    let mut first = RcStream::from_items(items(rt, alloc)).expect(rt, "memory");
    let begins = first.next_item() == Some(&7);
    let mut late = first.reader().expect(rt, "memory");
    let goes = gives(&mut first, &[8, 9]);
    let mut later = first.reader().expect(rt, "memory");
    drop(first);
    begins && goes && gives(&mut late, &[7, 8, 9]) && gives(&mut later, &[7, 8, 9])
}

/// Whether a reader of no items gives none.
fn gives_none(rt: &impl Abort, alloc: Global) -> bool {
    let mut none = RcStream::from_items(Vec::new(alloc)).expect(rt, "memory");
    gives(&mut none, &[])
}

#[test]
fn each_reader_reads_all_items(rt: HostRuntime) {
    let alloc = rt.alloc();
    check(&rt, "late readers", read_late(&rt, alloc));
    check(&rt, "no items", gives_none(&rt, alloc));
    let twice = read_twice(items(&rt, alloc));
    check(&rt, "two readers", twice == Ok((Some(7), Some(7))));
}

/// The numbers below 70,000.
fn many(rt: &impl Abort, alloc: Global) -> Vec<u32> {
    let mut items = Vec::new(alloc);
    for item in 0u32..70_000 {
        items.push(item).expect(rt, "memory");
    }
    items
}

/// How many items a reader gives, up to a limit.
fn count(reader: &mut RcStream<u32>) -> u32 {
    for given in 0u32..100_000 {
        if reader.next_item() != Some(&given) {
            return given;
        }
    }
    100_000
}

#[test]
fn a_long_list_is_read_by_each_reader(rt: HostRuntime) {
    let items = many(&rt, rt.alloc());
    let mut first = RcStream::from_items(items).expect(&rt, "memory");
    let mut other = first.reader().expect(&rt, "memory");
    check(&rt, "the first", count(&mut first) == 70_000);
    check(&rt, "another", count(&mut other) == 70_000);
}
