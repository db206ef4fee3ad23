//! Requests about the stored session, each with the reply that belongs to it at 1000. Bytes are those of `rows/forwarded.txt`.
use dns_record::Octets;
use std::alloc::Global;
use std::process::Abort;

/// What is shown, a request, and the reply; no byte stands for none.
pub(crate) struct Case(
    pub(crate) &'static str,
    pub(crate) &'static [u8],
    pub(crate) &'static [u8],
);

#[rattlefmt::skip]
const CASES: &[Case] = &[
    Case("AD asks for AD",
        b"\0\x07\x01\x20\0\x01\0\0\0\0\0\0\0\0\x02\0\x01",
        b"\0\x07\x81\xa0\0\x01\0\x01\0\0\0\0\0\0\x02\0\x01\0\0\x02\0\x01\0\0\x03\xe8\0\x03\x01\x61\0"),
    Case("no message",
        b"\0\x07\x29\x10\0\x01\0\0\0\0\0\0",
        b"\0\x07\x80\x01\0\0\0\0\0\0\0\0"),
    Case("another opcode",
        b"\0\x07\x79\x30\0\x01\0\0\0\0\0\x01\0\0\x02\0\x01\0\0\x29\x04\xd0\0\x01\x80\0\0\0",
        b"\0\x07\xf9\x94\0\x01\0\0\0\0\0\x01\0\0\x02\0\x01\0\0\x29\x04\xd0\0\0\x80\0\0\0"),
    Case("DO asks for signatures",
        b"\0\x07\x01\0\0\x01\0\0\0\0\0\x01\0\0\x02\0\x01\0\0\x29\x10\0\0\0\x80\0\0\0",
        b"\0\x07\x81\xa0\0\x01\0\x02\0\0\0\x01\0\0\x02\0\x01\0\0\x02\0\x01\0\0\x03\xe8\0\x03\x01\x61\0\0\0\x2e\0\x01\0\0\x03\xe8\0\x15\0\x02\x0d\0\0\0\x0e\x10\0\0\x07\xd0\0\0\x03\x84\xae\xc9\0\xc0\xde\0\0\x29\x04\xd0\0\0\x80\0\0\0"),
    Case("two questions",
        b"\0\x07\x01\x30\0\x02\0\0\0\0\0\x01\0\0\x02\0\x01\0\0\x01\0\x01\0\0\x29\x10\0\0\0\x80\0\0\0",
        b"\0\x07\x81\x91\0\0\0\0\0\0\0\x01\0\0\x29\x04\xd0\0\0\x80\0\0\0"),
    Case("a pointer into the header",
        b"\0\x07\x01\x20\0\x01\0\0\0\0\0\0\xc0\x04\0\x02\0\x01",
        b"\0\x07\x81\xa0\0\x01\0\x01\0\0\0\0\0\0\x02\0\x01\0\0\x02\0\x01\0\0\x03\xe8\0\x03\x01\x61\0"),
    Case("a response",
        b"\0\x07\x81\x20\0\x01\0\0\0\0\0\0\0\0\x02\0\x01",
        b""),
    Case("a later version of EDNS",
        b"\0\x07\x01\x20\0\x01\0\0\0\0\0\x01\0\0\x02\0\x01\0\0\x29\x10\0\0\x01\x80\0\0\0",
        b"\0\x07\x81\x80\0\x01\0\0\0\0\0\x01\0\0\x02\0\x01\0\0\x29\x04\xd0\x01\0\x80\0\0\0"),
];

fn cases() -> &'static [Case] {
    CASES
}

/// The case of a number; after eight of them the first comes again.
pub(crate) fn case_of(rt: &impl Abort, number: usize) -> &'static Case {
    cases().get(number % 8).expect(rt, "a case")
}

/// So many requests, one case after another.
pub(crate) fn requests(rt: &impl Abort, alloc: Global, count: usize) -> Vec<Octets> {
    let mut all = Vec::new(alloc);
    for number in 0..count {
        let request = Octets::from_slice(alloc, case_of(rt, number).1).expect(rt, "memory");
        all.push(request).expect(rt, "memory");
    }
    all
}
