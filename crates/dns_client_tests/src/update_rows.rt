//! Messages by their bytes: what is built, or sent by a client, and its bytes.
use crate::parts::{ADDRESS, Given, SOA};

/// The address 192.0.2.2 of `a.`.
const OTHER_ADDRESS: Given = Given {
    rdatas: &[b"\xc0\0\x02\x02"],
    ..ADDRESS
};

const TEXTS: Given = Given {
    owner: "www.example.",
    record_type: 16,
    class: 1,
    ttl: 300,
    rdatas: &[b"\x03one", b"\x03two"],
    copies: 1,
};

const MAIL: Given = Given {
    owner: "www.example.",
    record_type: 15,
    class: 1,
    ttl: 60,
    rdatas: &[b"\0\x0a\x01a\0"],
    copies: 1,
};

/// Records of class CH.
const CHAOS: Given = Given { class: 3, ..TEXTS };

const EXAMPLE_SOA: Given = Given {
    owner: "example.",
    ..SOA
};

/// An SOA whose name and class aren't those of the zone that is asked for.
const STRANGE_SOA: Given = Given {
    owner: "b.",
    class: 3,
    ..SOA
};

/// A message that is built of these records.
pub(crate) enum Call {
    Create(&'static Given),
    Append(&'static Given),
    AppendToSet(&'static Given),
    Swap(&'static Given, &'static Given),
    DeleteByRdata(&'static Given),
    DeleteRrset(&'static Given),
    DeleteAll(&'static Given),
    Notify(&'static Given),
    NotifyWith(&'static Given),
    Axfr,
    Ixfr(&'static Given),
}

/// A zone, what is built for it, whether with EDNS, and the bytes in hexadecimal digits: header and question, then the sections.
pub(crate) struct Row(
    pub(crate) &'static str,
    pub(crate) &'static str,
    pub(crate) Call,
    pub(crate) bool,
    pub(crate) &'static str,
);

// The bytes of `a.` are those of the RFCs' formats by hand; all are dnspython's too, without compression.
#[rattlefmt::skip]
const ROWS: &[Row] = &[
    Row("a set is created", ".", Call::Create(&ADDRESS), false,
        "0000280000010001000100000000060001\
        016100000100fe000000000000\
        016100000100010000003c0004c0000201"),
    Row("the same with EDNS", ".", Call::Create(&ADDRESS), true,
        "0000280000010001000100010000060001\
        016100000100fe000000000000\
        016100000100010000003c0004c0000201\
        00002904d0000000000000"),
    Row("records are added to a set", ".", Call::AppendToSet(&ADDRESS), false,
        "0000280000010001000100000000060001\
        016100000100ff000000000000\
        016100000100010000003c0004c0000201"),
    Row("records are added", ".", Call::Append(&ADDRESS), false,
        "0000280000010000000100000000060001\
        016100000100010000003c0004c0000201"),
    Row("a set is changed for another", ".", Call::Swap(&ADDRESS, &OTHER_ADDRESS), false,
        "0000280000010001000200000000060001\
        01610000010001000000000004c0000201\
        016100000100fe000000000004c0000201\
        016100000100010000003c0004c0000202"),
    Row("records are deleted", ".", Call::DeleteByRdata(&ADDRESS), false,
        "0000280000010000000100000000060001\
        016100000100fe000000000004c0000201"),
    Row("a set is deleted", ".", Call::DeleteRrset(&ADDRESS), false,
        "0000280000010000000100000000060001\
        016100000100ff000000000000"),
    Row("all sets of a name are deleted", ".", Call::DeleteAll(&ADDRESS), false,
        "0000280000010000000100000000060001\
        01610000ff00ff000000000000"),
    Row("a server is told of a set", ".", Call::Notify(&ADDRESS), false,
        "000020000001000000000000\
        01610000010001"),
    Row("a zone is asked for", ".", Call::Axfr, true,
        "000000000001000000000000\
        0000fc0001"),
    Row("changes of a zone are asked for", ".", Call::Ixfr(&SOA), false,
        "000000000001000000010000\
        0000fb0001\
        0000060001000000000018\
        016100000000000300000000000000000000000000000000"),
    Row("the SOA that is known is the zone's, of class IN", ".", Call::Ixfr(&STRANGE_SOA), true,
        "000000000001000000010000\
        0000fb0001\
        0000060001000000000018\
        016100000000000300000000000000000000000000000000"),
    Row("a set of two records is created", "example.", Call::Create(&TEXTS), true,
        "000028000001000100020001076578616d706c650000060001\
        03777777076578616d706c6500001000fe000000000000\
        03777777076578616d706c6500001000010000012c0004036f6e65\
        03777777076578616d706c6500001000010000012c00040374776f\
        00002904d0000000000000"),
    Row("two records are added to a set", "EXAMPLE.", Call::AppendToSet(&TEXTS), true,
        "000028000001000100020001074558414d504c450000060001\
        03777777076578616d706c6500001000ff000000000000\
        03777777076578616d706c6500001000010000012c0004036f6e65\
        03777777076578616d706c6500001000010000012c00040374776f\
        00002904d0000000000000"),
    Row("two records are changed for one of another type", "example.", Call::Swap(&TEXTS, &MAIL), true,
        "000028000001000200030001076578616d706c650000060001\
        03777777076578616d706c650000100001000000000004036f6e65\
        03777777076578616d706c6500001000010000000000040374776f\
        03777777076578616d706c6500001000fe000000000004036f6e65\
        03777777076578616d706c6500001000fe0000000000040374776f\
        03777777076578616d706c6500000f00010000003c0005000a016100\
        00002904d0000000000000"),
    Row("two records are deleted", "example.", Call::DeleteByRdata(&TEXTS), true,
        "000028000001000000020001076578616d706c650000060001\
        03777777076578616d706c6500001000fe000000000004036f6e65\
        03777777076578616d706c6500001000fe0000000000040374776f\
        00002904d0000000000000"),
    Row("a set of two records is deleted", "example.", Call::DeleteRrset(&TEXTS), true,
        "000028000001000000010001076578616d706c650000060001\
        03777777076578616d706c6500001000ff000000000000\
        00002904d0000000000000"),
    Row("a name of class CH is deleted", "example.", Call::DeleteAll(&CHAOS), false,
        "000028000001000000010000076578616d706c650000060003\
        03777777076578616d706c650000ff00ff000000000000"),
    Row("a server is told what a zone's SOA is", "example.", Call::NotifyWith(&EXAMPLE_SOA), true,
        "000020000001000100000001076578616d706c650000060001\
        076578616d706c6500000600010000012c0018016100000000000300000000000000000000000000000000\
        00002904d0000000000000"),
    Row("changes of a zone below the root are asked for", "example.", Call::Ixfr(&SOA), false,
        "000000000001000000010000076578616d706c650000fb0001\
        076578616d706c650000060001000000000018016100000000000300000000000000000000000000000000"),
];

pub(crate) fn rows() -> &'static [Row] {
    ROWS
}
