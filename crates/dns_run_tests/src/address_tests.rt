//! Words that are the address of a server. `tools/run_asks` gives the program words that are none.
use crate::rows::check_row;
use dns_asking::ServerAddress;

/// A word, and the octets and the port of the address that it is.
struct Row(&'static str, u8, u8, u8, u8, u16);

const ROWS: &[Row] = &[
    Row("127.0.0.1:53", 127, 0, 0, 1, 53),
    Row("0.0.0.0:1", 0, 0, 0, 0, 1),
    Row("255.255.255.255:65535", 255, 255, 255, 255, 65535),
    Row("10.20.30.40:5300", 10, 20, 30, 40, 5300),
];

fn is_read(row: &Row) -> bool {
    let address = ServerAddress {
        octets: [row.1, row.2, row.3, row.4],
        port: row.5,
    };
    ServerAddress::read(row.0.as_bytes()) == Some(address)
}

#[test]
fn words_are_addresses(rt: HostRuntime) {
    for row in ROWS {
        check_row(&rt, row.0, is_read(row));
    }
}
