//! Texts that are always the same.
ghost use Rattle.std.specs.Prelude.{◌≡◌};
ghost use Rattle.dns_query_run.specs.FixedTexts.{help_text, version_text};

/// The forms of a call.
pub(crate) fn help_text() -> &'static [u8]
    ensures { result.now ≡ help_text }
{
    b"dns_query [@SERVER] NAME [TYPE]  asks a server for the records of a name, of type A by default, and writes each behind its mark\n@SERVER            the server: an address, or an address and a port, as @192.0.2.1, @192.0.2.1:5353 or @[2001:db8::1]:5353; else the first of /etc/resolv.conf\n--tcp              asks over connections, and not by datagrams\n--anchors FILE     trusts the keys of a file with DNSKEY and DS records, in place of /usr/share/dns/root.key\n--depth N          follows delegations and aliases so deep at most, 0 to 255 and 26 by default\n--no-cd            leaves the CD bit clear: a resolver that validates hides what it finds bogus\n--timeout SECONDS  sends no query after so many seconds, 1 to 65535 and 30 by default, and ends within five more\n--chain            draws each chain from a trusted key down to a set, with the tags of keys\n--trail            lists each query, how long it took, and what came\n--json             writes all of it as one JSON object\n--save FILE        writes the lookup as a session: dns_check validate and dns_check audit read it\n--help             writes these lines\n--version          writes the name and the version\n"
}

/// The program's name and version.
pub(crate) fn version_text() -> &'static [u8]
    ensures { result.now ≡ version_text }
{
    b"dns_query 0.1.0\n"
}
