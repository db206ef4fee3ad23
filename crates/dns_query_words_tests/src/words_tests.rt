//! What words of a command line ask for, and which are refused.
use dns_query_words::{Arguments, Form, Refusal, Switches, WordsError, read_words};
use dns_record::{Name, NoMemory};
use std::alloc::Global;
use std::process::Abort;

/// What a call asks for: the name, the type's number, the server, the files of keys and for the session, the depth, and the seconds.
struct Asks(
    &'static str,
    u16,
    Option<&'static str>,
    Option<&'static str>,
    Option<&'static str>,
    Option<u8>,
    u16,
);

/// Words, joined by one space, and what they ask for.
#[rattlefmt::skip]
const ASKED: &[(&str, Asks)] = &[
    ("example.com", Asks("example.com.", 1, None, None, None, None, 30)),
    ("example.com. AAAA", Asks("example.com.", 28, None, None, None, None, 30)),
    ("example.com aaaa", Asks("example.com.", 28, None, None, None, None, 30)),
    ("a\\.b.example. nsec3param", Asks("a\\.b.example.", 51, None, None, None, None, 30)),
    (". TYPE65280", Asks(".", 65280, None, None, None, None, 30)),
    ("x. type1", Asks("x.", 1, None, None, None, None, 30)),
    ("x. tlsa", Asks("x.", 52, None, None, None, None, 30)),
    ("x. Https", Asks("x.", 65, None, None, None, None, 30)),
    ("x. type0", Asks("x.", 0, None, None, None, None, 30)),
    ("@192.0.2.1 x. MX", Asks("x.", 15, Some("192.0.2.1"), None, None, None, 30)),
    ("x. MX @", Asks("x.", 15, Some(""), None, None, None, 30)),
    ("x. @nobody --depth 0", Asks("x.", 1, Some("nobody"), None, None, Some(0), 30)),
    ("--anchors keys x. --save --save --depth 255", Asks("x.", 1, None, Some("keys"), Some("--save"), Some(255), 30)),
    ("--timeout 1 x. DNSKEY", Asks("x.", 48, None, None, None, None, 1)),
    ("x. --timeout 65535", Asks("x.", 1, None, None, None, None, 65535)),
];

// The words of a text between single spaces.
fn words_of(alloc: Global, text: &str) -> Result<Vec<Vec<u8>>, NoMemory> {
    let mut words = Vec::new(alloc);
    for word in text.as_bytes().split(|b| *b == b' ') {
        let word = Vec::from_slice(alloc, word)?;
        words.push(word)?;
    }
    Ok(words)
}

// Whether this is the text, or both are none.
fn is_text(found: Option<&[u8]>, text: Option<&str>) -> bool {
    match (found, text) {
        (Some(found), Some(text)) => *found == *text.as_bytes(),
        (None, None) => true,
        _ => false,
    }
}

// Whether arguments are what a row says.
fn is_asked(alloc: Global, found: &Arguments<'_>, asks: &Asks) -> bool {
    let Ok(name) = Name::from_ascii(alloc, asks.0) else {
        return false;
    };
    found.query.name.eq_case(&name)
        && found.query.query_type.0 == asks.1
        && found.query.query_class.0 == 1
        && is_text(found.server, asks.2)
        && is_text(found.anchors, asks.3)
        && is_text(found.save, asks.4)
        && found.depth == asks.5
        && found.timeout == asks.6
}

// Whether these words ask for this.
fn asks_for(alloc: Global, text: &str, asks: &Asks) -> bool {
    let Ok(words) = words_of(alloc, text) else {
        return false;
    };
    match read_words(alloc, &words) {
        Ok(Form::Ask(found)) => is_asked(alloc, &found, asks),
        _ => false,
    }
}

#[test]
fn words_ask_for_a_name_of_a_type(rt: HostRuntime) {
    for row in ASKED {
        assert!(rt; asks_for(rt.alloc(), row.0, &row.1), "{}", row.0);
    }
}

/// None of the options without a value.
const OFF: Switches = Switches {
    tcp: false,
    no_cd: false,
    trail: false,
    chain: false,
    json: false,
    help: false,
    version: false,
};

/// All of them that ask for an answer.
const ON: Switches = Switches {
    tcp: true,
    no_cd: true,
    trail: true,
    chain: true,
    json: true,
    help: false,
    version: false,
};

/// One of them.
const CHAIN_ALONE: Switches = Switches {
    tcp: false,
    no_cd: false,
    trail: false,
    chain: true,
    json: false,
    help: false,
    version: false,
};

// The options without a value of these words; None where they ask for no answer.
fn switches_of(alloc: Global, text: &str) -> Option<Switches> {
    let words = words_of(alloc, text).ok()?;
    match read_words(alloc, &words) {
        Ok(Form::Ask(found)) => Some(found.switches),
        _ => None,
    }
}

#[test]
fn options_stand_anywhere(rt: HostRuntime) {
    let alloc = rt.alloc();
    assert!(rt; switches_of(alloc, "x. A") == Some(OFF), "none");
    assert!(rt;
        switches_of(alloc, "--json --tcp x. --no-cd A --trail --chain --tcp") == Some(ON),
        "all, one of them twice"
    );
    assert!(rt;
        switches_of(alloc, "--chain x.") == Some(CHAIN_ALONE),
        "one"
    );
}

// Whether these words ask for the forms of a call.
fn asks_for_help(alloc: Global, text: &str) -> bool {
    let Ok(words) = words_of(alloc, text) else {
        return false;
    };
    match read_words(alloc, &words) {
        Ok(Form::Help) => true,
        _ => false,
    }
}

// Whether these words ask for the version.
fn asks_for_version(alloc: Global, text: &str) -> bool {
    let Ok(words) = words_of(alloc, text) else {
        return false;
    };
    match read_words(alloc, &words) {
        Ok(Form::Version) => true,
        _ => false,
    }
}

#[test]
fn help_and_version_need_no_name(rt: HostRuntime) {
    let alloc = rt.alloc();
    assert!(rt; asks_for_help(alloc, "--help"), "help");
    assert!(rt;
        asks_for_help(alloc, "x. MX --version --help --tcp"),
        "help first"
    );
    assert!(rt; asks_for_version(alloc, "--version"), "version");
}

/// Words, why they are refused, and by which word, from 0.
#[rattlefmt::skip]
const REFUSED: &[(&str, Refusal, usize)] = &[
    ("--tcp", Refusal::MissingName, 1),
    ("@192.0.2.1 --depth 3", Refusal::MissingName, 3),
    ("x. A --TCP", Refusal::UnknownOption, 2),
    ("x. -h", Refusal::UnknownOption, 1),
    ("- x.", Refusal::UnknownOption, 0),
    ("@a x. @b", Refusal::SecondServer, 2),
    ("--depth 1 x. --depth 1", Refusal::Repeated, 3),
    ("--save a --save b x.", Refusal::Repeated, 2),
    ("x. --timeout 1 --timeout 2", Refusal::Repeated, 3),
    ("x. --anchors a A --anchors b", Refusal::Repeated, 4),
    ("x. --depth", Refusal::MissingValue, 2),
    ("--help --anchors", Refusal::MissingValue, 2),
    ("x. --depth 256", Refusal::BadDepth, 2),
    ("x. --depth 01", Refusal::BadDepth, 2),
    ("x. --timeout 0", Refusal::BadSeconds, 2),
    ("x. --timeout 65536", Refusal::BadSeconds, 2),
    ("x. --timeout 1s", Refusal::BadSeconds, 2),
    ("--tcp a..b", Refusal::BadName, 1),
    ("x. AAAAA", Refusal::BadType, 1),
    ("x. TYPE65536", Refusal::BadType, 1),
    ("x. A IN", Refusal::ExtraWord, 2),
];

// Whether these words are refused so.
fn is_refused(alloc: Global, text: &str, refusal: Refusal, place: usize) -> bool {
    let Ok(words) = words_of(alloc, text) else {
        return false;
    };
    match read_words(alloc, &words) {
        Err(error) => error == WordsError::Refused(refusal, place),
        Ok(_) => false,
    }
}

#[test]
fn each_word_that_cannot_stand_has_its_reason(rt: HostRuntime) {
    for row in REFUSED {
        assert!(rt; is_refused(rt.alloc(), row.0, row.1, row.2), "{}", row.0);
    }
}

#[test]
fn no_words_ask_for_nothing(rt: HostRuntime) {
    assert!(rt;
        read_words(rt.alloc(), &[]).err() == Some(WordsError::Refused(Refusal::MissingName, 0)),
        "no words"
    );
}

/// As an array of a function it would be dear to prove.
const LETTERS: &[u8] = &[b'a'; 63];

// A name of 255 bytes: three labels of 63 letters, and one of so many.
fn long_name(alloc: Global, last: usize) -> Result<Vec<u8>, NoMemory> {
    let mut name = Vec::new(alloc);
    for _ in 0..3 {
        name.extend_from_slice(LETTERS)?;
        name.push(b'.')?;
    }
    for _ in 0..last {
        name.push(b'a')?;
    }
    Ok(name)
}

// How a call for a long name and many options is read: the bytes of the name's wire form, or the refusal.
fn size_of_long(alloc: Global, last: usize) -> Option<Result<usize, WordsError>> {
    let mut words = Vec::new(alloc);
    for _ in 0..1000 {
        let word = Vec::from_slice(alloc, b"--tcp").ok()?;
        words.push(word).ok()?;
    }
    let name = long_name(alloc, last).ok()?;
    words.push(name).ok()?;
    match read_words(alloc, &words) {
        Ok(Form::Ask(found)) => Some(Ok(found.query.name.wire().len())),
        Ok(_) => None,
        Err(error) => Some(Err(error)),
    }
}

#[test]
fn a_long_name_behind_many_words_is_read(rt: HostRuntime) {
    let alloc = rt.alloc();
    assert!(rt; size_of_long(alloc, 61) == Some(Ok(255)), "255 bytes");
    assert!(rt;
        size_of_long(alloc, 62) == Some(Err(WordsError::Refused(Refusal::BadName, 1000))),
        "256 bytes"
    );
}
