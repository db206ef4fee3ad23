//! Options: words that begin with `--`.
ghost use Rattle.std.specs.Prelude.{◌≡◌};
ghost use Rattle.dns_query_words.specs.Options.{setting_in as setting_named, switch_in as switch_named, switched};

/// An option that takes no value.
#[derive(Clone, Copy, Debug, PartialEq, Eq)]
pub(crate) enum Switch {
    Tcp,
    NoCd,
    Trail,
    Chain,
    Json,
    Help,
    Version,
}

/// An option whose value is the next word.
#[derive(Clone, Copy, Debug, PartialEq, Eq)]
pub(crate) enum Setting {
    Anchors,
    Depth,
    Save,
    Timeout,
}

/// Which options without a value stand among the words.
#[derive(Clone, Copy, Debug, PartialEq, Eq)]
pub struct Switches {
    /// `--tcp`: each query goes over a connection, and none by datagrams.
    pub tcp: bool,
    /// `--no-cd`: the CD bit of each query stays clear (RFC 4035, 3.2.2).
    pub no_cd: bool,
    /// `--trail`: each query that was made is listed.
    pub trail: bool,
    /// `--chain`: each chain from a trusted key is drawn.
    pub chain: bool,
    /// `--json`: all of it is written as JSON.
    pub json: bool,
    /// `--help`: the forms of a call are written, and nothing is asked.
    pub help: bool,
    /// `--version`: the program's version is written, and nothing is asked.
    pub version: bool,
}

impl Switches {
    /// None of them.
    pub(crate) const NONE: Switches = Switches {
        tcp: false,
        no_cd: false,
        trail: false,
        chain: false,
        json: false,
        help: false,
        version: false,
    };
}

/// The option without a value that a word is.
pub(crate) fn switch_in(word: &[u8]) -> Option<Switch>
    ensures { result ≡ switch_named word.now }
{
    if word == b"--tcp".as_slice() {
        return Some(Switch::Tcp);
    }
    if word == b"--no-cd".as_slice() {
        return Some(Switch::NoCd);
    }
    if word == b"--trail".as_slice() {
        return Some(Switch::Trail);
    }
    if word == b"--chain".as_slice() {
        return Some(Switch::Chain);
    }
    if word == b"--json".as_slice() {
        return Some(Switch::Json);
    }
    if word == b"--help".as_slice() {
        return Some(Switch::Help);
    }
    if word == b"--version".as_slice() {
        return Some(Switch::Version);
    }
    None
}

/// The option with a value that a word is.
pub(crate) fn setting_in(word: &[u8]) -> Option<Setting>
    ensures { result ≡ setting_named word.now }
{
    if word == b"--anchors".as_slice() {
        return Some(Setting::Anchors);
    }
    if word == b"--depth".as_slice() {
        return Some(Setting::Depth);
    }
    if word == b"--save".as_slice() {
        return Some(Setting::Save);
    }
    if word == b"--timeout".as_slice() {
        return Some(Setting::Timeout);
    }
    None
}

/// The same options with one more.
pub(crate) fn switched_on(mut switches: Switches, switch: Switch) -> Switches
    ensures { result ≡ switched switch switches }
{
    match switch {
        Switch::Tcp => switches.tcp = true,
        Switch::NoCd => switches.no_cd = true,
        Switch::Trail => switches.trail = true,
        Switch::Chain => switches.chain = true,
        Switch::Json => switches.json = true,
        Switch::Help => switches.help = true,
        Switch::Version => switches.version = true,
    }
    switches
}
