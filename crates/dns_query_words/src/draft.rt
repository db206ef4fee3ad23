//! What is known of a call after some of its words.
ghost use Rattle.std.specs.Prelude.{◌≡◌, codes, None, Some};
ghost use Rattle.std.specs.Option.{option_copied};
ghost use Rattle.dns_model.specs.Gives.{Gives};
ghost use Rattle.dns_text.specs.Codes.{after_prefix};
ghost use Rattle.dns_text.specs.Words.{decimal_in};
ghost use Rattle.dns_query_words.specs.Reading.{after_word, asked, begins, blank, deepened, finished, name_of_word, seconds_in as seconds_meant, timed, type_of_word as type_meant, with_number, with_plain, with_server, with_setting, with_value, with_word};
ghost use Rattle.dns_query_words.specs.declared.stop.Refusal.TheVariants.{BadDepth, BadSeconds};
ghost use Rattle.dns_query_words.specs.declared.stop.Stop.TheVariants.{NoMemory as no_memory};
ghost use Rattle.dns_query_words.specs.declared.stop.WordsError.TheVariants.{NoMemory as without_memory};

use crate::arguments::{Arguments, Form};
use crate::options::{Setting, Switches, setting_in, switch_in, switched_on};
use crate::stop::{Refusal, Stop, WordsError};
use dns_master_file::type_of_word;
use dns_record::{DNSClass, Name, NoMemory, Query, RecordType};
use dns_text::{name_word_in, u8_in, u16_in};
use std::alloc::Global;
use std::marker::Model;

/// So many seconds are asked at most, where no word says it.
const TIMEOUT: u16 = 30;

/// What is known after some words.
#[derive(Drop)]
pub(crate) struct Draft<'a> {
    name: Option<Name>,
    record_type: Option<RecordType>,
    server: Option<&'a [u8]>,
    anchors: Option<&'a [u8]>,
    save: Option<&'a [u8]>,
    depth: Option<u8>,
    timeout: Option<u16>,
    switches: Switches,
    /// The option whose value is the next word.
    awaits: Option<Setting>,
}

impl<'a> Model for Draft<'a> {
    ghost use Rattle.std.specs.Option.{option_map};
    ghost use Rattle.dns_query_words.specs.Arguments.{DraftValue};

    ghost Value = { DraftValue };

    ghost view = { λ d. record {
      name = d.name;
      rtype = option_map (λ t. t.0) d.record_type;
      server = option_map (λ t. t.now) d.server;
      anchors = option_map (λ t. t.now) d.anchors;
      save = option_map (λ t. t.now) d.save;
      depth = d.depth;
      timeout = d.timeout;
      switches = d.switches;
      awaits = d.awaits;
    } };
}

// The name that a word is.
fn name_in(alloc: Global, word: &[u8]) -> Result<Name, Stop>
    ensures { Gives (λ n. n) no_memory result (name_of_word word.now) }
{
    match name_word_in(alloc, word)? {
        Some(name) => Ok(name),
        None => Err(Stop::Refused(Refusal::BadName)),
    }
}

// The type that a word is, in whatever case.
fn type_in(alloc: Global, word: &[u8]) -> Result<RecordType, Stop>
    ensures { Gives (λ t. t.0) no_memory result (type_meant word.now) }
{
    let upper = word.to_ascii_uppercase(alloc)?;
    match type_of_word(&upper) {
        Some(record_type) => Ok(record_type),
        None => Err(Stop::Refused(Refusal::BadType)),
    }
}

// A number of seconds, which isn't 0.
fn seconds_in(word: &[u8]) -> Option<u16>
    ensures { result ≡ seconds_meant word.now }
{
    let seconds = u16_in(word)?;
    if seconds == 0 { None } else { Some(seconds) }
}

impl<'a> Draft<'a> {
    /// Nothing is known before the first word.
    pub(crate) fn blank() -> Draft<'a>
        ensures { result ≡ blank }
    {
        Draft {
            name: None,
            record_type: None,
            server: None,
            anchors: None,
            save: None,
            depth: None,
            timeout: None,
            switches: Switches::NONE,
            awaits: None,
        }
    }

    // With the text of a server.
    fn with_server(mut self, text: &'a [u8]) -> Result<Draft<'a>, Stop>
        ensures { Gives (λ d. d) no_memory result (with_server self.entry text.now) }
    {
        if self.server.is_some() {
            return Err(Stop::Refused(Refusal::SecondServer));
        }
        self.server = Some(text);
        Ok(self)
    }

    // With an option whose value is the next word.
    fn with_setting(mut self, setting: Setting) -> Result<Draft<'a>, Stop>
        ensures { Gives (λ d. d) no_memory result (with_setting self.entry setting) }
    {
        let is_set = match setting {
            Setting::Anchors => self.anchors.is_some(),
            Setting::Depth => self.depth.is_some(),
            Setting::Save => self.save.is_some(),
            Setting::Timeout => self.timeout.is_some(),
        };
        if is_set {
            return Err(Stop::Refused(Refusal::Repeated));
        }
        self.awaits = Some(setting);
        Ok(self)
    }

    // With a word that is no option: first the name, then the type.
    fn with_plain(mut self, alloc: Global, word: &[u8]) -> Result<Draft<'a>, Stop>
        ensures { Gives (λ d. d) no_memory result (with_plain self.entry word.now) }
    {
        if self.name.is_none() {
            let name = name_in(alloc, word)?;
            self.name = Some(name);
            return Ok(self);
        }
        if self.record_type.is_none() {
            let record_type = type_in(alloc, word)?;
            self.record_type = Some(record_type);
            return Ok(self);
        }
        Err(Stop::Refused(Refusal::ExtraWord))
    }

    // With the depth that a word says.
    fn with_depth(mut self, word: &[u8]) -> Result<Draft<'a>, Stop>
        ensures { Gives (λ d. d) no_memory result (with_number BadDepth (deepened self.entry) (decimal_in 255 word.now)) }
    {
        let Some(depth) = u8_in(word) else {
            return Err(Stop::Refused(Refusal::BadDepth));
        };
        self.depth = Some(depth);
        self.awaits = None;
        Ok(self)
    }

    // With the seconds that a word says.
    fn with_timeout(mut self, word: &[u8]) -> Result<Draft<'a>, Stop>
        ensures { Gives (λ d. d) no_memory result (with_number BadSeconds (timed self.entry) (seconds_meant word.now)) }
    {
        let Some(seconds) = seconds_in(word) else {
            return Err(Stop::Refused(Refusal::BadSeconds));
        };
        self.timeout = Some(seconds);
        self.awaits = None;
        Ok(self)
    }

    // With the value of an option.
    fn with_value(mut self, setting: Setting, word: &'a [u8]) -> Result<Draft<'a>, Stop>
        ensures { Gives (λ d. d) no_memory result (with_value self.entry setting word.now) }
    {
        match setting {
            Setting::Anchors => {
                self.anchors = Some(word);
                self.awaits = None;
                Ok(self)
            }
            Setting::Save => {
                self.save = Some(word);
                self.awaits = None;
                Ok(self)
            }
            Setting::Depth => self.with_depth(word),
            Setting::Timeout => self.with_timeout(word),
        }
    }

    // With a word that is no option's value.
    #[tactic(auto, unfolding(crate::specs::Reading::with_word))]
    fn with_word(mut self, alloc: Global, word: &'a [u8]) -> Result<Draft<'a>, Stop>
        ensures { Gives (λ d. d) no_memory result (with_word self.entry word.now) }
    {
        if let Some(server) = after_at(word) {
            return self.with_server(server);
        }
        if let Some(switch) = switch_in(word) {
            self.switches = switched_on(self.switches, switch);
            return Ok(self);
        }
        if let Some(setting) = setting_in(word) {
            return self.with_setting(setting);
        }
        if begins_with_dash(word) {
            return Err(Stop::Refused(Refusal::UnknownOption));
        }
        self.with_plain(alloc, word)
    }

    /// What is known after one more word.
    pub(crate) fn after_word(self, alloc: Global, word: &'a [u8]) -> Result<Draft<'a>, Stop>
        ensures { Gives (λ d. d) no_memory result (after_word self.entry word.now) }
    {
        match self.awaits {
            Some(setting) => self.with_value(setting, word),
            None => self.with_word(alloc, word),
        }
    }

    // The question, and how it is asked.
    fn asked(self, count: usize) -> Result<Form<'a>, WordsError>
        ensures { Gives (λ f. f) without_memory result (asked self.entry count) }
    {
        let Draft {
            name,
            record_type,
            server,
            anchors,
            save,
            depth,
            timeout,
            switches,
            awaits: _,
        } = self;
        let Some(name) = name else {
            return Err(WordsError::Refused(Refusal::MissingName, count));
        };
        let query = Query {
            name,
            query_type: record_type.unwrap_or(RecordType::A),
            query_class: DNSClass::IN,
        };
        Ok(Form::Ask(Arguments {
            query,
            server,
            anchors,
            save,
            depth,
            timeout: timeout.unwrap_or(TIMEOUT),
            switches,
        }))
    }

    /// What so many words ask for, after the last of them.
    pub(crate) fn finished(self, count: usize) -> Result<Form<'a>, WordsError>
        ensures { Gives (λ f. f) without_memory result (finished self.entry count) }
    {
        if self.awaits.is_some() {
            return Err(WordsError::Refused(Refusal::MissingValue, count));
        }
        if self.switches.help {
            return Ok(Form::Help);
        }
        if self.switches.version {
            return Ok(Form::Version);
        }
        self.asked(count)
    }
}

// What follows `@`.
fn after_at(word: &[u8]) -> Option<&[u8]>
    ensures { option_copied result ≡ after_prefix (codes "@") word.now }
{
    word.strip_prefix(b"@")
}

// Whether a word begins with `-`.
fn begins_with_dash(word: &[u8]) -> bool
    ensures { result ≡ begins 45 word.now }
{
    match word {
        [] => false,
        [first, ..] => *first == b'-',
    }
}
