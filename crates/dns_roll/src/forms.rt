//! The forms of lines that sessions don't have.
ghost use Rattle.std.specs.Prelude.{◌≡◌, ◌≤◌, length, IfOk, IfSome};
ghost use Rattle.std.specs.Option.{option_copied, option_map};
ghost use Rattle.dns_session.specs.Lines.{algorithms_line};
ghost use Rattle.dns_text.specs.Words.{octets_in as octets_in_word};
ghost use Rattle.dns_roll.specs.RollLines.{zone_line, key_line, sight_line, word_after, words_after};

use crate::roll_text::{GivenKey, Sight};
use dns_record::{Name, NoMemory, Octets, Rdata};
use dns_session::{LineForm, after, algorithms_of, double, single};
use dns_text::{decimal_in, name_word_in, octets_in};
use std::alloc::Global;
use std::marker::Model;

// The one word after the first, where that is this word.
fn word_after<'a>(line: &'a [u8], word: &[u8]) -> Option<&'a [u8]>
    ensures { option_copied result ≡ word_after word.now line.now }
{
    single(after(line, word)?)
}

// The two words after the first, where that is this word.
fn words_after<'a>(line: &'a [u8], word: &[u8]) -> Option<(&'a [u8], &'a [u8])>
    ensures { option_map (λ x. (x.0.now, x.1.now)) result ≡ words_after word.now line.now }
{
    double(after(line, word)?)
}

// The same, with what is known of their lengths.
fn short_words_after<'a>(line: &'a [u8], word: &[u8]) -> Option<(&'a [u8], &'a [u8])>
    ensures value { option_map (λ x. (x.0.now, x.1.now)) result ≡ words_after word.now line.now }
    ensures short { IfSome result (λ x. length x.1.now ≤ length line.now) }
{
    let Some((first, second)) = words_after(line, word) else {
        return None;
    };
    Some((first, second))
}

// The bytes that a word is, which are no more than its digits.
fn short_octets_in(alloc: Global, word: &[u8]) -> Result<Option<Octets>, NoMemory>
    ensures value { IfOk result (λ o. o ≡ octets_in_word word.now) }
    ensures short { IfOk result (λ o. IfSome o (λ bytes. length bytes ≤ length word.now)) }
{
    let Some(bytes) = octets_in(alloc, word)? else {
        return Ok(None);
    };
    Ok(Some(bytes))
}

/// What a `zone` line says.
#[derive(Drop)]
pub(crate) struct ZoneLine {
    pub(crate) zone: Name,
}

impl Model for ZoneLine {
    ghost use Rattle.dns_model.specs.Names.{Labels};

    ghost Value = { Labels };

    ghost view = { λ z. z.zone };
}

impl LineForm for ZoneLine {
    ghost form = { zone_line };

    fn read(alloc: Global, line: &[u8]) -> Result<Option<ZoneLine>, NoMemory> {
        let Some(word) = word_after(line, b"zone") else {
            return Ok(None);
        };
        let Some(zone) = name_word_in(alloc, word)? else {
            return Ok(None);
        };
        Ok(Some(ZoneLine { zone }))
    }
}

/// What an `algorithms` line says.
#[derive(Drop)]
pub(crate) struct AlgorithmsLine {
    pub(crate) algorithms: Vec<u8>,
}

impl Model for AlgorithmsLine {
    ghost use Rattle.std.specs.Prelude.{List, ℕ};

    ghost Value = { List ℕ };

    ghost view = { λ a. a.algorithms.items };
}

impl LineForm for AlgorithmsLine {
    ghost form = { algorithms_line };

    fn read(alloc: Global, line: &[u8]) -> Result<Option<AlgorithmsLine>, NoMemory> {
        match algorithms_of(alloc, line)? {
            Some(algorithms) => Ok(Some(AlgorithmsLine { algorithms })),
            None => Ok(None),
        }
    }
}

impl LineForm for GivenKey {
    ghost form = { key_line };

    fn read(alloc: Global, line: &[u8]) -> Result<Option<GivenKey>, NoMemory> {
        let Some(word) = word_after(line, b"key") else {
            return Ok(None);
        };
        let Some(bytes) = octets_in(alloc, word)? else {
            return Ok(None);
        };
        if bytes.len() > Rdata::MAX_LEN {
            return Ok(None);
        }
        let rdata = Rdata::from_octets(bytes);
        Ok(Some(GivenKey { rdata }))
    }
}

impl LineForm for Sight {
    ghost form = { sight_line };

    fn read(alloc: Global, line: &[u8]) -> Result<Option<Sight>, NoMemory> {
        let Some((moment, message)) = short_words_after(line, b"sight") else {
            return Ok(None);
        };
        let Some(moment) = decimal_in(moment, u64::MAX) else {
            return Ok(None);
        };
        let Some(bytes) = short_octets_in(alloc, message)? else {
            return Ok(None);
        };
        Ok(Some(Sight { moment, bytes }))
    }
}
