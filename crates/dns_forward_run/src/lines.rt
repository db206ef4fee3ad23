//! The lines that tell how seats ended.
ghost use Rattle.std.specs.Prelude.{◌≡◌, ◌≤◌, ◌++◌, ◌∷◌, [], IfOk, OnOk};
ghost use Rattle.dns_forward_run.specs.Lines.{end_word, line_of, line_text, lines_from, lines_status};
ghost use Rattle.dns_forward_run.specs.Steps.{WithLine};

use dns_io::status;
use dns_record::NoMemory;
use dns_seats::Ended;
use dns_text::push_decimal;
use std::alloc::Global;

/// How a seat ended, of those that have a line.
#[derive(Clone, Copy, Debug, PartialEq, Eq, Drop)]
pub enum SeatEnd {
    /// It had as many requests as it was to have.
    Count,
    /// No more requests came.
    Closed,
    /// Its port failed.
    Port,
}

/// What is told of a seat.
#[derive(Clone, Copy, Debug, PartialEq, Eq, Drop)]
pub struct SeatLine {
    /// How many requests came to it.
    pub requests: u64,
    /// How it ended.
    pub end: SeatEnd,
}

/// The line of a seat that ended so after so many requests; where memory ran out it has none.
pub(crate) fn line_of(requests: usize, ended: Ended) -> Option<SeatLine>
    ensures { result ≡ line_of requests ended }
{
    let end = match ended {
        Ended::Count => SeatEnd::Count,
        Ended::Closed => SeatEnd::Closed,
        Ended::Port(_) => SeatEnd::Port,
        Ended::NoMemory => return None,
    };
    Some(SeatLine {
        requests: requests as u64,
        end,
    })
}

/// One line more behind others. Where there is none, or memory runs out, there are no lines any more.
pub(crate) fn with_line(
    lines: Result<Vec<SeatLine>, NoMemory>,
    line: Option<SeatLine>,
) -> Result<Vec<SeatLine>, NoMemory>
    ensures { WithLine lines line result }
{
    let mut lines = lines?;
    let line = line.ok_or(NoMemory)?;
    lines.push(line)?;
    Ok(lines)
}

// The word of an end.
fn end_word(end: SeatEnd) -> &'static [u8]
    ensures { result.now ≡ end_word end }
{
    match end {
        SeatEnd::Count => b"count",
        SeatEnd::Closed => b"closed",
        SeatEnd::Port => b"port",
    }
}

// Appends the line of the seat with this number.
fn push_line(text: &mut Vec<u8>, seat: u64, line: &SeatLine) -> Result<(), NoMemory>
    ensures { OnOk result (text.new.items ≡ text.old.items ++ line_text seat line.now) }
{
    text.extend_from_slice(b"seat ")?;
    push_decimal(text, seat)?;
    text.extend_from_slice(b" requests ")?;
    push_decimal(text, line.requests)?;
    text.push(b' ')?;
    text.extend_from_slice(end_word(line.end))?;
    text.push(b'\n')?;
    Ok(())
}

/// The lines of all seats, numbered from 0.
pub(crate) fn lines_text(alloc: Global, lines: &[SeatLine]) -> Result<Vec<u8>, NoMemory>
    ensures { IfOk result (λ text. text.items ≡ lines_from 0 lines.now) }
{
    let mut text = Vec::new(alloc);
    for (seat, line) in lines.iter().enumerate() {
        push_line(&mut text, seat as u64, line)?;
    }
    Ok(text)
}

/// The status where a seat ended at a fault of its port.
const PORT_FAILED: u8 = 1;

/// The status that lines have.
pub(crate) fn lines_status(lines: &[SeatLine]) -> u8
    ensures value { result ≡ lines_status lines.now }
    ensures most { result ≤ 1 }
{
    for line in lines {
        if matches!(line.end, SeatEnd::Port) {
            return PORT_FAILED;
        }
    }
    status::DONE
}
