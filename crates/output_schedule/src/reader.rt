// Reading an output list.
ghost use Rattle.std.specs.Prelude.{◌≡◌, true, false, IfOk, IfErr, length};
ghost use Rattle.text_words.specs.Comments.{begins_comment, lines_in};
ghost use Rattle.text_words.specs.Pieces.{words_of};
ghost use Rattle.output_schedule.specs.Times.{is_bad, number_in, number_if_any, times_in, Spell, IsFirstFault};
ghost use Rattle.std.specs.List.{position_or_len};
ghost use Rattle.output_schedule.specs.Lists.{IsAtFirst};

use crate::errors::OutputErr;
use std::alloc::Global;
use text_words::{Lines, NumErr, Words, read_whole_number};

const MOST: usize = 65_536;

fn is_comment(word: &[u8]) -> bool
    ensures { result ≡ begins_comment word.now }
{
    !word.is_empty() && word[0] == b'%'
}

// The time of a line, or none where it is passed over.
fn time_of(line: &[u8]) -> Result<Option<u64>, NumErr>
    ensures ok { IfOk result (λ time. time ≡ number_if_any (number_in (words_of line.now))) }
    ensures good { IfOk result (λ _. is_bad (words_of line.now) ≡ false) }
    ensures err { IfErr result (λ _. is_bad (words_of line.now) ≡ true) }
{
    let Some(word) = Words::new(line).next() else {
        return Ok(None);
    };
    if is_comment(word) {
        return Ok(None);
    }
    Ok(Some(read_whole_number(word)?))
}

// The times of all lines, in their order.
fn read_times(alloc: Global, bytes: &[u8]) -> Result<Vec<u64>, OutputErr>
    ensures times { IfOk result (λ times. times.items ≡ times_in (lines_in bytes.now)) }
    ensures good { IfOk result (λ _. position_or_len is_bad (lines_in bytes.now) ≡ length (lines_in bytes.now)) }
    ensures err { IfErr result (λ e. IsAtFirst (lines_in bytes.now) e) }
{
    let mut times = Vec::new(alloc);
    let mut number = 0u64;
    for line in Lines::new(bytes) {
        number += 1;
        let time = time_of(line).map_err(|_| OutputErr::NotNumber { line: number })?;
        if let Some(time) = time {
            times.push(time)?;
        }
    }
    Ok(times)
}

/// The times, in ticks, ascending and distinct.
///
/// Lines without words and lines that begin with `%` are passed over; on the others the first word is a time, and
/// further words are passed over. A line whose first word is no number is named before a list that is too long.
pub fn read_outputs(alloc: Global, bytes: &[u8]) -> Result<Vec<u64>, OutputErr>
    ensures ok { IfOk result (λ outputs. Spell (lines_in bytes.now) outputs.items) }
    ensures err { IfErr result (λ fault. IsFirstFault (lines_in bytes.now) fault) }
{
    let mut times = read_times(alloc, bytes)?;
    if times.len() > MOST {
        return Err(OutputErr::TooMany {
            count: times.len() as u64,
        });
    }
    times.sort_unstable();
    times.dedup();
    Ok(times)
}
