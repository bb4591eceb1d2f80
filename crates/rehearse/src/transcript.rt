//! What the program prints.
ghost use Rattle.std.specs.Prelude.{◌≡◌, IfOk, string_bytes};
ghost use Rattle.report.specs.Text.{refused_line};
ghost use Rattle.rehearse.specs.Transcript.{outcome_text};

use super::script::Script;
use super::tally::{count_accepted, count_refused};
use plan::outcome::Outcome;
use report::listing::{LONG_ENOUGH, write_listing};
use report::times::Times;
use std::alloc::{AllocError, Global};
use terms::refusal::Refusal;

/// The greatest number of a refusal.
const GREATEST_NUMBER: usize = 17;

/// What is printed of a table file that is refused.
pub fn refusal_text(refusal: &Refusal, heap: Global) -> Result<Vec<u8>, AllocError>
    ensures { IfOk result (λ v. v.items ≡ refused_line refusal.now) }
{
    Ok(format!(in heap; "{refusal}\n")?.into_bytes())
}

/// The line of a change, by what became of it.
fn outcome_line(line: usize, outcome: &Outcome, heap: Global) -> Result<String, AllocError>
    ensures { IfOk result (λ s. string_bytes s ≡ outcome_text line outcome.now.verdict) }
{
    match outcome.verdict {
        Ok(()) => format!(in heap; "{line} accepted\n"),
        Err(refusal) => format!(in heap; "{line} {refusal}\n"),
    }
}

/// Adds a line for each change that was played, and one for the line that could not be read.
fn add_outcomes(text: &mut Vec<u8>, script: &Script, log: &[Outcome]) -> Result<(), AllocError> {
    let heap = *text.allocator();
    for (line, outcome) in script.lines.iter().zip(log) {
        text.extend_from_slice(outcome_line(*line, outcome, heap)?.as_bytes())?;
    }
    if let Some(line) = script.unread {
        text.extend_from_slice(format!(in heap; "{line} cannot be read\n")?.as_bytes())?;
    }
    Ok(())
}

/// Adds a line for the whole, and one for each number that a refusal had.
fn add_counts(text: &mut Vec<u8>, log: &[Outcome]) -> Result<(), AllocError> {
    let heap = *text.allocator();
    let played = log.len();
    let accepted = count_accepted(log);
    let refused = played - accepted;
    let whole = format!(in heap; "played {played}, accepted {accepted}, refused {refused}\n")?;
    text.extend_from_slice(whole.as_bytes())?;
    for number in 1..=GREATEST_NUMBER {
        let times = count_refused(log, number);
        if times > 0 {
            text.extend_from_slice(format!(in heap;
                "refused {number}: {times} times\n"
            )?.as_bytes())?;
        }
    }
    Ok(())
}

/// Adds the listing of the last plan: a line for each task.
fn add_listing(text: &mut Vec<u8>, times: &Times) -> Result<(), AllocError> {
    // a listing is written into a lent buffer: what asks for a plan's times asks for no memory
    let mut listing = [0; LONG_ENOUGH];
    let length = write_listing(times, &mut listing).unwrap();
    text.extend_from_slice(&listing[..length])
}

/// What is printed of a rehearsal: what became of each change, how many were accepted and refused, and the listing.
pub fn transcript(
    script: &Script,
    log: &[Outcome],
    times: &Times,
    heap: Global,
) -> Result<Vec<u8>, AllocError> {
    let mut text = Vec::new(heap);
    add_outcomes(&mut text, script, log)?;
    add_counts(&mut text, log)?;
    add_listing(&mut text, times)?;
    Ok(text)
}
