//! Match output: a search of chunks, with a line for each match.
ghost use Rattle.std.specs.Prelude.{◌≡◌, ◌≢◌, ◌⊎◌, ◌∷◌, [], false, true, Err, IfErr, IfOk, List, MatchResult, OnErr, OnOk, ℕ};
ghost use Rattle.std.specs.Io.KnownBytes.{Keeps};
ghost use Rattle.rc_text.specs.Joined.{joined, IsTooLong};
ghost use Rattle.rc_pattern.specs.Re.{Re};
ghost use Rattle.rc_settings.specs.Settings.{unset};
ghost use Rattle.api_meta.specs.Left.{find_left};
ghost use Rattle.api_meta.specs.Views.{regex_patterns, regex_settings};
ghost use Rattle.regex_cursor.specs.Faults.{IsBuilt, IsFault};
ghost use Rattle.regex_cursor.specs.Output.{IsPut, IsRun, IsWhole, matches_in};

use super::lines::put_line;
use crate::run::{RunError, Sink};
use api_meta::iterators::FindMatches;
use api_meta::regex::Regex;
use rc_text::chunks::{ChunkCursor, TooLong};
use rc_text::cursor::Cursor;
use rc_text::input::Input;
use std::alloc::Global;

/// An input over the chunks.
fn input_over<'a>(chunks: &'a [&'a [u8]]) -> Result<Input<ChunkCursor<'a>>, TooLong>
    ensures whole { MatchResult result (IsWhole (joined chunks.now)) (λ _. IsTooLong chunks.now) }
    ensures short { OnOk result (¬ IsTooLong chunks.now) }
{
    Ok(Input::new(ChunkCursor::new(chunks)?))
}

/// Writes the lines of the matches, and returns whether there is one.
fn put_lines<W: Sink, C: Cursor + Drop>(
    out: &mut W,
    matches: FindMatches<'_, C>,
) -> Result<bool, RunError>
    requires { W.has_failed out.old ≡ false }
    ensures put { IfOk result (λ found. IsPut (find_left matches.entry) (W.taken out.old)
        (W.taken out.new) found) }
    ensures sound { OnOk result (W.has_failed out.new ≡ false) }
    ensures write_failed { IfErr result (λ e. (e ≡ RunError.Write)
        × (W.has_failed out.new ≡ true)) }
{
    let mut is_found = false;
    for found in matches {
        match put_line(out, found) {
            Ok(()) => is_found = true,
            Err(_) => return Err(RunError::Write),
        }
    }
    Ok(is_found)
}

/// Writes the lines of the matches of a borrowed regex with the default settings, and returns
/// whether there is one.
fn run_lent<W: Sink>(
    alloc: Global,
    regex: &Regex,
    chunks: &[&[u8]],
    out: &mut W,
) -> Result<bool, RunError>
    requires fresh { W.has_failed out.old ≡ false }
    requires settings { regex_settings regex.now ≡ unset }
    ensures done { (p : Re) → regex_patterns regex.now ≡ p ∷ []
        → IfOk result (IsPut (matches_in p (joined chunks.now)) (W.taken out.old)
        (W.taken out.new)) }
    ensures sound { OnOk result (W.has_failed out.new ≡ false) }
    ensures unfailed { IfErr result (λ e. e ≢ RunError.Write → W.has_failed out.new ≡ false) }
    ensures write_failed { result ≡ Err RunError.Write → W.has_failed out.new ≡ true }
    ensures nothing_put { IfErr result (λ e. e ≢ RunError.Write
        → Keeps (W.taken out.old) (W.taken out.new)) }
    ensures fault { (text : List ℕ) → IsBuilt text → IfErr result (IsFault text chunks.now) }
    ensures short { OnOk result (¬ IsTooLong chunks.now) }
{
    let input = input_over(chunks)?;
    let matches = regex.find_iter(alloc, input)?;
    let is_found = put_lines(out, matches)?;
    Ok(is_found)
}

/// Writes a line for each match of the pattern in the chunks, and returns whether there is one.
///
/// The pattern is parsed and built first, with the default settings, so any error but `Build` comes
/// only after that has succeeded. After any error but `Write` nothing was written, and the sink has
/// not failed.
pub fn run<W: Sink>(
    alloc: Global,
    pattern: &str,
    chunks: &[&[u8]],
    out: &mut W,
) -> Result<bool, RunError>
    requires { W.has_failed out.old ≡ false }
    ensures done { IfOk result (λ found. IsRun pattern.now (joined chunks.now) (W.taken out.old)
        (W.taken out.new) found) }
    ensures sound { OnOk result (W.has_failed out.new ≡ false) }
    ensures unfailed { IfErr result (λ e. e ≢ RunError.Write → W.has_failed out.new ≡ false) }
    ensures write_failed { result ≡ Err RunError.Write → W.has_failed out.new ≡ true }
    ensures nothing_put { IfErr result (λ e. e ≢ RunError.Write
        → Keeps (W.taken out.old) (W.taken out.new)) }
    ensures fault { IfErr result (IsFault pattern.now chunks.now) }
    ensures short { OnOk result (¬ IsTooLong chunks.now) }
{
    let regex = Regex::new(alloc, pattern)?;
    let outcome = run_lent(alloc, &regex, chunks, out);
    drop(regex);
    outcome
}
