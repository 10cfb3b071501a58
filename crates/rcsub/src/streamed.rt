//! Streams: a text that is written as it comes in, with each match replaced.
ghost use Rattle.std.specs.Prelude.{◌≡◌, ◌+◌, ◌-◌, ◌<◌, ◌≤◌, ◌++◌, ℕ, [], List, Option, IfOk, OnOk, false, length, slice_range, true};
ghost use Rattle.std.specs.Io.KnownBytes.{Appends};
ghost use Rattle.rc_text.specs.Found.{Found};
ghost use Rattle.api_meta.specs.Views.{regex_kind};
ghost use Rattle.rc_text.specs.declared.types.MatchKind.TheVariants.{LeftmostFirst};
ghost use Rattle.chunk_replace.specs.Template.{Item, template_items};
ghost use Rattle.stream_search.specs.Searches.{matches_of};
ghost use Rattle.rcsub.specs.Streamed.{IsDone, IsReady, PutsFor, Stands};

use crate::rewrite::Fault;
use chunk_replace::{Template, replace_match};
use regex_cursor::engines::meta::{Cache, Captures, Finder, Regex};
use regex_cursor::run::{Sink, put_all};
use regex_cursor::types::Match;
use std::alloc::{AllocError, Global};
use std::io;
use std::io::ErrorKind;
use stream_search::{FeedError, StreamSearcher};

/// A text that comes in by pages, and what its matches and their groups are found with.
#[derive(Drop)]
pub(crate) struct Streamed<'r> {
    stream: StreamSearcher<'r>,
    cache: Cache,
    captures: Captures,
    /// How many bytes of the text were written, or replaced.
    written: usize,
    /// How many bytes there were when it was searched last.
    searched: usize,
    /// Whether there was a match.
    any: bool,
}

impl From<FeedError> for Fault {
    fn from(fault: FeedError) -> Fault {
        match fault {
            FeedError::TooLong => Fault::TooLong,
            _ => Fault::Memory,
        }
    }
}

/// Writes the bytes of a stream that it keeps, from one place to another.
fn put_kept<W: Sink>(
    stream: &StreamSearcher<'_>,
    from: usize,
    to: usize,
    out: &mut W,
) -> Result<(), Fault>
    requires sound { W.has_failed out.old ≡ false }
    requires kept { stream.now.gone ≤ from }
    requires order { from ≤ to }
    requires inside { to ≤ stream.now.gone + length stream.now.kept }
    ensures put { OnOk result (Appends (W.taken out.old) (W.taken out.new)
        (slice_range stream.now.kept (from - stream.now.gone) (to - stream.now.gone))) }
    ensures sound { OnOk result (W.has_failed out.new ≡ false) }
{
    let gone = stream.kept_start();
    match put_all(out, &stream.kept()[from - gone..to - gone]) {
        Ok(()) => Ok(()),
        Err(_) => Err(Fault::Write(io::Error::from(ErrorKind::Other))),
    }
}

impl<'r> Streamed<'r> {
    /// Returns a text of which nothing has come yet.
    pub(crate) fn new(alloc: Global, regex: &'r Regex) -> Result<Streamed<'r>, AllocError>
        ensures ready { IfOk result IsReady }
        ensures regex { IfOk result (λ s. s.stream.regex ≡ regex.now) }
        ensures close { IfOk result (λ s. s.stream.from - 4 ≤ s.written) }
        ensures stands { IfOk result (λ s. (items : List Item) (old : Option (List ℕ)) →
            Stands items [] [] s old old) }
    {
        let finder = Finder::new(alloc, regex)?;
        let cache = regex.create_cache(alloc)?;
        let captures = regex.create_captures(alloc)?;
        let stream = StreamSearcher::new(alloc, finder);
        Ok(Streamed {
            stream,
            cache,
            captures,
            written: 0,
            searched: 0,
            any: false,
        })
    }

    /// Takes the next bytes of the text. Those before are written, as far as no match may begin in
    /// them.
    pub(crate) fn feed(&mut self, page: &[u8]) -> Result<(), Fault>
        requires ready { IsReady self.old }
        requires close { self.old.stream.from - 4 ≤ self.old.written }
        ensures ready { IfOk result (λ _. IsReady self.new) }
        ensures close { IfOk result (λ _. self.new.stream.from - 4 ≤ self.new.written) }
        ensures same { IfOk result (λ _. self.new.stream.regex ≡ self.old.stream.regex) }
        ensures stands { IfOk result (λ _. (items : List Item) (fed : List ℕ) (told : List Found)
            (old new : Option (List ℕ)) → Stands items fed told self.old old new
            → Stands items (fed ++ page.now) told self.new old new) }
    {
        self.stream.feed(page)?;
        Ok(())
    }

    /// Writes the bytes up to a match, whose groups the captures hold, and what replaces it.
    fn put_match<W: Sink>(
        &self,
        found: Match,
        template: &Template<'_>,
        out: &mut W,
    ) -> Result<(), Fault>
        requires sound { W.has_failed out.old ≡ false }
        requires kept { self.now.stream.gone ≤ self.now.written }
        requires order { self.now.written ≤ found.start }
        requires inside { found.start ≤ self.now.stream.gone + length self.now.stream.kept }
        ensures put { OnOk result (PutsFor
            (slice_range self.now.stream.kept (self.now.written - self.now.stream.gone)
            (found.start - self.now.stream.gone)) (template_items template.now)
            self.now.stream.kept self.now.captures (W.taken out.old) (W.taken out.new)) }
        ensures sound { OnOk result (W.has_failed out.new ≡ false) }
    {
        put_kept(&self.stream, self.written, found.start(), out)?;
        let kept = self.stream.kept();
        replace_match(std::slice::from_ref(&kept), &self.captures, template, out)?;
        Ok(())
    }

    /// Writes the matches that nothing that follows can change, replaced, and the bytes before each.
    fn put_matches<W: Sink>(&mut self, template: &Template<'_>, out: &mut W) -> Result<(), Fault>
        requires ready { IsReady self.old }
        requires sound { W.has_failed out.old ≡ false }
        requires first { regex_kind self.old.stream.regex ≡ LeftmostFirst }
        ensures ready { IfOk result (λ _. IsReady self.new) }
        ensures same { IfOk result (λ _. (self.new.stream.regex ≡ self.old.stream.regex)
            × (self.new.stream.is_finished ≡ self.old.stream.is_finished)) }
        ensures stands { IfOk result (λ _. (fed : List ℕ) (told : List Found)
            (old : Option (List ℕ)) →
            Stands (template_items template.now) fed told self.old old (W.taken out.old) →
            (more : List Found)
            × Stands (template_items template.now) fed more self.new old (W.taken out.new)
            × (self.old.stream.is_finished ≡ true → more ≡ matches_of self.old.stream.regex fed)) }
        ensures sound { OnOk result (W.has_failed out.new ≡ false) }
    {
        while let Some(found) = self
            .stream
            .next_captures_with(&mut self.cache, &mut self.captures)
        {
            self.put_match(found, template, out)?;
            self.written = found.end();
            self.any = true;
        }
        Ok(())
    }

    /// Writes what no byte that follows can change, with each match replaced: the bytes up to where
    /// the next match may begin.
    pub(crate) fn put_settled<W: Sink>(
        &mut self,
        template: &Template<'_>,
        out: &mut W,
    ) -> Result<(), Fault>
        requires ready { IsReady self.old }
        requires sound { W.has_failed out.old ≡ false }
        requires first { regex_kind self.old.stream.regex ≡ LeftmostFirst }
        ensures ready { IfOk result (λ _. IsReady self.new) }
        ensures same { IfOk result (λ _. self.new.stream.regex ≡ self.old.stream.regex) }
        ensures close { IfOk result (λ _. self.new.stream.from - 4 ≤ self.new.written) }
        ensures stands { IfOk result (λ _. (fed : List ℕ) (told : List Found)
            (old : Option (List ℕ)) →
            Stands (template_items template.now) fed told self.old old (W.taken out.old) →
            (more : List Found)
            × Stands (template_items template.now) fed more self.new old (W.taken out.new)) }
        ensures sound { OnOk result (W.has_failed out.new ≡ false) }
    {
        self.put_matches(template, out)?;
        let to = self.stream.position().min(self.stream.stream_len());
        put_kept(&self.stream, self.written, to, out)?;
        self.written = to;
        self.searched = self.stream.stream_len();
        Ok(())
    }

    /// Writes what is settled, as `put_settled` does, once as many bytes came as would be searched
    /// again. So a match of many pages isn't searched for anew with each of them.
    pub(crate) fn put_due<W: Sink>(
        &mut self,
        template: &Template<'_>,
        out: &mut W,
    ) -> Result<(), Fault>
        requires ready { IsReady self.old }
        requires sound { W.has_failed out.old ≡ false }
        requires first { regex_kind self.old.stream.regex ≡ LeftmostFirst }
        requires close { self.old.stream.from - 4 ≤ self.old.written }
        ensures ready { IfOk result (λ _. IsReady self.new) }
        ensures same { IfOk result (λ _. self.new.stream.regex ≡ self.old.stream.regex) }
        ensures close { IfOk result (λ _. self.new.stream.from - 4 ≤ self.new.written) }
        ensures stands { IfOk result (λ _. (fed : List ℕ) (told : List Found)
            (old : Option (List ℕ)) →
            Stands (template_items template.now) fed told self.old old (W.taken out.old) →
            (more : List Found)
            × Stands (template_items template.now) fed more self.new old (W.taken out.new)) }
        ensures sound { OnOk result (W.has_failed out.new ≡ false) }
    {
        let new = self.stream.stream_len().saturating_sub(self.searched);
        let again = self.searched.saturating_sub(self.stream.position());
        if new < again {
            return Ok(());
        }
        self.put_settled(template, out)
    }

    /// Says that no more follows, writes what is left, and returns whether there was a match.
    pub(crate) fn put_last<W: Sink>(
        &mut self,
        template: &Template<'_>,
        out: &mut W,
    ) -> Result<bool, Fault>
        requires ready { IsReady self.old }
        requires sound { W.has_failed out.old ≡ false }
        requires first { regex_kind self.old.stream.regex ≡ LeftmostFirst }
        ensures done { IfOk result (λ any. (fed : List ℕ) (told : List Found)
            (old : Option (List ℕ)) →
            Stands (template_items template.now) fed told self.old old (W.taken out.old) →
            IsDone self.old.stream.regex (template_items template.now) fed old
            (W.taken out.new) any) }
        ensures sound { OnOk result (W.has_failed out.new ≡ false) }
    {
        self.stream.finish();
        self.put_matches(template, out)?;
        put_kept(&self.stream, self.written, self.stream.stream_len(), out)?;
        Ok(self.any)
    }
}
