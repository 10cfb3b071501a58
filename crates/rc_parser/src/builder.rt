//! Pattern construction from tokens, left to right.

ghost use Rattle.std.specs.Prelude.{◌≡◌, ◌⊎◌, ◌+◌, ◌-◌, ◌^◌, ◌<◌, ◌≤◌, nat_lt, None, Some, [], option_map, MatchResult, MatchOption, OnOk, IfOk, IsOk, Err, map, string_bytes, ◌∷◌};
ghost use Rattle.rc_pattern.specs.Re as re;
ghost use Rattle.rc_pattern.specs.Meaning.{meaning};
ghost use Rattle.rc_tokens.specs.Said as said;
ghost use Rattle.rc_tokens.specs.View.{IsResultOf, said_of, start_of};
ghost use Rattle.rc_parser.specs.Settings.{settings_of, first_flags};
ghost use Rattle.rc_parser.specs.Pieces.{leaf, sense_part, depth_limit};
ghost use Rattle.rc_parser.specs.Grammar as grammar;
ghost use Rattle.rc_parser.specs.Grammar.{no_parts, begin, end_branch, whole, repeated_once, closed, inside, tie, set_flags};
ghost use Rattle.rc_parser.specs.Machine.{work, step, settled, take_said, finish, nameless};
ghost use Rattle.rc_parser.specs.Nesting.{body_depth, body_depth_with, least_depth};
ghost use Rattle.rc_parser.specs.View.{part, paired_name};

use crate::config::Config;
use crate::flags::{Flags, changed};
use crate::names::Names;
use crate::nested::{Nested, Parts};
use crate::parts::one_deeper;
use crate::pieces;
use rc_pattern::hir::{Capture, Hir, Repetition};
use rc_tokens::refusal::Refusal;
use rc_tokens::tokens::{Bounds, Change, Opening, Token};
use std::alloc::Global;
use std::mem;

/// A body that is being parsed.
#[derive(Drop)]
pub struct Level {
    pub flags: Flags,
    /// The number of groups opened so far.
    pub groups: usize,
    /// Their names.
    pub names: Names,
    pub branches: Parts,
    pub items: Parts,
}

/// The number and the name of a group.
#[derive(Drop)]
pub struct Group {
    pub index: usize,
    pub name: Option<String>,
}

/// A level that waits for a group to end.
#[derive(Drop)]
pub struct Outside {
    /// The group, if it captures.
    pub group: Option<Group>,
    pub level: Level,
}

/// The levels, the innermost apart.
#[derive(Drop)]
pub struct Work {
    pub config: Config,
    pub level: Level,
    /// The last item, while an operator may follow it.
    pub last: Option<Nested>,
    pub outer: Vec<Outside>,
}

impl Level {
    ghost use Rattle.rc_parser.specs.View.{parts, level};

    fn new(alloc: Global, flags: Flags, groups: usize, names: Names) -> Level
        ensures value { level result ≡ begin flags groups (map string_bytes names.list.items) }
        ensures groups { result.groups ≡ groups }
    {
        Level {
            flags,
            groups,
            names,
            branches: Parts::new(alloc),
            items: Parts::new(alloc),
        }
    }

    fn add(&mut self, item: Nested) -> Result<(), Refusal>
        ensures value { MatchResult result
            (λ _. level self.new ≡ grammar.add (part item) (level self.old))
            (λ e. e ≡ Refusal.Memory) }
        ensures groups { self.new.groups ≡ self.old.groups }
    {
        self.items.push(item)
    }

    fn end_branch(&mut self, alloc: Global, config: Config) -> Result<(), Refusal>
        ensures value { MatchResult result
            (λ _. end_branch (settings_of config) (level self.old) ≡ Some (level self.new))
            (λ e. (e ≡ Refusal.Memory) ⊎ (end_branch (settings_of config) (level self.old)
            ≡ None)) }
        ensures groups { self.new.groups ≡ self.old.groups }
        ensures names { self.new.names ≡ self.old.names }
    {
        let items = mem::replace(&mut self.items, Parts::new(alloc));
        let branch = items.join_concat(alloc, config)?;
        self.branches.push(branch)
    }

    /// How deep the body is nested, if it ends here.
    fn depth(&self) -> u64
        ensures value { result ≡ body_depth (level self.now) }
        ensures bound { result < 2 ^ 33 }
    {
        let branch = self.items.deepest as u64
            + self.items.hirs.len().saturating_sub(1).min(1) as u64;
        branch.max(self.branches.deepest as u64) + self.branches.hirs.len().min(1) as u64
    }

    /// How deep the body is nested, if it ends after one more item that is nested `item` deep.
    fn depth_with(&self, item: u64) -> u64
        requires { item < 2 ^ 33 }
        ensures value { result ≡ body_depth_with item (level self.now) }
        ensures bound { result < 2 ^ 33 + 2 }
    {
        let branch = item.max(self.items.deepest as u64) + self.items.hirs.len().min(1) as u64;
        branch.max(self.branches.deepest as u64) + self.branches.hirs.len().min(1) as u64
    }

    /// The body as one part. It consumes the branches.
    fn whole(&mut self, alloc: Global, config: Config) -> Result<Nested, Refusal>
        ensures value { IsResultOf result (whole (settings_of config) (level self.old)) part }
        ensures groups { self.new.groups ≡ self.old.groups }
        ensures names { self.new.names ≡ self.old.names }
    {
        self.end_branch(alloc, config)?;
        let branches = mem::replace(&mut self.branches, Parts::new(alloc));
        branches.join_alternation(alloc, config)
    }
}

fn repeat(
    alloc: Global,
    config: Config,
    flags: Flags,
    bounds: Bounds,
    item: Nested,
) -> Result<Nested, Refusal>
    ensures { IsResultOf result (repeated_once (settings_of config) flags bounds (part item)) part }
{
    let Nested { hir, depth } = item;
    let greedy = if bounds.lazy {
        flags.swap_greed
    } else {
        !flags.swap_greed
    };
    let hir = Hir::repetition(Repetition {
        min: bounds.min,
        max: bounds.max,
        greedy,
        sub: Box::new(alloc, hir)?,
    });
    one_deeper(config, hir, depth).ok_or(Refusal::Syntax)
}

/// The group around a body.
fn group_of(
    alloc: Global,
    config: Config,
    group: Option<Group>,
    body: Nested,
) -> Result<Nested, Refusal>
    ensures { IsResultOf result (closed (settings_of config) (option_map paired_name group)
        (part body)) part }
{
    let Nested { hir, depth } = body;
    let hir = match group {
        Some(Group { index, name }) => Hir::capture(Capture {
            index,
            name,
            sub: Box::new(alloc, hir)?,
        }),
        None => hir,
    };
    one_deeper(config, hir, depth).ok_or(Refusal::Syntax)
}

impl Work {
    ghost use Rattle.rc_parser.specs.View.{level, state};

    pub fn new(alloc: Global, config: Config) -> Work
        ensures value { state result ≡ work
            (begin (first_flags (settings_of config)) 0 []) None [] }
        ensures config { result.config ≡ config }
        ensures groups { result.level.groups ≡ 0 }
    {
        Work {
            config,
            level: Level::new(alloc, config.flags(), 0, Names::new(alloc)),
            last: None,
            outer: Vec::new(alloc),
        }
    }

    /// Ends the last item: no operator can follow it any more.
    fn settle(&mut self) -> Result<(), Refusal>
        ensures value { MatchResult result
            (λ _. state self.new ≡ work (settled (state self.old).last (state self.old).level) None
            (state self.old).outer) (λ e. e ≡ Refusal.Memory) }
        ensures last { OnOk result (self.new.last ≡ None) }
        ensures config { self.new.config ≡ self.old.config }
        ensures groups { self.new.level.groups ≡ self.old.level.groups }
    {
        match mem::replace(&mut self.last, None) {
            Some(item) => self.level.add(item),
            None => Ok(()),
        }
    }

    fn bar(&mut self, alloc: Global) -> Result<(), Refusal>
        requires { self.old.last ≡ None }
        ensures value { IsResultOf result
            (step (settings_of self.old.config) said.Bar (state self.old).level
            (state self.old).outer) (λ _. state self.new) }
        ensures config { self.new.config ≡ self.old.config }
        ensures groups { self.new.level.groups ≡ self.old.level.groups }
    {
        self.level.end_branch(alloc, self.config)
    }

    fn set(&mut self, to: Change) -> Result<(), Refusal>
        requires { self.old.last ≡ None }
        ensures value { IsResultOf result
            (step (settings_of self.old.config) (said.Setting to) (state self.old).level
            (state self.old).outer) (λ _. state self.new) }
        ensures config { self.new.config ≡ self.old.config }
        ensures groups { self.new.level.groups ≡ self.old.level.groups }
    {
        self.level.flags = changed(to, self.level.flags);
        self.level.add(Nested {
            hir: Hir::empty(),
            depth: 0,
        })
    }

    /// Enters a group.
    fn enter(
        &mut self,
        alloc: Global,
        flags: Flags,
        groups: usize,
        names: Names,
        group: Option<Group>,
    ) -> Result<(), Refusal>
        requires last { self.old.last ≡ None }
        requires names { self.old.level.names.list.items ≡ [] }
        ensures value { MatchResult result
            (λ _. state self.new ≡ work (begin flags groups
            (map string_bytes names.list.items)) None
            ((option_map paired_name group, (state self.old).level) ∷ (state self.old).outer))
            (λ e. e ≡ Refusal.Memory) }
        ensures config { self.new.config ≡ self.old.config }
        ensures groups { OnOk result (self.new.level.groups ≡ groups) }
    {
        let level = mem::replace(&mut self.level, Level::new(alloc, flags, groups, names));
        self.outer.push(Outside { group, level })?;
        Ok(())
    }

    fn open(&mut self, alloc: Global, opening: Opening) -> Result<(), Refusal>
        requires last { self.old.last ≡ None }
        requires room { self.old.level.groups < 2 ^ 64 - 1 }
        ensures value { IsResultOf result
            (step (settings_of self.old.config) (said.Opens (start_of opening))
            (state self.old).level (state self.old).outer) (λ _. state self.new) }
        ensures config { self.new.config ≡ self.old.config }
        ensures groups { OnOk result (self.new.level.groups ≤ self.old.level.groups + 1) }
    {
        let flags = self.level.flags;
        let groups = self.level.groups;
        let names = mem::replace(&mut self.level.names, Names::new(alloc));
        match opening {
            Opening::Capturing => {
                let index = groups + 1;
                let name = None;
                self.enter(alloc, flags, index, names, Some(Group { index, name }))
            }
            Opening::Named(name) => {
                if names.has(&name) {
                    return Err(Refusal::Syntax);
                }
                let names = names.with(alloc, &name)?;
                let index = groups + 1;
                let name = Some(name);
                self.enter(alloc, flags, index, names, Some(Group { index, name }))
            }
            Opening::Flagged(to) => self.enter(alloc, changed(to, flags), groups, names, None),
        }
    }

    fn close(&mut self, alloc: Global) -> Result<(), Refusal>
        requires { self.old.last ≡ None }
        ensures value { IsResultOf result
            (step (settings_of self.old.config) said.Closes (state self.old).level
            (state self.old).outer) (λ _. state self.new) }
        ensures config { self.new.config ≡ self.old.config }
        ensures groups { OnOk result (self.new.level.groups ≡ self.old.level.groups) }
    {
        let Some(outside) = self.outer.pop() else {
            return Err(Refusal::Syntax);
        };
        let Outside { group, mut level } = outside;
        let body = self.level.whole(alloc, self.config)?;
        let item = group_of(alloc, self.config, group, body)?;
        level.groups = self.level.groups;
        level.names = mem::replace(&mut self.level.names, Names::new(alloc));
        self.level = level;
        self.last = Some(item);
        Ok(())
    }

    fn repeat(&mut self, alloc: Global, bounds: Bounds) -> Result<(), Refusal>
        ensures value { IsResultOf result
            (take_said (settings_of self.old.config) (said.Repeats bounds) (state self.old))
            (λ _. state self.new) }
        ensures config { self.new.config ≡ self.old.config }
        ensures groups { self.new.level.groups ≡ self.old.level.groups }
    {
        let Some(item) = mem::replace(&mut self.last, None) else {
            return Err(Refusal::Syntax);
        };
        self.last = Some(repeat(alloc, self.config, self.level.flags, bounds, item)?);
        Ok(())
    }

    /// Makes the pattern of an atom the last item.
    fn put(&mut self, item: Result<Nested, Refusal>) -> Result<(), Refusal>
        requires { self.old.last ≡ None }
        ensures value { MatchResult item
            (λ n. IsOk result × (state self.new
            ≡ work (state self.old).level (Some (part n)) (state self.old).outer))
            (λ e. result ≡ Err e) }
        ensures config { self.new.config ≡ self.old.config }
        ensures groups { self.new.level.groups ≡ self.old.level.groups }
    {
        match item {
            Ok(nested) => {
                self.last = Some(nested);
                Ok(())
            }
            Err(refusal) => Err(refusal),
        }
    }

    /// Reads one token that is no operator.
    fn step(&mut self, alloc: Global, token: Token) -> Result<(), Refusal>
        requires last { self.old.last ≡ None }
        requires room { self.old.level.groups < 2 ^ 64 - 1 }
        ensures value { IsResultOf result
            (step (settings_of self.old.config) (said_of token) (state self.old).level
            (state self.old).outer) (λ _. state self.new) }
        ensures config { self.new.config ≡ self.old.config }
        ensures groups { OnOk result (self.new.level.groups ≤ self.old.level.groups + 1) }
    {
        let config = self.config;
        let flags = self.level.flags;
        match token {
            Token::Character(c) => self.put(pieces::character(alloc, config, flags, c)),
            Token::Byte(byte) => self.put(pieces::byte(alloc, config, flags, byte)),
            Token::Dot => self.put(pieces::dot(alloc, config, flags)),
            Token::Perl(perl) => self.put(pieces::perl(alloc, config, flags, perl)),
            Token::Assertion(assertion) => self.put(Ok(pieces::assertion(flags, assertion))),
            Token::List(list) => self.put(pieces::list(alloc, config, flags, &list)),
            Token::Bar => self.bar(alloc),
            Token::Setting(to) => self.set(to),
            Token::Opens(opening) => self.open(alloc, opening),
            Token::Closes => self.close(alloc),
            Token::Repeats(_) => Err(Refusal::Syntax),
        }
    }

    /// Reads one more token.
    pub fn accept(&mut self, alloc: Global, token: Token) -> Result<(), Refusal>
        requires { self.old.level.groups < 2 ^ 64 - 1 }
        ensures value { IsResultOf result
            (take_said (settings_of self.old.config) (said_of token) (state self.old))
            (λ _. state self.new) }
        ensures config { self.new.config ≡ self.old.config }
        ensures groups { OnOk result (self.new.level.groups ≤ self.old.level.groups + 1) }
    {
        if let Token::Repeats(bounds) = token {
            return self.repeat(alloc, bounds);
        }
        self.settle()?;
        self.step(alloc, token)
    }

    /// Adds the pattern of an atom behind all items so far. An operator may follow it.
    pub fn append(&mut self, item: Nested) -> Result<(), Refusal>
        ensures value { MatchResult result
            (λ _. state self.new ≡ work (settled (state self.old).last (state self.old).level)
            (Some (part item)) (state self.old).outer) (λ e. e ≡ Refusal.Memory) }
        ensures config { self.new.config ≡ self.old.config }
        ensures groups { self.new.level.groups ≡ self.old.level.groups }
    {
        self.settle()?;
        self.put(Ok(item))
    }

    /// How deep the innermost body is nested, if it ends here.
    fn depth(&self) -> u64
        ensures value { result ≡ body_depth (settled (state self.now).last (state self.now).level) }
        ensures bound { result < 2 ^ 34 }
    {
        match &self.last {
            Some(item) => self.level.depth_with(item.depth as u64),
            None => self.level.depth(),
        }
    }

    /// Whether the pattern is nested too deeply, whatever follows.
    pub fn is_too_deep(&self) -> bool
        ensures { result ≡ nat_lt (depth_limit (settings_of self.now.config))
            (least_depth (state self.now)) }
    {
        let limit = self.config.depth_limit() as u64;
        let mut depth = self.depth();
        let mut left = self.outer.len();
        while left > 0 {
            if depth > limit {
                return true;
            }
            depth = self.outer[left - 1].level.depth_with(depth + 1);
            left -= 1;
        }
        depth > limit
    }

    /// The pattern, if no group is open.
    pub fn finish(&mut self, alloc: Global) -> Result<Nested, Refusal>
        ensures { IsResultOf result (finish (settings_of self.old.config)
            (settled (state self.old).last (state self.old).level) (state self.old).outer) part }
    {
        self.settle()?;
        if !self.outer.is_empty() {
            return Err(Refusal::Syntax);
        }
        self.level.whole(alloc, self.config)
    }
}
