//! Concatenations and alternations of parsed patterns.

ghost use Rattle.std.specs.Prelude.{◌≡◌, ◌⊎◌, ◌+◌, ◌<◌, None, Some, [], option_map, MatchResult, OnOk, IfOk, IsTrue};
ghost use Rattle.rc_pattern.specs.Meaning.{meaning, concat_of, alternation_of};
ghost use Rattle.rc_tokens.specs.View.{IsResultOf};
ghost use Rattle.rc_parser.specs.Settings.{settings_of};
ghost use Rattle.rc_parser.specs.Pieces.{deeper};
ghost use Rattle.rc_parser.specs.Grammar.{join, with_part, no_parts};
ghost use Rattle.rc_parser.specs.View.{part, parts};
ghost use Rattle.rc_pattern.specs.Kinds.{has_plain_nodes};

use crate::config::Config;
use crate::nested::{Nested, Parts};
use rc_pattern::hir::Hir;
use rc_tokens::refusal::Refusal;
use std::alloc::Global;

/// The pattern one level deeper, if that is within the limit.
pub fn one_deeper(config: Config, hir: Hir, depth: u32) -> Option<Nested>
    requires { IsTrue (has_plain_nodes hir) }
    ensures { option_map part result ≡ deeper (settings_of config) (meaning hir) depth }
{
    if depth < config.depth_limit() {
        return Some(Nested {
            hir,
            depth: depth + 1,
        });
    }
    None
}

impl Parts {
    pub fn new(alloc: Global) -> Parts
        ensures { parts result ≡ no_parts }
    {
        Parts {
            hirs: Vec::new(alloc),
            deepest: 0,
        }
    }

    pub fn push(&mut self, added: Nested) -> Result<(), Refusal>
        ensures { MatchResult result (λ _. parts self.new ≡ with_part (part added) (parts self.old))
            (λ e. e ≡ Refusal.Memory) }
    {
        let Nested { hir, depth } = added;
        self.hirs.push(hir)?;
        self.deepest = self.deepest.max(depth);
        Ok(())
    }

    /// Concatenates the parts.
    pub fn join_concat(self, alloc: Global, config: Config) -> Result<Nested, Refusal>
        ensures { IsResultOf result (join (settings_of config) concat_of (parts self)) part }
    {
        let Parts { hirs, deepest } = self;
        let count = hirs.len();
        let hir = Hir::concat(alloc, hirs)?;
        if count <= 1 {
            return Ok(Nested {
                hir,
                depth: deepest,
            });
        }
        one_deeper(config, hir, deepest).ok_or(Refusal::Syntax)
    }

    /// Alternates the parts.
    pub fn join_alternation(self, alloc: Global, config: Config) -> Result<Nested, Refusal>
        ensures { IsResultOf result (join (settings_of config) alternation_of (parts self)) part }
    {
        let Parts { hirs, deepest } = self;
        let count = hirs.len();
        let hir = Hir::alternation(alloc, hirs)?;
        if count <= 1 {
            return Ok(Nested {
                hir,
                depth: deepest,
            });
        }
        one_deeper(config, hir, deepest).ok_or(Refusal::Syntax)
    }
}
