ghost use Rattle.std.specs.Prelude.{◌≡◌, ◌*◌, ◌≤◌, length, IfOk};
ghost use Rattle.vital_ll.specs.Passes.{AreBlocks, IsAnalysis, IsBlock};

use crate::derivation::Step;
use crate::grammar::RuleList;
use crate::listing::Place;
use crate::passes::FollowPass;
use crate::sets::{first_masks, follow_masks};
use std::alloc::{AllocError, Global};

/// What is found of a grammar once for all tokens.
#[derive(Drop)]
pub(crate) struct Analysis<'a> {
    pub(crate) rules: &'a RuleList,
    pub(crate) steps: &'a [Step],
    pub(crate) places: &'a [Place],
    pub(crate) nullable: &'a [u128],
    pub(crate) reached: &'a [u128],
}

/// The masks of 128 tokens, whose bits begin at bit `base`: for each rule those that it can begin with, and
/// those that follow it.
#[derive(Drop)]
pub(crate) struct Block {
    pub(crate) base: usize,
    pub(crate) first: Vec<u128>,
    pub(crate) follow: Vec<u128>,
}

impl Analysis<'_> {
    /// The masks of the tokens whose bits begin at bit `base`.
    fn block(&self, alloc: Global, base: usize) -> Result<Block, AllocError>
        requires { IsAnalysis self.now.rules.now self.now.steps.now self.now.places.now self.now.nullable.now
            self.now.reached.now }
        ensures { IfOk result (IsBlock self.now.rules.now self.now.nullable.now base) }
    {
        let first = first_masks(alloc, self.rules, self.steps, base, self.nullable)?;
        let pass = FollowPass {
            rules: self.rules,
            steps: self.steps,
            places: self.places,
            base,
            nullable: self.nullable,
            first: &first,
            reached: self.reached,
        };
        let follow = follow_masks(alloc, &pass)?;
        Ok(Block {
            base,
            first,
            follow,
        })
    }

    /// The masks of the first so many blocks of 128 tokens.
    pub(crate) fn blocks(&self, alloc: Global, count: usize) -> Result<Vec<Block>, AllocError>
        requires analysis { IsAnalysis self.now.rules.now self.now.steps.now self.now.places.now
            self.now.nullable.now self.now.reached.now }
        requires few { count ≤ 513 }
        ensures count { IfOk result (λ blocks. length blocks.items ≡ count) }
        ensures blocks { IfOk result (λ blocks. AreBlocks self.now.rules.now self.now.nullable.now blocks.items) }
    {
        let mut blocks = Vec::with_capacity(alloc, count)?;
        for index in 0..count {
            blocks.push(self.block(alloc, 128 * index)?)?;
        }
        Ok(blocks)
    }
}
